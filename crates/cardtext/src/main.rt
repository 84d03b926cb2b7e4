// Reads card texts, one to a line, and prints what is in them and how they would be taken.
#![tactic(auto)]

ghost use Rattle.std.specs.Prelude.{◌≡◌, IfOk};
ghost use Rattle.cardtext.specs.Lines.{all_blank, is_comment, line_printed, without_feed};

use hexadecimal::read::{bytes_of, is_blank};
use std::alloc::{AllocError, Global};
use std::io;
use std::io::{BufRead, BufReader, Write};

mod judgement;
mod report;

// Whether a line has nothing but blanks.
fn all_blank(line: &[u8]) -> bool
    ensures { result ≡ all_blank line.now }
{
    line.iter().all(|c| is_blank(*c))
}

// Whether a line is a comment.
fn is_comment(line: &[u8]) -> bool
    ensures { result ≡ is_comment line.now }
{
    line.first() == Some(&b'#')
}

// The line without a line feed at its end.
fn without_feed(line: &[u8]) -> &[u8]
    ensures { result.now ≡ without_feed line.now }
{
    line.strip_suffix(b"\n").unwrap_or(line)
}

// What is printed of a line.
fn of_line(heap: Global, line: &[u8]) -> Result<Vec<u8>, AllocError>
    ensures { IfOk result (λ told. told.items ≡ line_printed line.now) }
{
    let line = without_feed(line);
    if is_comment(line) || all_blank(line) {
        return Ok(Vec::new(heap));
    }
    match bytes_of(heap, line)? {
        Some(text) => report::of_text(heap, text.as_slice()),
        None => Vec::from_slice(heap, b"not hexadecimal\n"),
    }
}

fn main(rt: HostRuntime) -> io::Result<()> {
    let heap = rt.alloc();
    let mut input = BufReader::new(heap, rt.stdin())?;
    let mut output = rt.stdout();
    let mut line = Vec::new(heap);
    // A count, since the loop waits on input, which may have any number of lines.
    for _ in 0..u64::MAX {
        line.clear();
        if input.read_until(b'\n', &mut line)? == 0 {
            break;
        }
        let told = of_line(heap, line.as_slice())?;
        output.write_all(told.as_slice())?;
    }
    Ok(())
}
