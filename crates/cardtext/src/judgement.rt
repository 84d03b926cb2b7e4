// What is printed by the dictionary: an object's name and writer, and how a text would be taken.
ghost use Rattle.std.specs.Prelude.{◌≡◌, ◌++◌, length, IfOk, OnOk, codes, decimal, string_bytes};
ghost use Rattle.cardtext.specs.Report.{object_fault, taking_line, verdict, with_takings};
ghost use Rattle.cardtext.specs.Words.{words_of, with_entry};
ghost use Rattle.dictionary.specs.Dictionary.{entry_of};
ghost use Rattle.dictionary.specs.Names.{name_of};
ghost use Rattle.judge.specs.Faults.{fault_number};
ghost use Rattle.judge.specs.Judge.{answered};

use crate::report::push_tag;
use dictionary::entry::Writer;
use dictionary::find::lookup;
use dictionary::name::name_of;
use judge::alone::judge_alone;
use judge::fault::{JudgeRefusal, ObjectFault, ObjectFaultKind};
use judge::kind::TextKind;
use std::alloc::{AllocError, Global};
use tlv::place::Place;

// The words for a writer. A `match`, since `Display` cannot be written here for a type of another crate.
fn words_of(writer: Writer) -> &'static str
    ensures { result.now ≡ words_of writer }
{
    match writer {
        Writer::Configuration => "configuration",
        Writer::TerminalBeforeBegin => "terminal before begin",
        Writer::Terminal => "terminal",
        Writer::Card => "card",
        Writer::Reader => "reader",
    }
}

// The name and the writer of a tag, or `unknown`, behind what `out` holds.
pub fn push_entry(out: &mut Vec<u8>, tag: u32) -> Result<(), AllocError>
    ensures { OnOk result (out.new.items ≡ with_entry out.old.items (entry_of tag) (name_of tag)) }
{
    let (Some(entry), Some(name)) = (lookup(tag), name_of(tag)) else {
        return out.extend_from_slice(b"unknown");
    };
    out.extend_from_slice(name.as_bytes())?;
    out.extend_from_slice(b", ")?;
    out.extend_from_slice(words_of(entry.writer).as_bytes())
}

// The words of an object's fault, up to its tag. They fit into the room that is asked for, so that it is asked for once.
fn fault_words(heap: Global, kind: ObjectFaultKind, at: usize) -> Result<String, AllocError>
    ensures { IfOk result (λ s. string_bytes s ≡ codes "object fault " ++ (decimal (fault_number kind) ++ (codes " place " ++ (decimal at ++ codes " tag ")))) }
{
    let mut words = String::with_capacity(heap, 64)?;
    write!(words, "object fault {} place {at} tag ", u8::from(kind))?;
    Ok(words)
}

// The fault of an object.
fn push_object_fault(
    out: &mut Vec<u8>,
    kind: ObjectFaultKind,
    at: usize,
    tag: u32,
) -> Result<(), AllocError>
    ensures { OnOk result (out.new.items ≡ out.old.items ++ object_fault kind at tag) }
{
    let words = fault_words(*out.allocator(), kind, at)?;
    out.extend_from_slice(words.as_bytes())?;
    push_tag(out, tag)
}

// How a text is judged.
fn push_verdict(out: &mut Vec<u8>, answer: Result<usize, JudgeRefusal>) -> Result<(), AllocError>
    ensures { OnOk result (out.new.items ≡ out.old.items ++ verdict (answered answer)) }
{
    match answer {
        Ok(_) => out.extend_from_slice(b"ok"),
        Err(JudgeRefusal::Fault(ObjectFault::Object { kind, at, tag })) => {
            push_object_fault(out, kind, at, tag)
        }
        // A text is judged after it was read, with a work list that is long enough.
        Err(JudgeRefusal::Fault(ObjectFault::Text(_)) | JudgeRefusal::ListShort) => Ok(()),
    }
}

// The line that tells how the text would be taken as one of that kind, nothing being held.
fn push_taking(
    out: &mut Vec<u8>,
    label: &str,
    kind: TextKind,
    text: &[u8],
    list: &mut [Place],
) -> Result<(), AllocError>
    ensures { OnOk result (out.new.items ≡ out.old.items ++ taking_line label.now (length list.old) kind text.now) }
{
    out.extend_from_slice(label.as_bytes())?;
    out.extend_from_slice(b": ")?;
    push_verdict(out, judge_alone(kind, text, list))?;
    out.extend_from_slice(b"\n")
}

// A line for each kind of text: how the text would be taken by itself, before begin.
pub fn push_takings(out: &mut Vec<u8>, text: &[u8], list: &mut [Place]) -> Result<(), AllocError>
    ensures { OnOk result (out.new.items ≡ with_takings out.old.items (length list.old) text.now) }
{
    let written = TextKind::TerminalWrite { begun: false };
    push_taking(out, "configuration", TextKind::Configuration, text, list)?;
    push_taking(out, "terminal", written, text, list)?;
    push_taking(out, "card", TextKind::CardAnswer, text, list)
}
