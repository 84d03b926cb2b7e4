// A console over a reader and its store: it reads lines, makes the store that a line asks for, and prints what the
// reader, the store and the parts of a sale answer.
#![tactic(auto)]

use afl::locator::read_afl;
use commands::generate::generate_ac;
use commands::instruction::CommandFault;
use commands::options::get_processing_options;
use decision::choice::decide;
use decision::cryptogram::Cryptogram;
use decision::verification::verify;
use directory::directory::Directory;
use directory::slot::Slot;
use dol::fill::fill;
use dol::size::dol_size;
use host::read::{read_object, read_record, read_wanted};
use keyed::record::Record;
use keyed::tag::Tag;
use lines::asked::{of_five, of_four, of_one, of_three, of_two};
use lines::line::{Kind, Line, Make};
use masking::Masking;
use reader::reader::{Reader, Step};
use replies::reply::{
    bytes_line, copy_line, drop_line, fault_line, held_line, kind_line, length_line, limits_line,
    not_understood_line, outcome_line, put_line, read_line, records_line, state_line, step_line,
};
use run::refusal::Refusal;
use std::alloc::{AllocError, Global};
use std::io::{BufRead, BufReader, Stdin};
use std::{array, io};
use store::reading::ReadStore;
use store::writing::WriteStore;
use strip::strip::Strip;
use tlv::place::Place;

// What words ask for; none if they are not understood.
fn asked(heap: Global, words: &[&str]) -> Result<Option<Line>, AllocError> {
    match words {
        [] => Ok(Some(Line::Blank)),
        [name] => Ok(of_one(name)),
        [name, a] => of_two(heap, name, a),
        [name, a, b] => of_three(heap, name, a, b),
        [name, a, b, c] => Ok(of_four(name, a, b, c)),
        [name, a, b, c, d] => of_five(heap, name, a, b, c, d),
        _ => Ok(None),
    }
}

// What a line asks for: its words are separated by blanks, and `#` starts a comment.
fn understood(heap: Global, line: &str) -> Result<Option<Line>, AllocError> {
    let text = line.split_once("#").map_or(line, |(before, _)| before);
    let words: Vec<&str> = text.split_ascii_whitespace().collect(heap)?;
    asked(heap, words.as_slice())
}

// Copies a tag's value into a buffer of `n` bytes EE.
fn copy<S: ReadStore>(heap: Global, store: &S, tag: Tag, n: usize) -> Result<String, AllocError> {
    let mut buffer = vec![in heap; 0xEEu8; n]?;
    let copied = store.copy_out(tag, buffer.as_mut_slice());
    copy_line(heap, copied, buffer.as_slice())
}

// The data of a list.
fn data<S: ReadStore>(
    heap: Global,
    store: &S,
    dol: &[u8],
    most: usize,
) -> Result<String, AllocError> {
    let Ok(size) = dol_size(dol, most) else {
        return fault_line(heap, "dol");
    };
    let mut filled = vec![in heap; 0u8; size]?;
    match fill(store, dol, filled.as_mut_slice()) {
        Ok(_) => bytes_line(heap, "dol", filled.as_slice()),
        Err(_) => fault_line(heap, "dol"),
    }
}

// A command, written to the front of a buffer of 261 bytes.
fn command<F: FnOnce(&mut [u8]) -> Result<usize, CommandFault>>(
    heap: Global,
    name: &str,
    write: F,
) -> Result<String, AllocError>
    requires { F.IsAlwaysCallable write }
{
    let mut buffer = [0u8; 261];
    match write(&mut buffer) {
        // Nothing says of any `write` that its length is within the buffer, so `min` does.
        Ok(n) => bytes_line(heap, name, &buffer[..n.min(261)]),
        Err(_) => fault_line(heap, name),
    }
}

// The records of an AFL.
fn records(heap: Global, afl: &[u8]) -> Result<String, AllocError> {
    let mut records = [Record::default(); 64];
    match read_afl(afl, &mut records) {
        Ok(n) => records_line(heap, &records[..n.min(64)]),
        Err(_) => fault_line(heap, "afl"),
    }
}

// The cryptogram that stands, of what was requested and what the card gave.
fn given(heap: Global, requested: Cryptogram, information: u8) -> Result<String, AllocError> {
    match requested.answered(information) {
        Ok(kind) => kind_line(heap, "given", kind),
        Err(_) => fault_line(heap, "given"),
    }
}

// The pad of a masked store.
fn pad() -> [u8; 256] {
    array::from_fn(|i| ((i * 167 + 59) % 256) as u8)
}

// The lengths of the buffers and of the work lists that are lent to calls.
#[derive(Clone, Copy, PartialEq, Eq, Debug)]
struct Lent {
    buffer: usize,
    list: usize,
}

// The store that is made before a line asks for one.
const FIRST: Make = Make {
    kind: Kind::Directory {
        entries: 64,
        bytes: 4096,
    },
    masked: false,
};

// Where lines are read and answered: the input, how many of its lines were read, and what is lent to calls.
#[derive(Drop)]
struct Console {
    rt: HostRuntime,
    heap: Global,
    input: BufReader<Stdin>,
    count: u64,
    lent: Lent,
}

impl Console {
    // The next line; none at the end. Bytes that are no text are replaced, so that no word has them.
    fn next_line(&mut self) -> io::Result<Option<String>> {
        let mut bytes = Vec::new(self.heap);
        if self.input.read_until(b'\n', &mut bytes)? == 0 {
            return Ok(None);
        }
        self.count = self.count.saturating_add(1);
        let line = String::from_utf8_lossy(self.heap, bytes.as_slice())?;
        Ok(Some(line))
    }

    // What a call of a sale answers, with a buffer of that length and the work list that is lent to it.
    fn step<F: FnOnce(&mut [u8], &mut [Place]) -> Result<Step, Refusal>>(
        &self,
        name: &str,
        buffer: usize,
        call: F,
    ) -> Result<String, AllocError>
        requires { F.IsAlwaysCallable call }
    {
        let mut buffer = vec![in self.heap; 0u8; buffer]?;
        let mut list = vec![in self.heap; Place::default(); self.lent.list]?;
        let answer = call(buffer.as_mut_slice(), list.as_mut_slice());
        step_line(self.heap, name, answer, buffer.as_slice())
    }

    // What reading out answers, with the buffer that is lent to it.
    fn reading<F: FnOnce(&mut [u8]) -> Result<usize, Refusal>>(
        &self,
        name: &str,
        read: F,
    ) -> Result<String, AllocError>
        requires { F.IsAlwaysCallable read }
    {
        let mut buffer = vec![in self.heap; 0u8; self.lent.buffer]?;
        let answer = read(buffer.as_mut_slice());
        read_line(self.heap, name, answer, buffer.as_slice())
    }

    // Reads the wanted objects out, with a work list of tags.
    fn wanted<S: WriteStore>(&self, reader: &Reader<S>) -> Result<String, AllocError> {
        let none = Tag::new(0).unwrap();
        let mut list = vec![in self.heap; none; self.lent.list]?;
        self.reading(
            "wanted",
            |buffer| read_wanted(reader, list.as_mut_slice(), buffer),
        )
    }

    // Answers line after line, until one asks for another store; none at the end of the lines.
    fn session<S: WriteStore>(&mut self, reader: &mut Reader<S>) -> io::Result<Option<Make>> {
        let heap = self.heap;
        // A count, since the loop waits on input, which may have any number of lines.
        for _ in 0..u64::MAX {
            let Some(text) = self.next_line()? else {
                return Ok(None);
            };
            // An `Option` inside a `Result` that allocates has no `?` of its own.
            let Some(line) = understood(heap, text.as_str())? else {
                self.rt.println(not_understood_line(heap, self.count)?)?;
                continue;
            };
            // Each line brings what its call needs, so a table of functions is no plainer than this `match`.
            let reply = match line {
                Line::Blank => continue,
                Line::Store(make) => return Ok(Some(make)),
                Line::Limits => limits_line(
                    heap,
                    reader.store().object_limit(),
                    reader.store().byte_limit(),
                ),
                Line::Held => held_line(
                    heap,
                    reader.store().object_count(),
                    reader.store().byte_total(),
                ),
                Line::Put(tag, value) => put_line(heap, reader.put(tag, value.as_slice())),
                Line::Drop(tag) => drop_line(heap, reader.remove(tag)),
                Line::Length(tag) => length_line(heap, reader.store().length_of(tag)),
                Line::Copy(tag, n) => copy(heap, reader.store(), tag, n),
                Line::Dol(dol, most) => data(heap, reader.store(), dol.as_slice(), most),
                Line::Options => command(heap, "gpo", |buffer| {
                    get_processing_options(reader.store(), buffer)
                }),
                Line::Afl(afl) => records(heap, afl.as_slice()),
                Line::Verify(amount, floor) => {
                    bytes_line(heap, "tvr", &verify(amount.as_slice(), floor.as_slice()))
                }
                Line::Decide(tvr, denial, online, terminal) => {
                    let kind = decide(
                        tvr.as_slice(),
                        denial.as_slice(),
                        online.as_slice(),
                        terminal,
                    );
                    kind_line(heap, "decide", kind)
                }
                Line::Generate(kind) => command(heap, "generate", |buffer| {
                    generate_ac(reader.store(), kind, buffer)
                }),
                Line::Given(requested, information) => given(heap, requested, information),
                Line::Lend(buffer, list) => {
                    self.lent = Lent { buffer, list };
                    String::from_str(heap, "lend taken")
                }
                Line::Open(shares, text) => self.step("open", 0, |_, list| {
                    reader.open(shares, text.as_slice(), list)
                }),
                Line::Write(text) => {
                    self.step("write", 0, |_, list| reader.write(text.as_slice(), list))
                }
                Line::Begin(fci) => self.step("begin", self.lent.buffer, |buffer, list| {
                    reader.begin(fci.as_slice(), buffer, list)
                }),
                Line::Answer(bytes) => self.step("answer", self.lent.buffer, |buffer, list| {
                    reader.answer(bytes.as_slice(), buffer, list)
                }),
                Line::Fault(code) => step_line(heap, "fault", reader.link_fault(code), &[]),
                Line::Stop => step_line(heap, "stop", reader.stop(), &[]),
                Line::Clear => step_line(heap, "clear", reader.clear(), &[]),
                Line::Outcome => outcome_line(heap, reader.outcome()),
                Line::State => state_line(heap, reader.phase(), reader.count()),
                Line::Wanted => self.wanted(reader),
                Line::Object(tag) => {
                    self.reading("object", |buffer| read_object(reader, tag.number(), buffer))
                }
                Line::Record => self.reading("record", |buffer| read_record(reader, buffer)),
            };
            self.rt.println(reply?)?;
        }
        Ok(None)
    }

    // Says that the store is made, if a line asked for it, and serves the lines with a closed reader over the store, or
    // over a masked store over it; the store that is asked for next.
    fn serve<S: WriteStore + Drop>(
        &mut self,
        asked: Option<Make>,
        masked: bool,
        store: S,
    ) -> io::Result<Option<Make>> {
        if asked.is_some() {
            self.rt.println("store made")?;
        }
        if masked {
            self.session(&mut Reader::new(Masking::new(store, pad())))
        } else {
            self.session(&mut Reader::new(store))
        }
    }

    // Makes the store that a line asked for, or the first one, and serves the lines with it; the store that is asked for
    // next.
    fn make_and_serve(&mut self, asked: Option<Make>) -> io::Result<Option<Make>> {
        let make = asked.unwrap_or(FIRST);
        match make.kind {
            Kind::Directory { entries, bytes } => {
                let mut slots = vec![in self.heap; Slot::default(); entries]?;
                let mut values = vec![in self.heap; 0u8; bytes]?;
                let store = Directory::new(slots.as_mut_slice(), values.as_mut_slice());
                self.serve(asked, make.masked, store)
            }
            Kind::Strip { objects, length } => {
                let mut area = vec![in self.heap; 0u8; length]?;
                let store = Strip::new(area.as_mut_slice(), objects);
                self.serve(asked, make.masked, store)
            }
        }
    }
}

fn main(rt: HostRuntime) -> io::Result<()> {
    let heap = rt.alloc();
    let input = BufReader::new(heap, rt.stdin())?;
    let mut console = Console {
        rt,
        heap,
        input,
        count: 0,
        lent: Lent {
            buffer: 4096,
            list: 64,
        },
    };
    let mut asked = None;
    // A count, since the loop waits on input, which may ask for any number of stores.
    for _ in 0..u64::MAX {
        let Some(next) = console.make_and_serve(asked)? else {
            return Ok(());
        };
        asked = Some(next);
    }
    Ok(())
}
