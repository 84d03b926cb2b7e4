// The lines that answer.
ghost use Rattle.std.specs.Prelude.{◌≡◌, ◌++◌, take, IfOk, Ok, string_bytes, codes, decimal, OnOk};
ghost use Rattle.hexadecimal.specs.Digits.{written};
ghost use Rattle.lines.specs.Words.{kind_word};
ghost use Rattle.replies.specs.Replies.{put_word, put_line, held_word, drop_line, length_line, copy_word, refusal_line, step_line, read_line, carried_words, mark_words, fault_words, outcome_line, record_word, record_words};

use decision::cryptogram::Cryptogram;
use judge::fault::ObjectFault;
use keyed::record::Record;
use lines::words::{name_of, tag_word, word_of};
use reader::reader::Step;
use reader::reader::closed::PutRefusal;
use run::fault::{Marks, RunFault};
use run::outcome::OutcomeReport;
use run::refusal::Refusal;
use std::alloc::{AllocError, Global};
use store::reading::NotCopied;
use store::writing::Refused;

// Why a put is refused, in a word. A `match`, since `Display` cannot be written here for a type of another crate.
fn put_word(refusal: PutRefusal) -> &'static str
    ensures { result.now ≡ put_word refusal }
{
    match refusal {
        PutRefusal::Open => "open",
        PutRefusal::Store(Refused::TooLong) => "long",
        PutRefusal::Store(Refused::NoRoom) => "room",
    }
}

// A put.
pub fn put_line(heap: Global, answer: Result<(), PutRefusal>) -> Result<String, AllocError>
    ensures { IfOk result (λ s. string_bytes s ≡ put_line answer) }
{
    match answer {
        Ok(()) => String::from_str(heap, "put taken"),
        Err(refusal) => format!(in heap; "put refused {}", put_word(refusal)),
    }
}

// A drop.
pub fn drop_line(heap: Global, answer: Result<bool, Refusal>) -> Result<String, AllocError>
    ensures { IfOk result (λ s. string_bytes s ≡ drop_line answer) }
{
    let words = match answer {
        Ok(true) => "drop held",
        Ok(false) => "drop absent",
        Err(_) => "drop refused open",
    };
    String::from_str(heap, words)
}

// The limits of a store.
pub fn limits_line(heap: Global, objects: usize, bytes: usize) -> Result<String, AllocError>
    ensures { IfOk result (λ s. string_bytes s ≡ codes "limits " ++ (decimal objects ++ (codes " " ++ decimal bytes))) }
{
    format!(in heap; "limits {objects} {bytes}")
}

// How many objects and bytes are held.
pub fn held_line(heap: Global, count: usize, total: usize) -> Result<String, AllocError>
    ensures { IfOk result (λ s. string_bytes s ≡ codes "held " ++ (decimal count ++ (codes " " ++ decimal total))) }
{
    format!(in heap; "held {count} {total}")
}

// The length of a value.
pub fn length_line(heap: Global, length: Option<usize>) -> Result<String, AllocError>
    ensures { IfOk result (λ s. string_bytes s ≡ length_line length) }
{
    match length {
        None => String::from_str(heap, "length none"),
        Some(n) => format!(in heap; "length {n}"),
    }
}

// What copying answers, in a word.
fn copy_word(copied: Result<usize, NotCopied>) -> &'static str
    ensures { result.now ≡ copy_word copied }
{
    match copied {
        Err(NotCopied::Missing) => "none",
        Err(NotCopied::Short) => "short",
        Ok(_) => "taken",
    }
}

// What copying into a buffer answers, and the whole buffer.
pub fn copy_line(
    heap: Global,
    copied: Result<usize, NotCopied>,
    buffer: &[u8],
) -> Result<String, AllocError>
    ensures { IfOk result (λ s. string_bytes s ≡ codes "copy " ++ (copy_word copied ++ (codes " " ++ written buffer.now))) }
{
    let word = copy_word(copied);
    let bytes = word_of(heap, buffer)?;
    let shown = bytes.as_str();
    format!(in heap; "copy {word} {shown}")
}

// A name and bytes.
pub fn bytes_line(heap: Global, name: &str, bytes: &[u8]) -> Result<String, AllocError>
    ensures { IfOk result (λ s. string_bytes s ≡ name.now ++ (codes " " ++ written bytes.now)) }
{
    let word = word_of(heap, bytes)?;
    format!(in heap; "{name} {word}")
}

// A list, a file locator or a byte that has a fault.
pub fn fault_line(heap: Global, name: &str) -> Result<String, AllocError>
    ensures { IfOk result (λ s. string_bytes s ≡ name.now ++ codes " fault") }
{
    format!(in heap; "{name} fault")
}

// A kind of cryptogram.
pub fn kind_line(heap: Global, name: &str, kind: Cryptogram) -> Result<String, AllocError>
    ensures { IfOk result (λ s. string_bytes s ≡ name.now ++ (codes " " ++ kind_word kind)) }
{
    format!(in heap; "{name} {}", name_of(kind))
}

// Writes records behind what `out` holds.
fn push_records(out: &mut String, records: &[Record]) -> Result<(), AllocError>
    ensures { OnOk result (string_bytes out.new ≡ string_bytes out.old ++ record_words records.now) }
{
    for one in records {
        write!(out, " {}.{}", one.sfi, one.number)?;
    }
    Ok(())
}

// The records of an AFL.
pub fn records_line(heap: Global, records: &[Record]) -> Result<String, AllocError>
    ensures { IfOk result (λ s. string_bytes s ≡ codes "afl" ++ record_words records.now) }
{
    let mut line = String::from_str(heap, "afl")?;
    push_records(&mut line, records)?;
    Ok(line)
}

// The phase, and how many commands were handed out.
pub fn state_line(heap: Global, phase: u8, commands: u8) -> Result<String, AllocError>
    ensures { IfOk result (λ s. string_bytes s ≡ codes "state phase " ++ (decimal phase ++ (codes " commands " ++ decimal commands))) }
{
    format!(in heap; "state phase {phase} commands {commands}")
}

// A line that is not understood, by its number.
pub fn not_understood_line(heap: Global, n: u64) -> Result<String, AllocError>
    ensures { IfOk result (λ s. string_bytes s ≡ codes "line " ++ (decimal n ++ codes " not understood")) }
{
    format!(in heap; "line {n} not understood")
}

// A call that is refused.
pub fn refusal_line(heap: Global, name: &str, refusal: Refusal) -> Result<String, AllocError>
    ensures { IfOk result (λ s. string_bytes s ≡ refusal_line name.now refusal) }
{
    let told = refusal.numbers();
    let tag = tag_word(heap, told.tag)?;
    format!(in heap;
        "{name} refused {} kind {} place {} tag {tag}",
        told.number, told.kind, told.place
    )
}

// The first `n` bytes, or all if there are fewer.
fn front(bytes: &[u8], n: usize) -> &[u8]
    ensures { result.now ≡ take n bytes.now }
{
    &bytes[..n.min(bytes.len())]
}

// What a call of a sale answers; a command is the front of the buffer.
pub fn step_line(
    heap: Global,
    name: &str,
    answer: Result<Step, Refusal>,
    buffer: &[u8],
) -> Result<String, AllocError>
    ensures { IfOk result (λ s. string_bytes s ≡ step_line name.now answer buffer.now) }
{
    match answer {
        Ok(Step::Taken) => format!(in heap; "{name} taken"),
        Ok(Step::Ended) => format!(in heap; "{name} ended"),
        Ok(Step::Command(n)) => {
            let word = word_of(heap, front(buffer, n))?;
            format!(in heap; "{name} command {word}")
        }
        Err(refusal) => refusal_line(heap, name, refusal),
    }
}

// What reading out answers: the bytes written to the front of the buffer.
pub fn read_line(
    heap: Global,
    name: &str,
    answer: Result<usize, Refusal>,
    buffer: &[u8],
) -> Result<String, AllocError>
    ensures { IfOk result (λ s. string_bytes s ≡ read_line name.now answer buffer.now) }
{
    match answer {
        Ok(n) => bytes_line(heap, name, front(buffer, n)),
        Err(refusal) => refusal_line(heap, name, refusal),
    }
}

// The fault of a text or of an object that a run's fault carries. A `match`, as below: a closure under `map` cannot allocate.
fn carried_words(heap: Global, carried: Option<ObjectFault>) -> Result<String, AllocError>
    ensures { IfOk result (λ s. string_bytes s ≡ carried_words carried) }
{
    match carried {
        None => Ok(String::new(heap)),
        Some(ObjectFault::Text(fault)) => {
            format!(in heap; " text {} place {}", u8::from(fault.kind), fault.at)
        }
        Some(ObjectFault::Object { kind, at, tag }) => {
            let tag = tag_word(heap, tag)?;
            format!(in heap; " object {} place {at} tag {tag}", u8::from(kind))
        }
    }
}

// What the cause of a run's fault sets, with the phase and the record that were awaited.
fn mark_words(heap: Global, fault: RunFault, marks: Marks) -> Result<String, AllocError>
    ensures { IfOk result (λ s. string_bytes s ≡ mark_words fault marks) }
{
    let record = fault.awaited;
    let missing = tag_word(heap, marks.missing)?;
    format!(in heap;
        " l1 {} l2 {} phase {} record {} {} missing {missing}",
        marks.l1,
        marks.l2,
        u8::from(fault.phase),
        record.sfi,
        record.number
    )
}

// The fault of a run that has one.
fn fault_words(heap: Global, fault: Option<RunFault>) -> Result<String, AllocError>
    ensures { IfOk result (λ s. string_bytes s ≡ fault_words fault) }
{
    match fault {
        None => Ok(String::new(heap)),
        Some(fault) => {
            let marks = mark_words(heap, fault, fault.cause.marks_set())?;
            let carried = carried_words(heap, fault.cause.carried_fault())?;
            format!(in heap; "{marks}{carried}")
        }
    }
}

// The outcome of a run, or why there is none.
pub fn outcome_line(
    heap: Global,
    answer: Result<OutcomeReport, Refusal>,
) -> Result<String, AllocError>
    ensures { IfOk result (λ s. string_bytes s ≡ outcome_line answer) }
{
    match answer {
        Ok(report) => {
            let fault = fault_words(heap, report.outcome.fault())?;
            format!(in heap;
                "outcome result {} commands {}{fault}",
                report.outcome.result(),
                report.commands
            )
        }
        Err(refusal) => refusal_line(heap, "outcome", refusal),
    }
}
