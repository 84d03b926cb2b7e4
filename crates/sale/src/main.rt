// Sample sales: a card whose label is empty is served; a card whose record carries the tag of our floor limit is turned
// away, and the floor limit is unmoved; and both cards at two readers side by side, over stores of two makes.
#![tactic(auto)]

mod texts;

use crate::texts::{
    APPROVAL, CONFIGURATION, EMPTY_LABEL, LABEL, LATE_AMOUNT, OPTIONS, OUR_FLOOR_LIMIT,
    PAN_AND_EXPIRY, SALE, SEQUENCE, SHARES,
};
use directory::directory::Directory;
use directory::slot::Slot;
use hexadecimal::write::push_hex;
use host::read::{read_object, read_record, read_wanted};
use isolation::beside::side_by_side;
use isolation::call::{Asked, Call};
use judge::fault::ObjectFault;
use keyed::tag::Tag;
use masking::Masking;
use reader::reader::{Reader, Step};
use run::fault::RunFault;
use run::refusal::Refusal;
use std::alloc::{AllocError, Global};
use std::io;
use store::writing::WriteStore;
use strip::strip::Strip;
use tlv::place::Place;

// Bytes in hexadecimal digits.
fn digits(heap: Global, bytes: &[u8]) -> Result<String, AllocError> {
    let mut out = Vec::new(heap);
    push_hex(&mut out, bytes)?;
    String::from_utf8_lossy(heap, out.as_slice())
}

// Prints what a call was told.
fn print_step(
    rt: &HostRuntime,
    call: &str,
    told: Result<Step, Refusal>,
    buffer: &[u8],
) -> io::Result<()> {
    match told {
        Ok(Step::Taken) => println!(rt; "  {call}: taken"),
        Ok(Step::Ended) => println!(rt; "  {call}: the run ended"),
        Ok(Step::Command(n)) => {
            let shown = digits(rt.alloc(), &buffer[..n.min(buffer.len())])?;
            println!(rt; "  {call}: command {shown}")
        }
        Err(refusal) => {
            let told = refusal.numbers();
            println!(rt;
                "  {call}: refused {} kind {} place {}",
                told.number, told.kind, told.place
            )
        }
    }
}

// Prints the fault of a run that ended with result 4.
fn print_fault(rt: &HostRuntime, fault: RunFault) -> io::Result<()> {
    let marks = fault.cause.marks_set();
    let record = fault.awaited;
    println!(rt;
        "  fault: L1 {} L2 {} at record {}.{}",
        marks.l1, marks.l2, record.sfi, record.number
    )?;
    if let Some(ObjectFault::Object { kind, at, .. }) = fault.cause.carried_fault() {
        println!(rt;
            "  object fault {} at place {at} of the record",
            u8::from(kind)
        )?;
    }
    Ok(())
}

// Prints the outcome of a run.
fn print_outcome<S: WriteStore>(rt: &HostRuntime, reader: &Reader<S>) -> io::Result<()> {
    let Ok(report) = reader.outcome() else {
        return rt.println("  outcome: none");
    };
    println!(rt;
        "  outcome: result {} after {} commands",
        report.outcome.result(),
        report.commands
    )?;
    if let Some(fault) = report.outcome.fault() {
        print_fault(rt, fault)?;
    }
    Ok(())
}

// Prints what is read out, or the words for where nothing is.
fn print_reading<F: FnOnce(&mut [u8]) -> Result<usize, Refusal>>(
    rt: &HostRuntime,
    name: &str,
    nothing: &str,
    read: F,
) -> io::Result<()>
    requires { F.IsAlwaysCallable read }
{
    let mut out = [0; 1024];
    match read(&mut out) {
        Ok(n) => {
            // Nothing says of any `read` that its length is within the buffer, so `min` does.
            let shown = digits(rt.alloc(), &out[..n.min(1024)])?;
            println!(rt; "  {name}: {shown}")
        }
        Err(_) => println!(rt; "  {name}: {nothing}"),
    }
}

// Prints the object of a tag.
fn print_object<S: WriteStore>(
    rt: &HostRuntime,
    reader: &Reader<S>,
    name: &str,
    tag: u32,
) -> io::Result<()> {
    print_reading(rt, name, "not held", |out| read_object(reader, tag, out))
}

// Prints what the host reads out after a sale.
fn print_readings<S: WriteStore>(rt: &HostRuntime, reader: &Reader<S>) -> io::Result<()> {
    let mut tags = [Tag::new(0).unwrap(); 64];
    print_reading(
        rt,
        "wanted objects",
        "none",
        |out| read_wanted(reader, &mut tags, out),
    )?;
    print_reading(rt, "Data Record", "none", |out| read_record(reader, out))?;
    print_object(rt, reader, "floor limit", 0xDF_8123)
}

// The card gives its answers.
fn give_all<S: WriteStore>(
    rt: &HostRuntime,
    reader: &mut Reader<S>,
    answers: &[&[u8]],
    buffer: &mut [u8],
    list: &mut [Place],
) -> io::Result<()> {
    for answer in answers {
        let told = reader.answer(answer, buffer, list);
        print_step(rt, "answer", told, buffer)?;
    }
    Ok(())
}

// One sale, from the terminal's objects to the outcome.
fn sell<S: WriteStore>(
    rt: &HostRuntime,
    reader: &mut Reader<S>,
    fci: &[u8],
    answers: &[&[u8]],
) -> io::Result<()> {
    let mut buffer = [0; 261];
    let mut list = [Place::default(); 64];
    let told = reader.write(&SALE, &mut list);
    print_step(rt, "write", told, &buffer)?;
    let told = reader.begin(fci, &mut buffer, &mut list);
    print_step(rt, "begin", told, &buffer)?;
    give_all(rt, reader, answers, &mut buffer, &mut list)?;
    print_outcome(rt, reader)?;
    print_readings(rt, reader)?;
    let told = reader.clear();
    print_step(rt, "clear", told, &buffer)
}

// The sales of two cards at a reader over a new store.
fn two_sales<S: WriteStore + Drop>(rt: &HostRuntime, store: S) -> io::Result<()> {
    let mut reader = Reader::new(store);
    let mut list = [Place::default(); 64];
    rt.println("A reader is opened")?;
    let told = reader.open(SHARES, &CONFIGURATION, &mut list);
    print_step(rt, "open", told, &[])?;
    rt.println("A card whose label is empty")?;
    sell(
        rt,
        &mut reader,
        &EMPTY_LABEL,
        &[&OPTIONS, &PAN_AND_EXPIRY, &SEQUENCE, &APPROVAL],
    )?;
    rt.println("A card whose record carries the tag of our floor limit")?;
    sell(rt, &mut reader, &LABEL, &[&OPTIONS, &OUR_FLOOR_LIMIT])
}

// The words for a call. A `match`, since `Display` cannot be written for a type of another crate.
fn name_of(call: Call) -> &'static str {
    match call {
        Call::Write(_) => "write",
        Call::Begin(_) => "begin",
        Call::Answer(_) => "answer",
        Call::LinkFault(_) => "link fault",
        Call::Stop => "stop",
        Call::Clear => "clear",
    }
}

// A call with a command buffer of 261 bytes and a work list of so many elements.
fn with_list(call: Call<'_>, list: usize) -> Asked<'_> {
    Asked {
        call,
        buffer: 261,
        list,
    }
}

// Prints the replies to the calls that were made. Not by `print_step`: no buffer stands beside a reply, so a command is
// told by its length, and a refusal without its place.
fn print_replies(
    rt: &HostRuntime,
    calls: &[Asked],
    replies: &[Result<Step, Refusal>],
    made: usize,
) -> io::Result<()> {
    for (asked, reply) in calls.iter().zip(replies).take(made) {
        let name = name_of(asked.call);
        match *reply {
            Ok(Step::Taken) => println!(rt; "  {name}: taken")?,
            Ok(Step::Ended) => println!(rt; "  {name}: the run ended")?,
            Ok(Step::Command(n)) => println!(rt; "  {name}: a command of {n} bytes")?,
            Err(refusal) => {
                let told = refusal.numbers();
                println!(rt; "  {name}: refused {} kind {}", told.number, told.kind)?
            }
        }
    }
    Ok(())
}

// Prints our own objects.
fn print_own<S: WriteStore>(rt: &HostRuntime, reader: &Reader<S>) -> io::Result<()> {
    print_object(rt, reader, "floor limit", 0xDF_8123)?;
    print_object(rt, reader, "amount", 0x9F02)?;
    print_object(rt, reader, "wanted tags", 0xDF_8112)
}

// Two cards at two readers, over new stores of two makes; the terminal asks the same of both.
fn two_readers<S: WriteStore + Drop, T: WriteStore + Drop>(
    rt: &HostRuntime,
    store: S,
    other: T,
) -> io::Result<()> {
    let mut first = Reader::new(store);
    let mut second = Reader::new(other);
    let mut buffer = [0; 261];
    let mut list = [Place::default(); 64];
    let calls = [
        with_list(Call::Write(&SALE), 63),
        with_list(Call::Write(&SALE), 64),
        with_list(Call::Begin(&EMPTY_LABEL), 64),
        with_list(Call::Answer(&OPTIONS), 64),
        with_list(Call::Answer(&PAN_AND_EXPIRY), 64),
        with_list(Call::Answer(&SEQUENCE), 64),
        with_list(Call::Answer(&APPROVAL), 64),
        with_list(Call::Write(&LATE_AMOUNT), 64),
        with_list(Call::Begin(&EMPTY_LABEL), 64),
    ];
    let others = [
        with_list(Call::Write(&SALE), 63),
        with_list(Call::Write(&SALE), 64),
        with_list(Call::Begin(&LABEL), 64),
        with_list(Call::Answer(&OPTIONS), 64),
        with_list(Call::Answer(&OUR_FLOOR_LIMIT), 64),
        with_list(Call::Stop, 64),
        with_list(Call::Write(&LATE_AMOUNT), 64),
        with_list(Call::Begin(&LABEL), 64),
    ];
    let mut replies = [Ok(Step::Taken); 9];
    let mut other_replies = [Ok(Step::Taken); 8];
    let made = side_by_side(
        &mut first,
        &mut second,
        SHARES,
        &CONFIGURATION,
        &calls,
        &others,
        &mut buffer,
        &mut list,
        &mut replies,
        &mut other_replies,
    );
    rt.println("The first reader")?;
    print_replies(rt, &calls, &replies, made.first.unwrap_or(0))?;
    print_outcome(rt, &first)?;
    print_own(rt, &first)?;
    rt.println("The second reader")?;
    print_replies(rt, &others, &other_replies, made.second.unwrap_or(0))?;
    print_outcome(rt, &second)?;
    print_own(rt, &second)
}

fn main(rt: HostRuntime) -> io::Result<()> {
    let mut area = [0; 720];
    two_sales(&rt, Strip::new(&mut area, 64))?;
    rt.println("Both cards at two readers side by side: a directory, and a masked strip")?;
    let mut slots = [Slot::default(); 64];
    let mut values = [0; 400];
    let directory = Directory::new(&mut slots, &mut values);
    let mut other_area = [0; 720];
    let masked = Masking::new(Strip::new(&mut other_area, 64), [0xA5; 256]);
    two_readers(&rt, directory, masked)
}
