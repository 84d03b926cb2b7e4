// One list of puts and drops over new stores of each make, side by side.
#![tactic(auto)]

mod beside;

use crate::beside::{directory_beside_strip, masked_beside, twice_masked_beside};
use directory::directory::Directory;
use directory::slot::Slot;
use keyed::tag::Tag;
use std::alloc::{AllocError, Global};
use std::io;
use store::steps::{Part, Step, StepAnswer};
use store::writing::Refused;
use strip::strip::Strip;

// The bytes that the values are parts of.
const TEXT: [u8; 300] = [0x5A; 300];

// A put of so many bytes; none if the number is no tag's.
fn put(tag: u32, len: usize) -> Option<Step> {
    Tag::new(tag).map(|tag| Step::Put(tag, Part { start: 0, len }))
}

// A drop; none if the number is no tag's.
fn drop_tag(tag: u32) -> Option<Step> {
    Tag::new(tag).map(|tag| Step::Drop(tag))
}

// Puts and drops that meet each answer in a store of three objects and twelve bytes.
fn list(heap: Global) -> Result<Vec<Step>, AllocError> {
    let steps = [
        put(0x9F02, 6),
        put(0x5A, 6),
        put(0x82, 1),
        put(0x82, 0),
        put(0x9F02, 7),
        put(0x9F02, 6),
        put(0x5A, 256),
        put(0x50, 0),
        drop_tag(0x82),
        drop_tag(0x82),
        put(0x9F02, 4),
        put(0xDF8121, 2),
        drop_tag(0x5A),
        put(0x50, 6),
        put(0x50, 7),
    ];
    steps.iter().flatten().copied().collect(heap)
}

// An answer in words: not a `Display`, since the type is another crate's, and a wrapper for it would be longer.
fn word(answer: StepAnswer) -> &'static str {
    match answer {
        StepAnswer::Put(Ok(())) => "put taken",
        StepAnswer::Put(Err(Refused::TooLong)) => "put refused long",
        StepAnswer::Put(Err(Refused::NoRoom)) => "put refused room",
        StepAnswer::Drop(true) => "drop held",
        StepAnswer::Drop(false) => "drop absent",
    }
}

// Prints the answers of two stores, those to the same step on one line.
fn print_both(
    rt: &HostRuntime,
    title: &str,
    n: usize,
    first: &[StepAnswer],
    second: &[StepAnswer],
) -> io::Result<()> {
    println!(rt; "{title}: {n} steps")?;
    for (a, b) in first.iter().zip(second.iter()).take(n) {
        let one = word(*a);
        let other = word(*b);
        println!(rt; "    {one} | {other}")?;
    }
    Ok(())
}

fn main(rt: HostRuntime) -> io::Result<()> {
    let steps = list(rt.alloc())?;
    let mut first = [StepAnswer::Drop(false); 16];
    let mut second = [StepAnswer::Drop(false); 16];

    let mut slots = [Slot::default(); 3];
    let mut values = [0; 12];
    let mut area = [0; 27];
    let n = directory_beside_strip(
        &mut slots,
        &mut values,
        &mut area,
        &TEXT,
        steps.as_slice(),
        &mut first,
        &mut second,
    );
    print_both(&rt, "directory | strip", n, &first, &second)?;

    let mut strip = Strip::new(&mut area, 3);
    let directory = Directory::new(&mut slots, &mut values);
    let n = masked_beside(
        directory,
        [0xA5; 256],
        &mut strip,
        &TEXT,
        steps.as_slice(),
        &mut first,
        &mut second,
    );
    print_both(&rt, "masked directory | strip", n, &first, &second)?;

    let mut directory = Directory::new(&mut slots, &mut values);
    let strip = Strip::new(&mut area, 3);
    let n = twice_masked_beside(
        strip,
        [0xA5; 256],
        [0x3C; 256],
        &mut directory,
        &TEXT,
        steps.as_slice(),
        &mut first,
        &mut second,
    );
    print_both(&rt, "strip masked twice | directory", n, &first, &second)
}
