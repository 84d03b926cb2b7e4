// What a line asks for.
use decision::cryptogram::Cryptogram;
use keeping::shares::Shares;
use keyed::tag::Tag;

// The sizes of a store of either make.
#[derive(Clone, Copy, Debug, PartialEq, Eq)]
pub enum Kind {
    Directory { entries: usize, bytes: usize },
    Strip { objects: usize, length: usize },
}

// A store to make: its make, and whether a masked store is to stand over it.
#[derive(Clone, Copy, Debug, PartialEq, Eq)]
pub struct Make {
    pub kind: Kind,
    pub masked: bool,
}

#[derive(Drop)]
pub enum Line {
    // Nothing but blanks and a comment.
    Blank,
    Store(Make),
    Limits,
    Held,
    Put(Tag, Vec<u8>),
    Drop(Tag),
    Length(Tag),
    Copy(Tag, usize),
    // A list, and the most data.
    Dol(Vec<u8>, usize),
    Options,
    Afl(Vec<u8>),
    // Amount and floor limit.
    Verify(Vec<u8>, Vec<u8>),
    // TVR, TAC Denial, TAC Online and Terminal Type.
    Decide(Vec<u8>, Vec<u8>, Vec<u8>, u8),
    Generate(Cryptogram),
    // What was requested, and the Cryptogram Information Data.
    Given(Cryptogram, u8),
    // The lengths of buffers and work lists.
    Lend(usize, usize),
    Open(Shares, Vec<u8>),
    Write(Vec<u8>),
    Begin(Vec<u8>),
    Answer(Vec<u8>),
    Fault(u8),
    Stop,
    Clear,
    Outcome,
    State,
    Wanted,
    Object(Tag),
    Record,
}
