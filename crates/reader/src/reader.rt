// What a reader is.
ghost use Rattle.std.specs.Prelude.{ℕ, ◌+◌, ◌<◌, ◌≤◌};
ghost use Rattle.reader.specs.Ahead.{ahead};

use decision::cryptogram::Cryptogram;
use keeping::shares::Shares;
use keyed::record::Record;
use run::outcome::Outcome;

mod answer;
mod begin;
pub mod closed;
mod courses;
mod end;
mod opening;
mod own;
mod reads;

// Which answer is awaited.
#[derive(Clone, Copy, PartialEq, Eq, Debug)]
pub enum Phase {
    Ready,
    AwaitsOptions,
    AwaitsRecord,
    AwaitsCryptogram(Cryptogram),
    Ended(Outcome),
}

// A reader over a store. The records that the AFL named are the first `len`, and that at `at` is awaited.
#[derive(Drop)]
pub struct Reader<S> {
    store: S,
    opened: bool,
    shares: Shares,
    begun: bool,
    phase: Phase,
    records: [Record; 64],
    at: usize,
    len: usize,
    count: u8,
    ghost within: { at < 64 },
    ghost most: { len ≤ 64 },
    ghost few: { count + ahead phase at len ≤ 66 },
}

// What a call that was taken did.
#[derive(Clone, Copy, PartialEq, Eq, Debug)]
pub enum Step {
    // It was taken.
    Taken,
    // It handed out a command of that many bytes.
    Command(usize),
    // It ended the run.
    Ended,
}
