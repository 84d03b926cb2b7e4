// What a stage leads to.
use decision::cryptogram::Cryptogram;
use run::outcome::Outcome;

// A command whose answer is awaited, or an outcome. `command` is how many bytes the command has, which stand at the
// front of the command buffer.
#[derive(Clone, Copy, PartialEq, Eq, Debug)]
pub enum Next {
    // GET PROCESSING OPTIONS.
    Options {
        command: usize,
    },
    // READ RECORD for the first of those left to be read.
    Record {
        command: usize,
        left: usize,
    },
    // GENERATE AC for that cryptogram.
    Cryptogram {
        command: usize,
        requested: Cryptogram,
    },
    // The run is at its end.
    End(Outcome),
}
