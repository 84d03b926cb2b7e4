// The phases of a run.
ghost use Rattle.std.specs.Prelude.{◌≡◌};
ghost use Rattle.run.specs.Numbers.{phase_number};

// Which answer a run awaits.
#[derive(Clone, Copy, PartialEq, Eq, Debug)]
pub enum PhaseKind {
    Ready = 0,
    // The answer to GET PROCESSING OPTIONS.
    AwaitsOptions = 20,
    // The answer to READ RECORD.
    AwaitsRecord = 22,
    // The answer to GENERATE AC.
    AwaitsCryptogram = 26,
    Ended = 40,
}

// The number by which the phase is known.
impl From<PhaseKind> for u8 {
    ghost from_gives = { λ kind n. n ≡ phase_number kind };

    fn from(kind: PhaseKind) -> u8 {
        kind as u8
    }
}
