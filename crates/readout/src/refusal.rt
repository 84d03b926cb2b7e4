// Why nothing is written.
ghost use Rattle.std.specs.Prelude.{◌≡◌};
ghost use Rattle.readout.specs.Refusals.{refusal_number, refusal_kind, refusal_place};

use tlv::fault::TextFault;

#[derive(Clone, Copy, PartialEq, Eq, Debug)]
pub enum ReadoutRefusal {
    // The work list or the buffer is too short.
    Short,
    // The list of wanted tags has that fault.
    Fault(TextFault),
    // The tag is not held.
    NotHeld,
}

impl ReadoutRefusal {
    // The number by which the refusal is known.
    pub fn number(self) -> u8
        ensures { result ≡ refusal_number self }
    {
        match self {
            ReadoutRefusal::Short => 2,
            ReadoutRefusal::Fault(_) => 5,
            ReadoutRefusal::NotHeld => 12,
        }
    }

    // The kind of its fault, 0 if it has none.
    pub fn kind(self) -> u8
        ensures { result ≡ refusal_kind self }
    {
        match self {
            ReadoutRefusal::Fault(fault) => u8::from(fault.kind),
            _ => 0,
        }
    }

    // The place of its fault, 0 if it has none.
    pub fn place(self) -> usize
        ensures { result ≡ refusal_place self }
    {
        match self {
            ReadoutRefusal::Fault(fault) => fault.at,
            _ => 0,
        }
    }
}
