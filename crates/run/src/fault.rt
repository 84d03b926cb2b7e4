// Why a run ends without a cryptogram that stands.
ghost use Rattle.std.specs.Prelude.{◌≡◌};
ghost use Rattle.run.specs.declared.fault.Cause.TheVariants.{Faulty, BadFileLocator, BadCryptogram};
ghost use Rattle.run.specs.Numbers.{cause_marks, indication_of, carried_fault, list_cause, take_cause};

use crate::phase::PhaseKind;
use afl::locator::AflFault;
use commands::instruction::CommandFault;
use decision::cryptogram::WrongCryptogram;
use judge::fault::ObjectFault;
use keeping::refusal::TakeRefusal;
use keyed::record::Record;

// The causes of an end with result 4.
#[derive(Clone, Copy, PartialEq, Eq, Debug)]
pub enum Cause {
    // The link to the card failed, with a code 1 to 3.
    Link(u8),
    // The run was stopped.
    Stopped,
    // The FCI or the answer has too few or too many bytes.
    WrongSize,
    // The status is not '9000' but these two bytes.
    BadStatus(u8, u8),
    // The text, or an object of it, has that fault.
    Faulty(ObjectFault),
    // The text is not one object of the tag asked for.
    WrongOuter,
    // The card's values together would pass its share.
    OverCardShare,
    // An object with that tag has no value.
    Missing(u32),
    // The AFL breaks a rule.
    BadFileLocator,
    // The PDOL or CDOL1 is faulty, or asks for too much data.
    BadList,
    // The Cryptogram Information Data names no cryptogram that stands.
    BadCryptogram,
    // Default CDOL1 is faulty, or asks for too much data.
    BadDefaultList,
}

// What a cause sets: L1, L2, the two bytes of the status that the Error Indication shows, and the tag that was missing.
#[derive(Clone, Copy, PartialEq, Eq, Debug)]
pub struct Marks {
    pub l1: u8,
    pub l2: u8,
    pub sw1: u8,
    pub sw2: u8,
    pub missing: u32,
}

fn marked(l1: u8, l2: u8) -> Marks
    ensures { result ≡ Rattle.run.specs.Numbers.marked l1 l2 }
{
    Marks {
        l1,
        l2,
        sw1: 0,
        sw2: 0,
        missing: 0,
    }
}

impl Cause {
    // What the cause sets.
    pub fn marks_set(self) -> Marks
        ensures { result ≡ cause_marks self }
    {
        match self {
            Cause::Link(code) => marked(code, 0),
            Cause::Stopped => marked(0, 0),
            Cause::WrongSize => marked(0, 4),
            Cause::BadStatus(sw1, sw2) => Marks {
                l1: 0,
                l2: 3,
                sw1,
                sw2,
                missing: 0,
            },
            Cause::Faulty(ObjectFault::Text(_)) => marked(0, 4),
            Cause::Faulty(ObjectFault::Object { .. }) => marked(0, 6),
            Cause::WrongOuter => marked(0, 4),
            Cause::OverCardShare => marked(0, 6),
            Cause::Missing(tag) => Marks {
                l1: 0,
                l2: 1,
                sw1: 0,
                sw2: 0,
                missing: tag,
            },
            Cause::BadFileLocator => marked(0, 6),
            Cause::BadList => marked(0, 6),
            Cause::BadCryptogram => marked(0, 6),
            Cause::BadDefaultList => marked(0, 15),
        }
    }

    // The value of the Error Indication (DF8115).
    pub fn error_indication(self) -> [u8; 6]
        ensures { result ≡ indication_of self }
    {
        let marks = self.marks_set();
        [marks.l1, marks.l2, 0, marks.sw1, marks.sw2, 0]
    }

    // The object fault that the cause carries, with the text fault in it.
    pub fn carried_fault(self) -> Option<ObjectFault>
        ensures { result ≡ carried_fault self }
    {
        match self {
            Cause::Faulty(fault) => Some(fault),
            _ => None,
        }
    }
}

impl From<ObjectFault> for Cause {
    ghost from_gives = { λ e r. r ≡ Faulty e };

    fn from(e: ObjectFault) -> Cause {
        Cause::Faulty(e)
    }
}

impl From<AflFault> for Cause {
    ghost from_gives = { λ e r. r ≡ BadFileLocator };

    fn from(e: AflFault) -> Cause {
        Self::BadFileLocator
    }
}

impl From<WrongCryptogram> for Cause {
    ghost from_gives = { λ e r. r ≡ BadCryptogram };

    fn from(e: WrongCryptogram) -> Cause {
        Self::BadCryptogram
    }
}

impl From<CommandFault> for Cause {
    ghost from_gives = { λ e r. r ≡ list_cause e };

    fn from(e: CommandFault) -> Cause {
        match e {
            CommandFault::DefaultList => Cause::BadDefaultList,
            CommandFault::List | CommandFault::ShortBuffer => Cause::BadList,
        }
    }
}

// A text of the card's is not taken. The work list of a run has at least 64 places; a shorter one stops it.
impl From<TakeRefusal> for Cause {
    ghost from_gives = { λ e r. r ≡ take_cause e };

    fn from(e: TakeRefusal) -> Cause {
        match e {
            TakeRefusal::Fault(fault) => Cause::Faulty(fault),
            TakeRefusal::Share => Cause::OverCardShare,
            TakeRefusal::ListShort => Cause::Stopped,
        }
    }
}

// The fault of a run: its cause, and the phase and the record that were awaited. The record is zeros in other phases
// than that of a record.
#[derive(Clone, Copy, PartialEq, Eq, Debug)]
pub struct RunFault {
    pub phase: PhaseKind,
    pub awaited: Record,
    pub cause: Cause,
}
