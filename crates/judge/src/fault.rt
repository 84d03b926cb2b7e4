// What can be wrong with an object of a text.
ghost use Rattle.std.specs.Prelude.{◌≡◌};
ghost use Rattle.judge.specs.declared.fault.ObjectFault.TheVariants.{Text};
ghost use Rattle.judge.specs.declared.fault.JudgeRefusal.TheVariants.{Fault};
ghost use Rattle.judge.specs.Faults.{fault_number, refused_as};

use tlv::fault::TextFault;
use tlv::text::ReadRefusal;

// The rules that an object can break, in the order in which they are looked at.
#[derive(Clone, Copy, PartialEq, Eq, Debug)]
pub enum ObjectFaultKind {
    // The dictionary does not have the tag, or the object is constructed.
    UnknownTag = 1,
    // The tag is another writer's.
    OtherWriter = 2,
    // The value has too few or too many bytes.
    BadLength = 3,
    // The value lacks the digits that its format asks for.
    BadDigits = 4,
    // The tag stands in this text before.
    TagTwice = 5,
    // A card's object that is held with a value.
    HeldWithValue = 6,
    // An object that the terminal writes before begin only, after it.
    AfterBegin = 7,
}

// The number by which the fault is known.
impl From<ObjectFaultKind> for u8 {
    ghost from_gives = { λ kind n. n ≡ fault_number kind };

    fn from(kind: ObjectFaultKind) -> u8 {
        kind as u8
    }
}

// What is wrong with a text: its text fault, whole, or the fault of an object with its place and its tag.
#[derive(Clone, Copy, PartialEq, Eq, Debug)]
pub enum ObjectFault {
    Text(TextFault),
    Object {
        kind: ObjectFaultKind,
        at: usize,
        tag: u32,
    },
}

impl From<TextFault> for ObjectFault {
    ghost from_gives = { λ e r. r ≡ Text e };

    fn from(e: TextFault) -> ObjectFault {
        ObjectFault::Text(e)
    }
}

// Why a text is not accepted.
#[derive(Clone, Copy, PartialEq, Eq, Debug)]
pub enum JudgeRefusal {
    // The work list has fewer than 64 places.
    ListShort,
    // The text, or an object of it, has that fault.
    Fault(ObjectFault),
}

impl From<ObjectFault> for JudgeRefusal {
    ghost from_gives = { λ e r. r ≡ Fault e };

    fn from(e: ObjectFault) -> JudgeRefusal {
        JudgeRefusal::Fault(e)
    }
}

impl From<ReadRefusal> for JudgeRefusal {
    ghost from_gives = { λ e r. r ≡ refused_as e };

    fn from(e: ReadRefusal) -> JudgeRefusal {
        match e {
            ReadRefusal::ListShort => JudgeRefusal::ListShort,
            ReadRefusal::Fault(fault) => JudgeRefusal::Fault(ObjectFault::from(fault)),
        }
    }
}
