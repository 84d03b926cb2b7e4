// Why a call is refused.
ghost use Rattle.std.specs.Prelude.{◌≡◌};
ghost use Rattle.run.specs.declared.refusal.Refusal.TheVariants.{BadText};
ghost use Rattle.run.specs.Numbers.{refusal_told, take_refused, store_refused};

use judge::fault::ObjectFault;
use keeping::refusal::{StoreRefusal, TakeRefusal};

#[derive(Clone, Copy, PartialEq, Eq, Debug)]
pub enum Refusal {
    // The reader is not open.
    NotOpen,
    // At opening: the reader is open.
    AlreadyOpen,
    // The buffer or the work list is too short.
    Short,
    // The store holds objects.
    HoldsObjects,
    // The store is too small for the shares.
    StoreSmall,
    // The text, or an object of it, has that fault.
    BadText(ObjectFault),
    // The writer's values together would pass its share.
    OverShare,
    // A run has begun.
    Begun,
    // The object with that tag is needed, and has no value.
    Needed(u32),
    // No command waits for its answer.
    NoCommand,
    // The code of the link fault is not 1, 2 or 3.
    LinkCode,
    // The tag is not held.
    TagNotHeld,
    // There is no outcome.
    NoOutcome,
    // There is no Data Record, as the application was ended.
    NoDataRecord,
}

// A refusal by its number, and the kind, the place and the tag that some carry, zeros in others.
#[derive(Clone, Copy, PartialEq, Eq, Debug)]
pub struct Told {
    pub number: u8,
    pub kind: u8,
    pub place: usize,
    pub tag: u32,
}

fn numbered(number: u8) -> Told
    ensures { result ≡ Rattle.run.specs.Numbers.told number 0 0 0 }
{
    Told {
        number,
        kind: 0,
        place: 0,
        tag: 0,
    }
}

impl Refusal {
    // The refusal by its numbers.
    pub fn numbers(self) -> Told
        ensures { result ≡ refusal_told self }
    {
        match self {
            Refusal::NotOpen => numbered(1),
            Refusal::AlreadyOpen => numbered(1),
            Refusal::Short => numbered(2),
            Refusal::HoldsObjects => numbered(3),
            Refusal::StoreSmall => numbered(4),
            Refusal::BadText(ObjectFault::Text(fault)) => Told {
                number: 5,
                kind: u8::from(fault.kind),
                place: fault.at,
                tag: 0,
            },
            Refusal::BadText(ObjectFault::Object { kind, at, tag }) => Told {
                number: 6,
                kind: u8::from(kind),
                place: at,
                tag,
            },
            Refusal::OverShare => numbered(7),
            Refusal::Begun => numbered(8),
            Refusal::Needed(tag) => Told {
                number: 9,
                kind: 0,
                place: 0,
                tag,
            },
            Refusal::NoCommand => numbered(10),
            Refusal::LinkCode => numbered(11),
            Refusal::TagNotHeld => numbered(12),
            Refusal::NoOutcome => numbered(13),
            Refusal::NoDataRecord => numbered(14),
        }
    }
}

impl From<ObjectFault> for Refusal {
    ghost from_gives = { λ e r. r ≡ BadText e };

    fn from(e: ObjectFault) -> Refusal {
        Refusal::BadText(e)
    }
}

impl From<TakeRefusal> for Refusal {
    ghost from_gives = { λ e r. r ≡ take_refused e };

    fn from(e: TakeRefusal) -> Refusal {
        match e {
            TakeRefusal::ListShort => Refusal::Short,
            TakeRefusal::Fault(fault) => Refusal::from(fault),
            TakeRefusal::Share => Refusal::OverShare,
        }
    }
}

impl From<StoreRefusal> for Refusal {
    ghost from_gives = { λ e r. r ≡ store_refused e };

    fn from(e: StoreRefusal) -> Refusal {
        match e {
            StoreRefusal::HoldsObjects => Refusal::HoldsObjects,
            StoreRefusal::TooSmall => Refusal::StoreSmall,
        }
    }
}
