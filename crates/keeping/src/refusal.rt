// Why a text or a store is refused.
ghost use Rattle.std.specs.Prelude.{◌≡◌};
ghost use Rattle.keeping.specs.Refusals.{refused_as};

use judge::fault::{JudgeRefusal, ObjectFault};

// Why a text is not taken.
#[derive(Clone, Copy, PartialEq, Eq, Debug)]
pub enum TakeRefusal {
    // The work list has fewer than 64 places.
    ListShort,
    // The text, or an object of it, has that fault.
    Fault(ObjectFault),
    // The writer's values together would pass its share.
    Share,
}

impl From<JudgeRefusal> for TakeRefusal {
    ghost from_gives = { λ e r. r ≡ refused_as e };

    fn from(e: JudgeRefusal) -> TakeRefusal {
        match e {
            JudgeRefusal::ListShort => TakeRefusal::ListShort,
            JudgeRefusal::Fault(fault) => TakeRefusal::Fault(fault),
        }
    }
}

// Why a store does not serve at opening.
#[derive(Clone, Copy, PartialEq, Eq, Debug)]
pub enum StoreRefusal {
    // It holds objects.
    HoldsObjects,
    // It has not the room for 64 objects, for all shares, and for the reader's own bytes.
    TooSmall,
}
