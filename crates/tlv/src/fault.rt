// What can be wrong with a text.
ghost use Rattle.std.specs.Prelude.{◌≡◌};
ghost use Rattle.tlv.specs.Objects.{fault_number};

// What can be wrong with an object, in the order in which it is reported.
#[derive(Clone, Copy, PartialEq, Eq, Debug)]
pub enum FaultKind {
    // The tag is cut short.
    TagCut = 1,
    // The third byte of the tag has bit 8 set.
    TagLong = 2,
    // The length is cut short, or of another form than the two in use.
    BadLength = 3,
    // The value goes past the end of its series.
    PastEnd = 4,
    // The object stands at depth 6.
    TooDeep = 5,
    // It is the 65th primitive object.
    TooMany = 6,
}

// The number by which the fault is known.
impl From<FaultKind> for u8 {
    ghost from_gives = { λ kind n. n ≡ fault_number kind };

    fn from(kind: FaultKind) -> u8 {
        kind as u8
    }
}

// A fault, and the place of its object's first byte.
#[derive(Clone, Copy, PartialEq, Eq, Debug)]
pub struct TextFault {
    pub kind: FaultKind,
    pub at: usize,
}
