// The tag of an object, as a number.
ghost use Rattle.std.specs.Prelude.{◌≡◌, ◌<◌, ◌≤◌, MatchOption, nat_eq};
ghost use Rattle.std.proofs.Common.{rules, arith};

use crate::key::Keyed;

// A tag of one to three bytes, the first byte being the highest: a number of 24 bits.
#[derive(Clone, Copy, PartialEq, Eq, Debug)]
pub struct Tag {
    value: u32,
    ghost ok: { value < 16777216 },
}

impl Tag {
    // The tag of that number, unless it has more than 24 bits.
    pub fn new(value: u32) -> Option<Tag>
        ensures { MatchOption result (16777216 ≤ value) (λ t. t.value ≡ value) }
    {
        if value < 0x100_0000 {
            Some(Tag { value })
        } else {
            None
        }
    }

    // Its number.
    pub fn number(self) -> u32
        ensures { result ≡ self.value }
    {
        self.value
    }
}

impl Keyed for Tag {
    type Key = u32;

    ghost key = { λ x. x.value };

    ghost same = { nat_eq };

    ghost reflexive = { first_of (Prim.search rules, Prim.grind (arith, Self.row.coded.inj)) };

    ghost symmetric = { first_of (Prim.search rules, Prim.grind (arith, Self.row.coded.inj)) };

    ghost transitive = { first_of (Prim.search rules, Prim.grind (arith, Self.row.coded.inj)) };

    fn same_key(&self, other: &Tag) -> bool {
        self == other
    }
}
