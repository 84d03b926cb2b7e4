// Where an object stands in a text.
ghost use Rattle.std.specs.Prelude.{◌≡◌, take, drop, nat_eq};
ghost use Rattle.tlv.specs.Values.{value_at};
ghost use Rattle.std.proofs.Common.{rules};

use keyed::key::Keyed;

// A primitive object of a text: its tag, the place of its first byte, and its value's place and length.
#[derive(Clone, Copy, PartialEq, Eq, Debug, Default)]
pub struct Place {
    pub tag: u32,
    pub at: usize,
    pub start: usize,
    pub len: usize,
}

// An object's key is the place of its first byte.
impl Keyed for Place {
    type Key = usize;

    ghost key = { λ p. p.at };

    ghost same = { nat_eq };

    ghost reflexive = { Prim.search rules };

    ghost symmetric = { Prim.search rules };

    ghost transitive = { Prim.search rules };

    fn same_key(&self, other: &Place) -> bool {
        self.at == other.at
    }
}

// The bytes from `start` on, at most `len` of them.
fn part(text: &[u8], start: usize, len: usize) -> &[u8]
    ensures { result.now ≡ take len (drop start text.now) }
{
    if start >= text.len() {
        return &text[0..0];
    }
    let behind = &text[start..];
    let n = len.min(behind.len());
    &behind[0..n]
}

impl Place {
    // The object's value, in the text where it was found.
    pub fn value_in<'a>(&self, text: &'a [u8]) -> &'a [u8]
        ensures { result.now ≡ value_at text.now self.now }
    {
        part(text, self.start, self.len)
    }
}
