// The bytes of an entry: a tag in three bytes, a length in two, and the value.
ghost use Rattle.std.specs.Prelude.{◌≡◌, ◌+◌, ◌<◌, ◌≤◌, ◌++◌, length, take, drop, MatchOption};
ghost use Rattle.strip.specs.Strip.{entry_bytes, front_tag, front_length};

use keyed::tag::Tag;

// What an entry begins with: its tag, the length of its value, and the bytes from the value on.
#[derive(Clone, Copy, PartialEq, Eq, Debug)]
pub(crate) struct Head<'a> {
    pub(crate) tag: u32,
    pub(crate) len: usize,
    pub(crate) rest: &'a [u8],
}

// What the entry at the front of a text begins with.
pub(crate) fn first_head(text: &[u8]) -> Option<Head<'_>>
    ensures { MatchOption result (length text.now < 5) (λ h. (5 ≤ length text.now) × (h.tag ≡ front_tag text.now) × (h.len ≡ front_length text.now) × (h.rest.now ≡ drop 5 text.now)) }
{
    let [t1, t2, t3, n1, n2, rest @ ..] = text else {
        return None;
    };
    Some(Head {
        tag: u32::from_be_bytes([0, *t1, *t2, *t3]),
        len: u16::from_be_bytes([*n1, *n2]) as usize,
        rest,
    })
}

// Writes an entry.
pub(crate) fn write_entry(area: &mut [u8], at: usize, tag: Tag, value: &[u8])
    requires { (length value.now ≤ 255) × (at + 5 + length value.now ≤ length area.old) }
    ensures { area.new ≡ take at area.old ++ (entry_bytes tag.value value.now ++ drop (at + 5 + length value.now) area.old) }
{
    let n = value.len();
    let [_, t1, t2, t3] = tag.number().to_be_bytes();
    let [n1, n2] = (n as u16).to_be_bytes();
    area[at..at + 5].copy_from_slice(&[t1, t2, t3, n1, n2]);
    area[at + 5..at + 5 + n].copy_from_slice(value);
}
