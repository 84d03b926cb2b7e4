// The entries of a list, and how many bytes they ask for.
ghost use Rattle.std.specs.Prelude.{◌≡◌, ◌+◌, ◌<◌, ◌≤◌, MatchOption};
ghost use Rattle.std.specs.Option.{option_map};
ghost use Rattle.dol.specs.Dol.{entries, size_of};
ghost use Rattle.dol.specs.Laws.{Lawful};
ghost use Rattle.dol.specs.Steps.{seen, front, Planned};

use tlv::token::read_tag;

// A list that is cut short, has a third tag byte with bit 8 set, or asks for too much data.
#[derive(Clone, Copy, PartialEq, Eq, Debug)]
pub struct DolFault;

// The first entry of a list, and the bytes after it.
#[derive(Clone, Copy, PartialEq, Eq, Debug)]
pub(crate) struct Head<'a> {
    pub(crate) tag: u32,
    pub(crate) size: u8,
    pub(crate) rest: &'a [u8],
}

// The first entry, whose tag stands as an object's does; none where the list is empty or the entry is faulty.
pub(crate) fn first_entry(dol: &[u8]) -> Option<Head<'_>>
    ensures { option_map seen result ≡ front dol.now }
{
    let (tag, bytes) = read_tag(dol).ok()?;
    let (size, rest) = bytes.split_first()?;
    Some(Head {
        tag,
        size: *size,
        rest,
    })
}

// The number of bytes with those of one entry more, unless that passes the limit.
fn with_entry(size: usize, entry: u8, limit: usize) -> Option<usize>
    ensures { MatchOption result (limit < size + entry) (λ n. (n ≡ size + entry) × (n ≤ limit)) }
{
    size.checked_add(usize::from(entry)).filter(|n| *n <= limit)
}

// How many bytes a list asks for, which may be at most `limit`.
pub fn dol_size(dol: &[u8], limit: usize) -> Result<usize, DolFault>
    ensures value { result ≡ size_of limit (entries dol.now) }
    ensures plan { Planned limit dol.now result }
    ensures law { Lawful dol.now }
{
    let mut rest = dol;
    let mut size = 0;
    while !rest.is_empty() {
        let head = first_entry(rest).ok_or(DolFault)?;
        size = with_entry(size, head.size, limit).ok_or(DolFault)?;
        rest = head.rest;
    }
    Ok(size)
}
