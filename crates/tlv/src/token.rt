// What stands next in a text.
ghost use Rattle.std.specs.Prelude.{◌≡◌};
ghost use Rattle.tlv.specs.Objects.{tag_at, length_at, skip, next_at};
ghost use Rattle.tlv.specs.Told.{tag_told, length_told, next_told};

use crate::fault::{FaultKind, TextFault};

// What stands next in a series: its end, a primitive object with its value, or a constructed object with its inside.
// `at` is the place of the object's first byte, and `start` that of its value's or its inside's. An enum of its own, since the
// form of the reader is decided by it: an end, a primitive and a constructed object.
#[derive(Clone, Copy, PartialEq, Eq, Debug)]
pub enum Token<'a> {
    End,
    Primitive {
        tag: u32,
        at: usize,
        start: usize,
        value: &'a [u8],
    },
    Constructed {
        tag: u32,
        at: usize,
        start: usize,
        inside: &'a [u8],
    },
}

// The tag at the front of some bytes, and what follows it.
pub fn read_tag(text: &[u8]) -> Result<(u32, &[u8]), FaultKind>
    ensures { tag_told result ≡ tag_at text.now }
{
    match text {
        [a, rest @ ..] if *a & 0x1f != 0x1f => Ok((u32::from(*a), rest)),
        [a, b, rest @ ..] if *b < 0x80 => Ok((u32::from_be_bytes([0, 0, *a, *b]), rest)),
        [a, b, c, rest @ ..] if *c < 0x80 => Ok((u32::from_be_bytes([0, *a, *b, *c]), rest)),
        [_, _, _, ..] => Err(FaultKind::TagLong),
        _ => Err(FaultKind::TagCut),
    }
}

// The length at the front of some bytes, and what follows it; none if it is cut short or of another form.
fn read_length(text: &[u8]) -> Option<(u8, &[u8])>
    ensures { length_told result ≡ length_at text.now }
{
    match text {
        [0x81, n, rest @ ..] => Some((*n, rest)),
        [n, rest @ ..] if *n < 0x80 => Some((*n, rest)),
        _ => None,
    }
}

// What is left of a series after its filler.
fn skip_filler(text: &[u8]) -> &[u8]
    ensures { result.now ≡ skip text.now }
{
    let mut rest = text;
    while let [0, after @ ..] = rest {
        rest = after;
    }
    rest
}

// What stands next in a series that ends just before the place `end`, and the bytes after it. Put into its callers' loops: with
// the closures below, the compiler no longer does so by itself.
#[inline(always)]
pub fn next_token(text: &[u8], end: usize) -> Result<(Token<'_>, &[u8]), TextFault>
    ensures { next_told result ≡ next_at end text.now }
{
    let object = skip_filler(text);
    let [first, ..] = object else {
        return Ok((Token::End, object));
    };
    let at = end.saturating_sub(object.len());
    let (tag, sized) = read_tag(object).map_err(|kind| TextFault { kind, at })?;
    let (n, body) = read_length(sized).ok_or(TextFault {
        kind: FaultKind::BadLength,
        at,
    })?;
    let n = usize::from(n);
    if body.len() < n {
        return Err(TextFault {
            kind: FaultKind::PastEnd,
            at,
        });
    }
    let start = end.saturating_sub(body.len());
    let (value, rest) = body.split_at(n);
    let token = if *first & 0x20 == 0x20 {
        Token::Constructed {
            tag,
            at,
            start,
            inside: value,
        }
    } else {
        Token::Primitive {
            tag,
            at,
            start,
            value,
        }
    };
    Ok((token, rest))
}
