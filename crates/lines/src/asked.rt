// What the words of a line ask for; none of a line that is not understood.
ghost use Rattle.std.specs.Prelude.{◌≡◌, true, [], ◌∷◌, Some, IfSome, IfOk, codes};
ghost use Rattle.lines.specs.Numbers.{number_in};
ghost use Rattle.lines.specs.Asked.{Asks, Sizes};

use crate::line::{Kind, Line, Make};
use crate::numbers::{byte_number, is_decimal, number};
use crate::words::{byte_of, bytes_of, exactly, kind_of, tag_of};
use keeping::shares::Shares;
use std::alloc::{AllocError, Global};

// A line of one word.
pub fn of_one(word: &str) -> Option<Line>
    ensures { IfSome result (Asks (word.now ∷ [])) }
{
    match word {
        "limits" => Some(Line::Limits),
        "held" => Some(Line::Held),
        "gpo" => Some(Line::Options),
        "stop" => Some(Line::Stop),
        "clear" => Some(Line::Clear),
        "outcome" => Some(Line::Outcome),
        "state" => Some(Line::State),
        "wanted" => Some(Line::Wanted),
        "record" => Some(Line::Record),
        _ => None,
    }
}

// A line of two words.
pub fn of_two(heap: Global, name: &str, word: &str) -> Result<Option<Line>, AllocError>
    ensures { IfOk result (λ o. IfSome o (Asks (name.now ∷ word.now ∷ []))) }
{
    match name {
        "generate" => Ok(kind_of(word).map(Line::Generate)),
        "fault" => Ok(byte_number(word).map(Line::Fault)),
        "drop" => Ok(tag_of(heap, word)?.map(Line::Drop)),
        "length" => Ok(tag_of(heap, word)?.map(Line::Length)),
        "object" => Ok(tag_of(heap, word)?.map(Line::Object)),
        "afl" => Ok(bytes_of(heap, word)?.map(Line::Afl)),
        "write" => Ok(bytes_of(heap, word)?.map(Line::Write)),
        "begin" => Ok(bytes_of(heap, word)?.map(Line::Begin)),
        "answer" => Ok(bytes_of(heap, word)?.map(Line::Answer)),
        _ => Ok(None),
    }
}

// A line of three words. Bytes are read only where the words before them are understood, by `let .. else`: an `Option` inside
// a `Result` that allocates has no `?` of its own.
pub fn of_three(
    heap: Global,
    name: &str,
    first: &str,
    second: &str,
) -> Result<Option<Line>, AllocError>
    ensures { IfOk result (λ o. IfSome o (Asks (name.now ∷ first.now ∷ second.now ∷ []))) }
{
    match name {
        "put" => {
            let Some(tag) = tag_of(heap, first)? else {
                return Ok(None);
            };
            Ok(bytes_of(heap, second)?.map(|value| Line::Put(tag, value)))
        }
        "copy" => Ok(
            tag_of(heap, first)?
                .zip(number(second))
                .map(|(tag, n)| Line::Copy(tag, n)),
        ),
        "lend" => Ok(
            number(first)
                .zip(number(second))
                .map(|(buffer, list)| Line::Lend(buffer, list)),
        ),
        "dol" => Ok(
            bytes_of(heap, first)?
                .zip(number(second))
                .map(|(dol, most)| Line::Dol(dol, most)),
        ),
        "tvr" if is_decimal(first) && is_decimal(second) => {
            let Some(amount) = exactly(heap, first, 6)? else {
                return Ok(None);
            };
            Ok(exactly(heap, second, 6)?.map(|floor| Line::Verify(amount, floor)))
        }
        "given" => {
            let Some(kind) = kind_of(first) else {
                return Ok(None);
            };
            Ok(byte_of(heap, second)?.map(|byte| Line::Given(kind, byte)))
        }
        _ => Ok(None),
    }
}

// The make that three words name.
fn make_of(make: &str, first: &str, second: &str) -> Option<Kind>
    ensures { IfSome result (Sizes (make.now ∷ first.now ∷ second.now ∷ []) 0) }
{
    let first = number(first)?;
    let second = number(second)?;
    match make {
        "directory" => Some(Kind::Directory {
            entries: first,
            bytes: second,
        }),
        "strip" => Some(Kind::Strip {
            objects: first,
            length: second,
        }),
        _ => None,
    }
}

// A line of four words: a store.
pub fn of_four(name: &str, make: &str, first: &str, second: &str) -> Option<Line>
    ensures { IfSome result (Asks (name.now ∷ make.now ∷ first.now ∷ second.now ∷ [])) }
{
    match name {
        "store" => Some(Line::Store(Make {
            kind: make_of(make, first, second)?,
            masked: false,
        })),
        _ => None,
    }
}

// A masked store.
fn masked_of(mask: &str, make: &str, first: &str, second: &str) -> Option<Make>
    ensures { IfSome result (λ m. (m.masked ≡ true) × (mask.now ≡ codes "masked") × Sizes (make.now ∷ first.now ∷ second.now ∷ []) 0 m.kind) }
{
    match mask {
        "masked" => Some(Make {
            kind: make_of(make, first, second)?,
            masked: true,
        }),
        _ => None,
    }
}

// The shares of the configuration, the terminal and the card.
fn shares_of(configuration: &str, terminal: &str, card: &str) -> Option<Shares>
    ensures { IfSome result (λ s. (Some s.configuration ≡ number_in configuration.now) × (Some s.terminal ≡ number_in terminal.now) × (Some s.card ≡ number_in card.now)) }
{
    Some(Shares {
        configuration: number(configuration)?,
        terminal: number(terminal)?,
        card: number(card)?,
    })
}

// A line of five words. Bytes are read only where the words before them are understood.
pub fn of_five(
    heap: Global,
    name: &str,
    first: &str,
    second: &str,
    third: &str,
    fourth: &str,
) -> Result<Option<Line>, AllocError>
    ensures { IfOk result (λ o. IfSome o (Asks (name.now ∷ first.now ∷ second.now ∷ third.now ∷ fourth.now ∷ []))) }
{
    match name {
        "store" => Ok(masked_of(first, second, third, fourth).map(Line::Store)),
        "open" => {
            let Some(shares) = shares_of(first, second, third) else {
                return Ok(None);
            };
            Ok(bytes_of(heap, fourth)?.map(|text| Line::Open(shares, text)))
        }
        // TVR, TAC Denial, TAC Online and Terminal Type.
        "decide" => {
            let Some(tvr) = exactly(heap, first, 5)? else {
                return Ok(None);
            };
            let Some(denial) = exactly(heap, second, 5)? else {
                return Ok(None);
            };
            let Some(online) = exactly(heap, third, 5)? else {
                return Ok(None);
            };
            Ok(byte_of(heap, fourth)?.map(|terminal| Line::Decide(tvr, denial, online, terminal)))
        }
        _ => Ok(None),
    }
}
