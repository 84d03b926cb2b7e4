// Reads a text: its primitive objects, in order.
ghost use Rattle.std.specs.Prelude.{◌≡◌, ◌-◌, ◌^◌, ◌<◌, ◌≤◌, length, IfOk, OnOk};
ghost use Rattle.keyed.specs.Elements.{elements, memory};
ghost use Rattle.tlv.specs.declared.text.ReadRefusal.TheVariants.{Fault};
ghost use Rattle.tlv.specs.Series.{series, read_object, meaning};
ghost use Rattle.tlv.specs.Told.{meant, inside_end, told, counted, answered, answer_to};
ghost use Rattle.tlv.specs.Laws.{Exact};
ghost use Rattle.tlv.specs.Rising.{first_place, last_place, Ordered, Before};

use super::ReadRefusal;
use crate::fault::{FaultKind, TextFault};
use crate::place::Place;
use crate::token::{Token, next_token};
use keyed::list::{KeyedList, NotAdded};

// The most primitive objects of a text, and the depth of its innermost objects.
pub const MAX_OBJECTS: usize = 64;

pub const MAX_DEPTH: u8 = 5;

impl From<TextFault> for ReadRefusal {
    ghost from_gives = { λ e r. r ≡ Fault e };

    fn from(e: TextFault) -> ReadRefusal {
        ReadRefusal::Fault(e)
    }
}

// Reads a series at `depth` that ends just before the place `end`: the places of its primitive objects are added.
#[cycle(read_object_read_series)]
fn read_series(
    text: &[u8],
    end: usize,
    depth: u8,
    list: &mut KeyedList<'_, Place>,
) -> Result<(), TextFault>
    requires ends { length text.now ≤ end }
    requires deep { depth ≤ 6 }
    requires room { length (memory list.old) ≡ 64 }
    requires rising { Before (end - length text.now) (elements list.old) }
    ensures read { told result (elements list.new) ≡ series depth end text.now (elements list.old) }
    ensures rising { OnOk result (Before end (elements list.new)) }
    ensures room { length (memory list.new) ≡ 64 }
    ensures named { list.new.items.ghost_name ≡ list.old.items.ghost_name }
{
    let mut rest = text;
    loop {
        let (token, after) = next_token(rest, end)?;
        if let Token::End = token {
            return Ok(());
        }
        read_object(token, depth, list)?;
        rest = after;
    }
}

// Reads one object at `depth`: a primitive one is added, and a constructed one is read as the series inside it.
#[cycle(read_object_read_series)]
fn read_object(token: Token, depth: u8, list: &mut KeyedList<'_, Place>) -> Result<(), TextFault>
    requires ends { inside_end (meant token) < 2 ^ 64 }
    requires ordered { Ordered (meant token) }
    requires deep { depth ≤ 6 }
    requires room { length (memory list.old) ≡ 64 }
    requires rising { Before (first_place (meant token)) (elements list.old) }
    ensures read { told result (elements list.new) ≡ read_object series depth (elements list.old) (meant token.entry) }
    ensures rising { OnOk result (Before (last_place (meant token.entry)) (elements list.new)) }
    ensures room { length (memory list.new) ≡ 64 }
    ensures named { list.new.items.ghost_name ≡ list.old.items.ghost_name }
{
    match token {
        Token::End => Ok(()),
        Token::Primitive { at, .. } | Token::Constructed { at, .. } if depth > MAX_DEPTH => {
            Err(TextFault {
                kind: FaultKind::TooDeep,
                at,
            })
        }
        Token::Primitive {
            tag,
            at,
            start,
            value,
        } => {
            match list.add(Place {
                tag,
                at,
                start,
                len: value.len(),
            }) {
                Ok(()) => Ok(()),
                Err(NotAdded::Full) => Err(TextFault {
                    kind: FaultKind::TooMany,
                    at,
                }),
                // No object before this one begins at its place.
                Err(NotAdded::AlreadyThere) => unreachable(),
            }
        }
        Token::Constructed { start, inside, .. } => {
            read_series(inside, start + inside.len(), depth + 1, list)
        }
    }
}

// The places of a text's primitive objects go to the front of a memory of 64 places; how many there are.
fn read_places(text: &[u8], memory: &mut [Place]) -> Result<usize, TextFault>
    requires { length memory.old ≡ 64 }
    ensures read { counted result memory.new ≡ meaning text.now }
    ensures within { IfOk result (λ n. n ≤ 64) }
{
    let mut list = KeyedList::new(memory);
    read_series(text, text.len(), 1, &mut list)?;
    Ok(list.len())
}

// The same for a longer memory, of which only the first 64 places serve.
fn read_front(text: &[u8], list: &mut [Place]) -> Result<usize, TextFault>
    requires { 64 ≤ length list.old }
    ensures read { counted result list.new ≡ meaning text.now }
    ensures within { IfOk result (λ n. n ≤ 64) }
    ensures exact { Exact text.now (meaning text.now) }
{
    read_places(text, &mut list[0..MAX_OBJECTS])
}

// The places of a text's primitive objects go to the front of the work list, in order; how many there are.
// What else the work list holds afterwards is left free. The clause `exact` ties `meaning`, by which the answer is
// told, to what a text is: sound, complete, and the one reading, or else the first fault.
pub fn read_text(text: &[u8], list: &mut [Place]) -> Result<usize, ReadRefusal>
    ensures read { answered result list.new ≡ answer_to (length list.old) text.now }
    ensures within { IfOk result (λ n. n ≤ 64) }
    ensures exact { 64 ≤ length list.old → Exact text.now (meaning text.now) }
{
    if list.len() < MAX_OBJECTS {
        return Err(ReadRefusal::ListShort);
    }
    Ok(read_front(text, list)?)
}
