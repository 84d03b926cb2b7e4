// Judging a text.
ghost use Rattle.std.specs.Prelude.{◌≡◌, ◌≤◌, [], length, take, IfOk, OnOk};
ghost use Rattle.std.specs.Result.{result_err};
ghost use Rattle.tlv.specs.Series.{found, meaning};
ghost use Rattle.store.specs.Map.{Map};
ghost use Rattle.judge.specs.Objects.{plain, outermost};
ghost use Rattle.judge.specs.Rules.{named, breaks, lowest};
ghost use Rattle.judge.specs.Judge.{judged, judgement, answered};
ghost use Rattle.judge.specs.Reads.{ReadFor};
ghost use Rattle.judge.specs.Verdict.{JudgedByRules};
ghost use Rattle.judge.specs.Accepted.{AllFit};
ghost use Rattle.judge.specs.Held.{SameFor};
ghost use Rattle.judge.specs.Walk.{first_built, built_in, stands_before, unknown_at, walked};

use crate::fault::{JudgeRefusal, ObjectFault, ObjectFaultKind};
use crate::held::has_value;
use crate::kind::TextKind;
use dictionary::find::Known;
use store::reading::ReadStore;
use tlv::place::Place;
use tlv::text::read_text;
use tlv::token::{Token, next_token};

// Whether one of the objects has the tag.
fn is_named(places: &[Place], tag: u32) -> bool
    ensures { result ≡ named tag places.now }
{
    places.iter().any(|p| p.tag == tag)
}

// The first rule that a primitive object breaks, given those before it in the text, or that it breaks none.
fn keeps_rules<S: ReadStore>(
    store: &S,
    kind: TextKind,
    text: &[u8],
    earlier: &[Place],
    place: &Place,
) -> Result<(), ObjectFaultKind>
    ensures { result_err result ≡ lowest (breaks kind (S.ReadStore.held store.now) text.now earlier.now (plain place.now)) }
{
    let Some(known) = Known::look_up(place.tag) else {
        return if kind.is_own() {
            Err(ObjectFaultKind::UnknownTag)
        } else {
            Ok(())
        };
    };
    let value = place.value_in(text);
    if !kind.writes(known.entry.writer) {
        return Err(ObjectFaultKind::OtherWriter);
    }
    if !known.entry.fits_length(value.len()) {
        return Err(ObjectFaultKind::BadLength);
    }
    if !known.entry.fits_format(value) {
        return Err(ObjectFaultKind::BadDigits);
    }
    if is_named(earlier, place.tag) {
        return Err(ObjectFaultKind::TagTwice);
    }
    if !kind.is_own() && has_value(store, known.tag) {
        return Err(ObjectFaultKind::HeldWithValue);
    }
    if kind.late(known.entry.writer) {
        return Err(ObjectFaultKind::AfterBegin);
    }
    Ok(())
}

// The first constructed object of a series, outermost.
fn first_constructed(text: &[u8]) -> Option<Place>
    ensures { result ≡ first_built (outermost (length text.now) text.now) }
{
    let end = text.len();
    let mut rest = text;
    loop {
        let (token, after) = next_token(rest, end).ok()?;
        match token {
            Token::End => return None,
            Token::Constructed {
                tag,
                at,
                start,
                inside,
            } => {
                return Some(Place {
                    tag,
                    at,
                    start,
                    len: inside.len(),
                });
            }
            Token::Primitive { .. } => rest = after,
        }
    }
}

// The constructed object that counts against a text: a card's may have some.
fn constructed_in(kind: TextKind, text: &[u8]) -> Option<Place>
    ensures { result ≡ built_in kind text.now }
{
    if kind.is_own() {
        first_constructed(text)
    } else {
        None
    }
}

// Whether there is a constructed object before the place.
fn stands_before(constructed: Option<Place>, at: usize) -> bool
    ensures { result ≡ stands_before constructed at }
{
    constructed.is_some_and(|place| place.at < at)
}

// A constructed object is an unknown one.
fn unknown_at(constructed: Option<Place>) -> Result<(), ObjectFault>
    ensures { result ≡ unknown_at constructed }
{
    match constructed {
        Some(place) => Err(ObjectFault::Object {
            kind: ObjectFaultKind::UnknownTag,
            at: place.at,
            tag: place.tag,
        }),
        None => Ok(()),
    }
}

// The first fault of the primitive objects at those places, and of the constructed one, by place.
fn walk<S: ReadStore>(
    store: &S,
    kind: TextKind,
    text: &[u8],
    places: &[Place],
    constructed: Option<Place>,
) -> Result<(), ObjectFault>
    ensures { result ≡ walked kind (S.ReadStore.held store.now) text.now constructed [] places.now }
{
    for (i, place) in places.iter().enumerate() {
        if stands_before(constructed, place.at) {
            return unknown_at(constructed);
        }
        keeps_rules(store, kind, text, &places[0..i], place).map_err(|kind| {
            ObjectFault::Object {
                kind,
                at: place.at,
                tag: place.tag,
            }
        })?;
    }
    unknown_at(constructed)
}

// Judges the text whose primitive objects have these places.
fn judge_places<S: ReadStore>(
    store: &S,
    kind: TextKind,
    text: &[u8],
    places: &[Place],
) -> Result<(), ObjectFault>
    requires { meaning text.now ≡ found places.now }
    ensures answer { result ≡ judged kind (S.ReadStore.held store.now) text.now }
    ensures accepted { OnOk result (AllFit kind (S.ReadStore.held store.now) text.now [] places.now) }
{
    walk(store, kind, text, places, constructed_in(kind, text))
}

// Reads the text into the work list.
fn read_places(text: &[u8], list: &mut [Place]) -> Result<usize, JudgeRefusal>
    ensures read { ReadFor (length list.old) text.now list.new result }
    ensures rules { (k : TextKind) (m : Map) → JudgedByRules k m text.now }
    ensures held { (k : TextKind) (m n : Map) → SameFor k m n → judged k m text.now ≡ judged k n text.now }
{
    Ok(read_text(text, list)?)
}

// Judges a text of that kind: reads it into the work list, and looks at its objects, places rising, by the rules 1 to 7.
// An accepted text's places stand at the front of the work list, and their number is the answer. What else the work
// list holds afterwards is left free.
pub fn judge_text<S: ReadStore>(
    store: &S,
    kind: TextKind,
    text: &[u8],
    list: &mut [Place],
) -> Result<usize, JudgeRefusal>
    ensures answer { answered result ≡ judgement (length list.old) kind (S.ReadStore.held store.now) text.now }
    ensures within { IfOk result (λ n. n ≤ length list.new) }
    ensures places { IfOk result (λ n. (n ≤ 64) × (meaning text.now ≡ found (take n list.new))) }
    ensures accepted { IfOk result (λ n. AllFit kind (S.ReadStore.held store.now) text.now [] (take n list.new)) }
    ensures rules { JudgedByRules kind (S.ReadStore.held store.now) text.now }
    ensures held { (m n : Map) → SameFor kind m n → judged kind m text.now ≡ judged kind n text.now }
{
    let count = read_places(text, list)?;
    judge_places(store, kind, text, &list[0..count])?;
    Ok(count)
}
