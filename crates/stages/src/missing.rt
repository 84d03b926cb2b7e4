// Values that must be there.
ghost use Rattle.std.specs.Prelude.{◌≡◌};
ghost use Rattle.std.specs.Result.{result_err};
ghost use Rattle.store.specs.Map.{empty};
ghost use Rattle.judge.specs.Rules.{has_value};
ghost use Rattle.keeping.specs.Keeping.{stored};
ghost use Rattle.run.specs.Run.{first_missing, missing};

use crate::brought::brought;
use judge::held::has_value;
use keyed::tag::Tag;
use run::fault::Cause;
use store::reading::ReadStore;
use tlv::place::Place;

// Whether the text brings a value of the tag.
fn is_brought(text: &[u8], places: &[Place], tag: u32) -> bool
    ensures { result ≡ has_value (stored text.now places.now empty tag) }
{
    !brought(text, places, tag).is_empty()
}

// Whether the store holds a value of the tag.
fn is_held<S: ReadStore>(store: &S, tag: u32) -> bool
    ensures { result ≡ has_value (S.ReadStore.held store.now tag) }
{
    Tag::new(tag).is_some_and(|tag| has_value(store, tag))
}

// The first of these tags of which the text brings no value.
pub(crate) fn first_not_brought(text: &[u8], places: &[Place], tags: &[u32]) -> Option<u32>
    ensures { result ≡ first_missing tags.now (stored text.now places.now empty) }
{
    tags.iter()
        .copied()
        .find(|tag| !is_brought(text, places, *tag))
}

// The first of these tags that has no value in the store; none where each has one.
pub fn first_missing<S: ReadStore>(store: &S, tags: &[u32]) -> Option<u32>
    ensures { result ≡ first_missing tags.now (S.ReadStore.held store.now) }
{
    tags.iter().copied().find(|tag| !is_held(store, *tag))
}

// A tag that has no value is a cause. A `match`, since the value there is the error.
pub(crate) fn none_missing(tag: Option<u32>) -> Result<(), Cause>
    ensures { result_err result ≡ missing tag }
{
    match tag {
        Some(tag) => Err(Cause::Missing(tag)),
        None => Ok(()),
    }
}
