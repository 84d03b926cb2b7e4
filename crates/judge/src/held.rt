// What is held.
ghost use Rattle.std.specs.Prelude.{◌≡◌};
ghost use Rattle.judge.specs.Rules.{has_value};

use keyed::tag::Tag;
use store::reading::ReadStore;

// Whether the tag is held with a value, which is not empty.
pub fn has_value<S: ReadStore>(store: &S, tag: Tag) -> bool
    ensures { result ≡ has_value (S.ReadStore.held store.now tag.value) }
{
    store.length_of(tag).is_some_and(|n| n > 0)
}
