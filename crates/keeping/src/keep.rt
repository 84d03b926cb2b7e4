// Storing a text that was accepted.
ghost use Rattle.std.specs.Prelude.{◌≡◌, []};
ghost use Rattle.dictionary.specs.Dictionary.{entry_of};
ghost use Rattle.judge.specs.declared.kind.TextKind.TheVariants.{CardAnswer};
ghost use Rattle.judge.specs.Accepted.{AllFit};
ghost use Rattle.keeping.specs.Keeping.{stored, stored_text, stored_one, removed, removed_one};
ghost use Rattle.keeping.specs.Own.{SameOwn};
ghost use Rattle.keeping.specs.Replacing.{Replaced};
ghost use Rattle.keeping.specs.Room.{Roomy};
ghost use Rattle.keeping.specs.Steps.{FreshBy, Holds, Puttable, Weighed};

use crate::shares::Shares;
use dictionary::find::Known;
use judge::kind::TextKind;
use store::writing::WriteStore;
use tlv::place::Place;

// Removes an object's tag, if it is known.
fn remove_one<S: WriteStore>(store: &mut S, place: &Place)
    ensures after { S.ReadStore.held store.new ≡ removed_one (S.ReadStore.held store.old) place.now }
    ensures limits { (S.ReadStore.objects store.new ≡ S.ReadStore.objects store.old) × (S.ReadStore.bytes store.new ≡ S.ReadStore.bytes store.old) }
{
    if let Some(known) = Known::look_up(place.tag) {
        store.remove(known.tag);
    }
}

// Removes the known tags of a text.
fn remove_places<S: WriteStore>(store: &mut S, places: &[Place])
    ensures after { S.ReadStore.held store.new ≡ removed places.now (S.ReadStore.held store.old) }
    ensures limits { (S.ReadStore.objects store.new ≡ S.ReadStore.objects store.old) × (S.ReadStore.bytes store.new ≡ S.ReadStore.bytes store.old) }
{
    for place in places {
        remove_one(store, place);
    }
}

// Puts an object, if its tag is known. Where the store can hold it, it is not refused.
fn put_one<S: WriteStore>(store: &mut S, text: &[u8], place: &Place)
    ensures after { FreshBy text.now (S.ReadStore.held store.old) place.now (entry_of place.now.tag) → Holds (S.ReadStore.objects store.old) (S.ReadStore.bytes store.old) (stored_one text.now (S.ReadStore.held store.old) place.now) → S.ReadStore.held store.new ≡ stored_one text.now (S.ReadStore.held store.old) place.now }
    ensures limits { (S.ReadStore.objects store.new ≡ S.ReadStore.objects store.old) × (S.ReadStore.bytes store.new ≡ S.ReadStore.bytes store.old) }
{
    if let Some(known) = Known::look_up(place.tag) {
        let value = place.value_in(text);
        let _ = store.put(known.tag, value);
    }
}

// Puts the known objects of a text. Where their tags are not held and the store can hold them all, none is refused.
fn put_places<S: WriteStore>(store: &mut S, text: &[u8], places: &[Place])
    ensures after { Puttable (S.ReadStore.objects store.old) (S.ReadStore.bytes store.old) text.now places.now (S.ReadStore.held store.old) → S.ReadStore.held store.new ≡ stored text.now places.now (S.ReadStore.held store.old) }
    ensures limits { (S.ReadStore.objects store.new ≡ S.ReadStore.objects store.old) × (S.ReadStore.bytes store.new ≡ S.ReadStore.bytes store.old) }
{
    for place in places {
        put_one(store, text, place);
    }
}

// Stores a text that was accepted. Its tags are removed first: so no put is refused, in whatever order lengths grow
// and shrink.
fn store_places<S: WriteStore>(store: &mut S, kind: TextKind, text: &[u8], places: &[Place])
    requires { AllFit kind (S.ReadStore.held store.old) text.now [] places.now }
    ensures after { Holds (S.ReadStore.objects store.old) (S.ReadStore.bytes store.old) (stored text.now places.now (S.ReadStore.held store.old)) → S.ReadStore.held store.new ≡ stored text.now places.now (S.ReadStore.held store.old) }
    ensures limits { (S.ReadStore.objects store.new ≡ S.ReadStore.objects store.old) × (S.ReadStore.bytes store.new ≡ S.ReadStore.bytes store.old) }
{
    remove_places(store, places);
    put_places(store, text, places);
}

// Stores a text that was weighed. From opening on the store has room for it.
pub(crate) fn keep_text<S: WriteStore>(
    store: &mut S,
    shares: &Shares,
    kind: TextKind,
    text: &[u8],
    places: &[Place],
)
    requires { Weighed shares.now kind (S.ReadStore.held store.old) text.now places.now }
    ensures after { Roomy shares.now (S.ReadStore.objects store.old) (S.ReadStore.bytes store.old) (S.ReadStore.held store.old) → S.ReadStore.held store.new ≡ stored_text text.now (S.ReadStore.held store.old) }
    ensures card { kind ≡ CardAnswer → Roomy shares.now (S.ReadStore.objects store.old) (S.ReadStore.bytes store.old) (S.ReadStore.held store.old) → SameOwn (S.ReadStore.held store.old) (S.ReadStore.held store.new) }
    ensures roomy { Roomy shares.now (S.ReadStore.objects store.old) (S.ReadStore.bytes store.old) (S.ReadStore.held store.old) → Roomy shares.now (S.ReadStore.objects store.new) (S.ReadStore.bytes store.new) (S.ReadStore.held store.new) }
    ensures replaced { Roomy shares.now (S.ReadStore.objects store.old) (S.ReadStore.bytes store.old) (S.ReadStore.held store.old) → Replaced text.now (S.ReadStore.held store.old) (S.ReadStore.held store.new) }
    ensures limits { (S.ReadStore.objects store.new ≡ S.ReadStore.objects store.old) × (S.ReadStore.bytes store.new ≡ S.ReadStore.bytes store.old) }
{
    store_places(store, kind, text, places);
}
