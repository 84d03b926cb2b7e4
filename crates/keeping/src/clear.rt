// Removing all but the configuration.
ghost use Rattle.std.specs.Prelude.{◌≡◌};
ghost use Rattle.dictionary.specs.Dictionary.{dictionary};
ghost use Rattle.keeping.specs.Clearing.{cleared};
ghost use Rattle.keeping.specs.Room.{Roomy};
ghost use Rattle.keeping.specs.Steps.{cleared_one};

use crate::shares::Shares;
use dictionary::entry::{Entry, Writer};
use dictionary::table::all;
use keyed::tag::Tag;
use store::writing::WriteStore;

// Removes the entry's object, unless it is the configuration's.
fn clear_entry<S: WriteStore>(store: &mut S, entry: &Entry)
    ensures after { S.ReadStore.held store.new ≡ cleared_one (S.ReadStore.held store.old) entry.now }
    ensures limits { (S.ReadStore.objects store.new ≡ S.ReadStore.objects store.old) × (S.ReadStore.bytes store.new ≡ S.ReadStore.bytes store.old) }
{
    if entry.writer == Writer::Configuration {
        return;
    }
    if let Some(tag) = Tag::new(entry.tag) {
        store.remove(tag);
    }
}

// Removes the objects of all entries of the dictionary but the configuration's.
fn clear_entries<S: WriteStore>(store: &mut S, entries: &[Entry])
    requires { entries.now ≡ dictionary }
    ensures after { S.ReadStore.held store.new ≡ cleared (S.ReadStore.held store.old) }
    ensures roomy { (s : Shares) → Roomy s (S.ReadStore.objects store.old) (S.ReadStore.bytes store.old) (S.ReadStore.held store.old) → Roomy s (S.ReadStore.objects store.new) (S.ReadStore.bytes store.new) (S.ReadStore.held store.new) }
    ensures limits { (S.ReadStore.objects store.new ≡ S.ReadStore.objects store.old) × (S.ReadStore.bytes store.new ≡ S.ReadStore.bytes store.old) }
{
    for entry in entries {
        clear_entry(store, entry);
    }
}

// Removes the terminal's, the card's and the reader's objects; the configuration's stay.
pub fn remove_run<S: WriteStore>(store: &mut S)
    ensures after { S.ReadStore.held store.new ≡ cleared (S.ReadStore.held store.old) }
    ensures roomy { (s : Shares) → Roomy s (S.ReadStore.objects store.old) (S.ReadStore.bytes store.old) (S.ReadStore.held store.old) → Roomy s (S.ReadStore.objects store.new) (S.ReadStore.bytes store.new) (S.ReadStore.held store.new) }
    ensures limits { (S.ReadStore.objects store.new ≡ S.ReadStore.objects store.old) × (S.ReadStore.bytes store.new ≡ S.ReadStore.bytes store.old) }
{
    clear_entries(store, all());
}
