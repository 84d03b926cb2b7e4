// How many value bytes a writer would have after a text.
ghost use Rattle.std.specs.Prelude.{◌≡◌, ◌≤◌, [], Some};
ghost use Rattle.dictionary.specs.Dictionary.{entry_of};
ghost use Rattle.store.specs.Map.{size};
ghost use Rattle.judge.specs.Accepted.{AllFit};
ghost use Rattle.keeping.specs.Keeping.{stored};
ghost use Rattle.keeping.specs.Shares.{part_of, writer_total};
ghost use Rattle.keeping.specs.Steps.{length_after};

use dictionary::entry::Entry;
use dictionary::table::all;
use judge::kind::TextKind;
use keyed::tag::Tag;
use store::reading::ReadStore;
use tlv::place::Place;

// How many bytes are held at the tag.
fn length_held<S: ReadStore>(store: &S, tag: u32) -> usize
    ensures { result ≡ size (S.ReadStore.held store.now tag) }
{
    Tag::new(tag)
        .and_then(|tag| store.length_of(tag))
        .unwrap_or(0)
}

// The length at the tag after those objects of the text, `held` before.
fn length_after(text: &[u8], places: &[Place], tag: u32, held: usize) -> usize
    ensures { result ≡ length_after text.now places.now tag held }
{
    let mut n = held;
    for p in places {
        let len = p.value_in(text).len();
        n = if p.tag == tag { len } else { n };
    }
    n
}

// The bytes at an entry's tag after an accepted text, if such texts may have its objects.
fn part_after<S: ReadStore>(
    store: &S,
    kind: TextKind,
    text: &[u8],
    places: &[Place],
    entry: &Entry,
) -> usize
    requires fits { AllFit kind (S.ReadStore.held store.now) text.now [] places.now }
    requires listed { entry_of entry.now.tag ≡ Some entry.now }
    ensures value { result ≡ part_of kind (stored text.now places.now (S.ReadStore.held store.now)) entry.now }
    ensures small { result ≤ 255 }
{
    if !kind.writes(entry.writer) {
        return 0;
    }
    length_after(text, places, entry.tag, length_held(store, entry.tag))
}

// The bytes of all the objects that such texts may have, after an accepted text.
pub(crate) fn total_after<S: ReadStore>(
    store: &S,
    kind: TextKind,
    text: &[u8],
    places: &[Place],
) -> usize
    requires { AllFit kind (S.ReadStore.held store.now) text.now [] places.now }
    ensures { result ≡ writer_total kind (stored text.now places.now (S.ReadStore.held store.now)) }
{
    let table = all();
    let mut total = 0;
    for entry in table {
        total += part_after(store, kind, text, places, entry);
    }
    total
}
