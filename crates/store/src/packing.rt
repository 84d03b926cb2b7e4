// Putting, for the stores that keep their objects in the caller's memory.
ghost use Rattle.std.specs.Prelude.{◌≡◌, ◌+◌, ◌<◌, ◌≤◌, not, ◌||◌, length, is_some, IfSome, Some, None, nat_lt};
ghost use Rattle.std.specs.Option.{option_map};
ghost use Rattle.store.specs.Map.{changed, count, total};
ghost use Rattle.store.specs.Answer.{passes, put_answer, put_after, count_after, total_after};

use crate::reading::ReadStore;
use crate::writing::Refused;
use keyed::tag::Tag;

// A store that takes an object out, adds one that it does not hold where it has room, and writes a value over one of the
// same length: enough to put.
pub trait Pack: ReadStore {
    // Holds the tag no longer; whether it was held.
    fn take_out(&mut self, tag: Tag) -> bool
        ensures answer { result ≡ is_some (Self.held self.old tag.value) }
        ensures after { Self.held self.new ≡ changed (Self.held self.old) tag.value None }
        ensures limits { (Self.objects self.new ≡ Self.objects self.old) × (Self.bytes self.new ≡ Self.bytes self.old) };

    // Adds an object that is not held, where there is room for it.
    fn append(&mut self, tag: Tag, value: &[u8])
        requires absent { Self.held self.old tag.value ≡ None }
        requires room { (length value.now ≤ 255) × (count (Self.held self.old) < Self.objects self.old) × (total (Self.held self.old) + length value.now ≤ Self.bytes self.old) }
        ensures after { Self.held self.new ≡ changed (Self.held self.old) tag.value (Some value.now) }
        ensures limits { (Self.objects self.new ≡ Self.objects self.old) × (Self.bytes self.new ≡ Self.bytes self.old) };

    // Writes the value over a held one of the same length; no other byte moves.
    fn overwrite(&mut self, tag: Tag, value: &[u8])
        requires { option_map length (Self.held self.old tag.value) ≡ Some (length value.now) }
        ensures after { Self.held self.new ≡ changed (Self.held self.old) tag.value (Some value.now) }
        ensures limits { (Self.objects self.new ≡ Self.objects self.old) × (Self.bytes self.new ≡ Self.bytes self.old) };
}

// How full a store is: its limits, how many objects it holds, and how many value bytes.
#[derive(Clone, Copy, PartialEq, Eq, Debug)]
struct Fill {
    objects: usize,
    bytes: usize,
    count: usize,
    total: usize,
    ghost within: { (count ≤ objects) × (total ≤ bytes) },
}

impl Fill {
    // How full that store is.
    fn of<S: ReadStore>(s: &S) -> Fill
        ensures limits { (result.objects ≡ S.ReadStore.objects s.now) × (result.bytes ≡ S.ReadStore.bytes s.now) }
        ensures holds { (result.count ≡ count (S.ReadStore.held s.now)) × (result.total ≡ total (S.ReadStore.held s.now)) }
    {
        Fill {
            objects: s.object_limit(),
            bytes: s.byte_limit(),
            count: s.object_count(),
            total: s.byte_total(),
        }
    }

    // Whether `n` bytes may take the place of a value of length `held`.
    fn leaves_room(self, held: Option<usize>, n: usize) -> bool
        requires { IfSome held (λ l. l ≤ self.total) }
        ensures { result ≡ not (nat_lt self.objects (count_after self.count held) || nat_lt self.bytes (total_after self.total held n)) }
    {
        match held {
            None => self.count < self.objects && n <= self.bytes - self.total,
            Some(l) => n <= self.bytes - (self.total - l),
        }
    }
}

// Whether the limits leave room for a value in the place of what its tag holds, a value of length `held`.
#[tactic(auto, using(crate::proofs::Rooms::room_answer))]
fn has_room<S: ReadStore>(s: &S, tag: Tag, value: &[u8], held: Option<usize>) -> bool
    requires { held ≡ option_map length (S.ReadStore.held s.now tag.value) }
    ensures { result ≡ not (passes (S.ReadStore.objects s.now) (S.ReadStore.bytes s.now) (changed (S.ReadStore.held s.now) tag.value (Some value.now))) }
{
    Fill::of(s).leaves_room(held, value.len())
}

// Puts a value of at most 255 bytes: one of the same length is written over the old one; else the old one is taken out,
// which moves what lies behind it once, and the new one is added at the end.
#[tactic(auto, using(crate::proofs::Rooms::room_left))]
fn put_short<S: Pack>(s: &mut S, tag: Tag, value: &[u8]) -> Result<(), Refused>
    requires { length value.now ≤ 255 }
    ensures answer { result ≡ put_answer (S.ReadStore.objects s.old) (S.ReadStore.bytes s.old) (S.ReadStore.held s.old) tag.value value.now }
    ensures after { S.ReadStore.held s.new ≡ put_after result (S.ReadStore.held s.old) tag.value value.now }
    ensures limits { (S.ReadStore.objects s.new ≡ S.ReadStore.objects s.old) × (S.ReadStore.bytes s.new ≡ S.ReadStore.bytes s.old) }
{
    let held = s.length_of(tag);
    if !has_room(s, tag, value, held) {
        return Err(Refused::NoRoom);
    }
    if held == Some(value.len()) {
        s.overwrite(tag, value);
        return Ok(());
    }
    s.take_out(tag);
    s.append(tag, value);
    Ok(())
}

// Putting, for every such store.
pub fn put_in<S: Pack>(s: &mut S, tag: Tag, value: &[u8]) -> Result<(), Refused>
    ensures answer { result ≡ put_answer (S.ReadStore.objects s.old) (S.ReadStore.bytes s.old) (S.ReadStore.held s.old) tag.value value.now }
    ensures after { S.ReadStore.held s.new ≡ put_after result (S.ReadStore.held s.old) tag.value value.now }
    ensures limits { (S.ReadStore.objects s.new ≡ S.ReadStore.objects s.old) × (S.ReadStore.bytes s.new ≡ S.ReadStore.bytes s.old) }
{
    if value.len() > 255 {
        return Err(Refused::TooLong);
    }
    put_short(s, tag, value)
}
