// The strip store.
ghost use Rattle.std.specs.Prelude.{◌≡◌, ◌+◌, ◌≤◌, length, take, drop, Some, None, MatchOption};
ghost use Rattle.store.specs.Map.{empty};
ghost use Rattle.strip.specs.Strip.{Sound, object_room, byte_room, entries};
ghost use Rattle.strip.specs.Spot.{Spot};

use crate::bytes::{first_head, write_entry};
use entries::copy_to_front;
use keyed::tag::Tag;
use store::packing::{Pack, put_in};
use store::reading::{NotCopied, ReadStore};
use store::writing::{Refused, WriteStore};

// A store in one lent area: its limits, how many entries there are, and how many bytes of the area they take.
#[derive(Drop)]
pub struct Strip<'a> {
    area: &'a mut [u8],
    objects: usize,
    bytes: usize,
    count: usize,
    used: usize,
    ghost ok: { Sound objects bytes count used area.now },
}

// Where an entry lies: its place, and the length of its value.
#[derive(Clone, Copy, PartialEq, Eq, Debug)]
struct Place {
    at: usize,
    len: usize,
}

impl<'a> Strip<'a> {
    ghost use Rattle.strip.specs.Meaning.{held_by};

    // An empty store of at most `objects` objects. Its byte limit is the area's length less five for each of them;
    // where the area is shorter than that, it has no room at all.
    pub fn new(area: &'a mut [u8], objects: usize) -> Strip<'a>
        ensures empty { held_by result ≡ empty }
        ensures objects { result.objects ≡ object_room (length area.old) objects }
        ensures bytes { result.bytes ≡ byte_room (length area.old) objects }
    {
        let len = area.len();
        let (objects, bytes) = if objects <= len / 5 {
            (objects, len - 5 * objects)
        } else {
            (0, 0)
        };
        Strip {
            area,
            objects,
            bytes,
            count: 0,
            used: 0,
        }
    }

    // The bytes of the entries.
    fn text(&self) -> &[u8]
        ensures { result.now ≡ take self.now.used self.now.area.now }
    {
        &self.area[..self.used]
    }

    // Where the entry of a tag lies.
    fn find(&self, tag: Tag) -> Option<Place>
        ensures { MatchOption result (held_by self.now tag.value ≡ None) (λ p. Spot (take self.now.used self.now.area.now) (entries self.now.count (take self.now.used self.now.area.now)) tag.value p.at p.len) }
    {
        let text = self.text();
        let mut rest = text;
        while let Some(head) = first_head(rest) {
            if head.tag == tag.number() {
                let at = text.len() - rest.len();
                return Some(Place { at, len: head.len });
            }
            rest = &head.rest[head.len..];
        }
        None
    }

    // The value of the entry at a place.
    fn value_at(&self, place: Place) -> &[u8]
        requires { place.at + (5 + place.len) ≤ length (take self.now.used self.now.area.now) }
        ensures { result.now ≡ take place.len (drop (place.at + 5) (take self.now.used self.now.area.now)) }
    {
        let start = place.at + 5;
        &self.text()[start..start + place.len]
    }

    // The value of a tag.
    fn value_of(&self, tag: Tag) -> Option<&[u8]>
        ensures { MatchOption result (held_by self.now tag.value ≡ None) (λ v. held_by self.now tag.value ≡ Some v.now) }
    {
        let place = self.find(tag)?;
        Some(self.value_at(place))
    }
}

impl<'a> ReadStore for Strip<'a> {
    ghost use Rattle.strip.specs.Meaning.{held_by, strip_kept};

    ghost held = { λ s. held_by s };

    ghost objects = { λ s. s.objects };

    ghost bytes = { λ s. s.bytes };

    ghost kept = { λ s. strip_kept s };

    fn object_limit(&self) -> usize {
        self.objects
    }

    fn byte_limit(&self) -> usize {
        self.bytes
    }

    fn object_count(&self) -> usize {
        self.count
    }

    fn byte_total(&self) -> usize {
        self.used - 5 * self.count
    }

    fn length_of(&self, tag: Tag) -> Option<usize> {
        self.value_of(tag).map(|value| value.len())
    }

    fn copy_out(&self, tag: Tag, out: &mut [u8]) -> Result<usize, NotCopied> {
        let value = self.value_of(tag).ok_or(NotCopied::Missing)?;
        copy_to_front(value, out)
    }
}

impl<'a> Pack for Strip<'a> {
    fn take_out(&mut self, tag: Tag) -> bool {
        let Some(place) = self.find(tag) else {
            return false;
        };
        let size = 5 + place.len;
        self.area.copy_within(place.at + size..self.used, place.at);
        self.count -= 1;
        self.used -= size;
        true
    }

    fn append(&mut self, tag: Tag, value: &[u8]) {
        write_entry(self.area, self.used, tag, value);
        self.count += 1;
        self.used += 5 + value.len();
    }

    fn overwrite(&mut self, tag: Tag, value: &[u8]) {
        if let Some(place) = self.find(tag) {
            let start = place.at + 5;
            self.area[start..start + place.len].copy_from_slice(value);
        }
    }
}

// Written in each make and not once for every `Pack`: the edits of a make's own `put` and `remove` need a place in its crate.
impl<'a> WriteStore for Strip<'a> {
    fn put(&mut self, tag: Tag, value: &[u8]) -> Result<(), Refused> {
        put_in(self, tag, value)
    }

    fn remove(&mut self, tag: Tag) -> bool {
        self.take_out(tag)
    }
}
