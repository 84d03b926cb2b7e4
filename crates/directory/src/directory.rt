// The directory store.
ghost use Rattle.std.specs.Prelude.{◌≡◌, ◌+◌, ◌≤◌, length, take, drop, Some, None, MatchOption};
ghost use Rattle.store.specs.Map.{empty};
ghost use Rattle.directory.specs.Directory.{Ordered};
ghost use Rattle.directory.specs.Found.{Found};

use crate::slot::{Place, Slot, find_slot};
use entries::copy_to_front;
use keyed::tag::Tag;
use store::packing::{Pack, put_in};
use store::reading::{NotCopied, ReadStore};
use store::writing::{Refused, WriteStore};

// A store in two lent areas, limited by their lengths: how many slots are in use, and how many value bytes. The values
// lie back to back, in the order of their slots.
#[derive(Drop)]
pub struct Directory<'a> {
    slots: &'a mut [Slot],
    values: &'a mut [u8],
    count: usize,
    used: usize,
    ghost ok: { Ordered count used slots.now values.now },
}

impl<'a> Directory<'a> {
    ghost use Rattle.directory.specs.Meaning.{held_by};

    // An empty store of as many objects as there are slots, and as many value bytes as the values' area has.
    pub fn new(slots: &'a mut [Slot], values: &'a mut [u8]) -> Directory<'a>
        ensures empty { held_by result ≡ empty }
        ensures objects { length result.slots.now ≡ length slots.old }
        ensures bytes { length result.values.now ≡ length values.old }
    {
        Directory {
            slots,
            values,
            count: 0,
            used: 0,
        }
    }

    // The place of the object of a tag.
    fn place(&self, tag: Tag) -> Option<Place>
        ensures { MatchOption result (held_by self.now tag.value ≡ None) (λ p. Found self.now.count self.now.used self.now.slots.now self.now.values.now tag.value p.index p.start p.size) }
    {
        find_slot(&self.slots[..self.count], tag)
    }

    // The value of the object at a place.
    fn value_at(&self, place: Place) -> &[u8]
        requires { place.start + place.size ≤ length self.now.values.now }
        ensures { result.now ≡ take place.size (drop place.start self.now.values.now) }
    {
        &self.values[place.start..place.start + place.size]
    }

    // The value of a tag.
    fn value_of(&self, tag: Tag) -> Option<&[u8]>
        ensures { MatchOption result (held_by self.now tag.value ≡ None) (λ v. held_by self.now tag.value ≡ Some v.now) }
    {
        let place = self.place(tag)?;
        Some(self.value_at(place))
    }
}

#[tactic(auto, using(crate::specs::Kept::ordered_count, crate::specs::Kept::ordered_total))]
impl<'a> ReadStore for Directory<'a> {
    ghost use Rattle.directory.specs.Meaning.{held_by, directory_kept};

    ghost held = { λ s. held_by s };

    ghost objects = { λ s. length s.slots.now };

    ghost bytes = { λ s. length s.values.now };

    ghost kept = { λ s. directory_kept s };

    fn object_limit(&self) -> usize {
        self.slots.len()
    }

    fn byte_limit(&self) -> usize {
        self.values.len()
    }

    fn object_count(&self) -> usize {
        self.count
    }

    fn byte_total(&self) -> usize {
        self.used
    }

    fn length_of(&self, tag: Tag) -> Option<usize> {
        self.value_of(tag).map(|value| value.len())
    }

    fn copy_out(&self, tag: Tag, out: &mut [u8]) -> Result<usize, NotCopied> {
        let value = self.value_of(tag).ok_or(NotCopied::Missing)?;
        copy_to_front(value, out)
    }
}

impl<'a> Pack for Directory<'a> {
    fn take_out(&mut self, tag: Tag) -> bool {
        let Some(place) = self.place(tag) else {
            return false;
        };
        let end = place.start + place.size;
        let Directory {
            slots,
            values,
            count,
            used,
        } = self;
        slots.copy_within(place.index + 1..*count, place.index);
        values.copy_within(end..*used, place.start);
        *count -= 1;
        *used -= place.size;
        true
    }

    fn append(&mut self, tag: Tag, value: &[u8]) {
        let end = self.used + value.len();
        self.slots[self.count] = Slot {
            tag: tag.number(),
            size: value.len() as u8,
        };
        self.values[self.used..end].copy_from_slice(value);
        self.count += 1;
        self.used = end;
    }

    fn overwrite(&mut self, tag: Tag, value: &[u8]) {
        if let Some(place) = self.place(tag) {
            let end = place.start + place.size;
            self.values[place.start..end].copy_from_slice(value);
        }
    }
}

// Written in each make and not once for every `Pack`: the edits of a make's own `put` and `remove` need a place in its crate.
impl<'a> WriteStore for Directory<'a> {
    fn put(&mut self, tag: Tag, value: &[u8]) -> Result<(), Refused> {
        put_in(self, tag, value)
    }

    fn remove(&mut self, tag: Tag) -> bool {
        self.take_out(tag)
    }
}
