// The slots of a directory.
ghost use Rattle.std.specs.Prelude.{◌≡◌, ◌^◌, ◌<◌, None, MatchOption};
ghost use Rattle.directory.specs.Directory.{sizes, slot_at};
ghost use Rattle.directory.specs.Found.{At};

use keyed::tag::Tag;

// An object of a directory: its tag, and how many bytes its value has. What an unused slot holds is free.
#[derive(Clone, Copy, PartialEq, Eq, Debug, Default)]
pub struct Slot {
    pub tag: u32,
    pub size: u8,
}

// Where an object lies: its slot, and the place and size of its value.
#[derive(Clone, Copy, PartialEq, Eq, Debug)]
pub(crate) struct Place {
    pub(crate) index: usize,
    pub(crate) start: usize,
    pub(crate) size: usize,
}

// The place of the object of a tag.
pub(crate) fn find_slot(slots: &[Slot], tag: Tag) -> Option<Place>
    requires { sizes slots.now < 2 ^ 64 }
    ensures { MatchOption result (slot_at slots.now tag.value ≡ None) (λ p. At slots.now tag.value p.index p.start p.size) }
{
    let mut start = 0;
    for (index, slot) in slots.iter().enumerate() {
        let size = slot.size as usize;
        if slot.tag == tag.number() {
            return Some(Place { index, start, size });
        }
        start += size;
    }
    None
}
