// Writing a store.
ghost use Rattle.std.specs.Prelude.{◌≡◌, is_some, None};
ghost use Rattle.store.specs.Map.{changed};
ghost use Rattle.store.specs.Answer.{put_answer, put_after};

use crate::reading::ReadStore;
use keyed::tag::Tag;

// Why an object is not put.
#[derive(Clone, Copy, PartialEq, Eq, Debug)]
pub enum Refused {
    // The value has more than 255 bytes.
    TooLong,
    // The store would pass one of its limits.
    NoRoom,
}

// A clause `limits` compares a store with what it was before the call, which no invariant of one state can say.
pub trait WriteStore: ReadStore {
    // Holds the value under the tag, in the place of what was held there.
    fn put(&mut self, tag: Tag, value: &[u8]) -> Result<(), Refused>
        ensures answer { result ≡ put_answer (Self.objects self.old) (Self.bytes self.old) (Self.held self.old) tag.value value.now }
        ensures after { Self.held self.new ≡ put_after result (Self.held self.old) tag.value value.now }
        ensures limits { (Self.objects self.new ≡ Self.objects self.old) × (Self.bytes self.new ≡ Self.bytes self.old) };

    // Holds the tag no longer; whether it was held.
    fn remove(&mut self, tag: Tag) -> bool
        ensures answer { result ≡ is_some (Self.held self.old tag.value) }
        ensures after { Self.held self.new ≡ changed (Self.held self.old) tag.value None }
        ensures limits { (Self.objects self.new ≡ Self.objects self.old) × (Self.bytes self.new ≡ Self.bytes self.old) };
}
