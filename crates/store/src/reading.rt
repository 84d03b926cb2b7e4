// Reading a store.
ghost use Rattle.std.specs.Prelude.{◌≡◌, ℕ, length};
ghost use Rattle.std.specs.Option.{option_map};
ghost use Rattle.store.specs.Map.{Map, Kept, count, total};
ghost use Rattle.store.specs.Answer.{copy_answer, copy_after};

use keyed::tag::Tag;

// Why a value is not copied out.
#[derive(Clone, Copy, PartialEq, Eq, Debug)]
pub enum NotCopied {
    // The tag is not held.
    Missing,
    // The buffer is shorter than the value.
    Short,
}

// A store means a map from tags to values, a limit of objects and a limit of value bytes.
pub trait ReadStore {
    ghost held: { Self → Map };

    ghost objects: { Self → ℕ };

    ghost bytes: { Self → ℕ };

    // What each `impl` proves of its map.
    ghost kept: { (s : Self) → Kept (held s) (objects s) (bytes s) };

    // The most objects that it may hold.
    fn object_limit(&self) -> usize
        ensures { result ≡ objects self.now };

    // The most value bytes that it may hold.
    fn byte_limit(&self) -> usize
        ensures { result ≡ bytes self.now };

    // How many objects are held.
    fn object_count(&self) -> usize
        ensures { result ≡ count (held self.now) };

    // How many value bytes they have together.
    fn byte_total(&self) -> usize
        ensures { result ≡ total (held self.now) };

    // The length of a tag's value; none if the tag is not held.
    fn length_of(&self, tag: Tag) -> Option<usize>
        ensures { result ≡ option_map length (held self.now tag.value) };

    // Copies a tag's value into the buffer's front; how many bytes of it the value fills.
    fn copy_out(&self, tag: Tag, out: &mut [u8]) -> Result<usize, NotCopied>
        ensures answer { result ≡ copy_answer (held self.now tag.value) (length out.old) }
        ensures after { out.new ≡ copy_after (held self.now tag.value) out.old };
}
