// The value of a tag.
ghost use Rattle.std.specs.Prelude.{◌≡◌};
ghost use Rattle.commands.specs.Commands.{bytes};

use keyed::tag::Tag;
use store::reading::ReadStore;

// A tag's value, in the front of `buffer`: empty where the tag is not held.
pub fn value_in<'a, S: ReadStore>(store: &S, tag: u32, buffer: &'a mut [u8; 255]) -> &'a [u8]
    ensures { result.now ≡ bytes (S.held store.now tag) }
{
    let n = match Tag::new(tag) {
        Some(tag) => store.copy_out(tag, buffer).unwrap_or(0),
        None => 0,
    };
    &buffer[0..n]
}
