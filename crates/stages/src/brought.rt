// What a text brings by itself.
ghost use Rattle.std.specs.Prelude.{◌≡◌, [], Some, None};
ghost use Rattle.dictionary.specs.Dictionary.{entry_of};
ghost use Rattle.store.specs.Map.{empty};
ghost use Rattle.keeping.specs.Keeping.{stored};
ghost use Rattle.commands.specs.Commands.{bytes};

use dictionary::entry::Entry;
use dictionary::find::lookup;
use tlv::place::Place;

// The value of the last object with the tag: what the text brings, where the tag is known.
fn last_value<'a>(text: &'a [u8], places: &[Place], tag: u32) -> &'a [u8]
    ensures known { (e : Entry) → entry_of tag ≡ Some e → result.now ≡ bytes (stored text.now places.now empty tag) }
    ensures unknown { entry_of tag ≡ None → [] ≡ bytes (stored text.now places.now empty tag) }
{
    let mut value = &text[0..0];
    for p in places {
        let here = p.value_in(text);
        value = if p.tag == tag { here } else { value };
    }
    value
}

// The value that the text brings of a known tag; no bytes where it brings none.
pub fn brought<'a>(text: &'a [u8], places: &[Place], tag: u32) -> &'a [u8]
    ensures { result.now ≡ bytes (stored text.now places.now empty tag) }
{
    let value = last_value(text, places, tag);
    match lookup(tag) {
        Some(_) => value,
        None => &text[0..0],
    }
}
