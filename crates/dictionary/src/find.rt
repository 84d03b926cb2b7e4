// Looking a tag up.
ghost use Rattle.std.specs.Prelude.{◌≡◌, ℕ, true, Some, None, MatchOption};
ghost use Rattle.dictionary.specs.Dictionary.{entry_of, Listed, Unlisted, constructed};
ghost use Rattle.dictionary.specs.Places.{StandsAt, Nowhere};

use crate::entry::Entry;
use crate::table::all;
use keyed::tag::Tag;

// The tag's entry, if it has one.
fn find(tag: u32) -> Option<&'static Entry>
    ensures { MatchOption result (Nowhere tag) (λ e. (k : ℕ) × StandsAt tag k e.now) }
{
    let table = all();
    let index = table.binary_search_by_key(&tag, |entry| entry.tag).ok()?;
    Some(&table[index])
}

// The entry of a tag, or none where the dictionary does not have it, as at the tag of a constructed object.
pub fn lookup(tag: u32) -> Option<Entry>
    ensures value { result ≡ entry_of tag }
    ensures cases { MatchOption result (Unlisted tag) (λ e. Listed tag e) }
    ensures primitive { constructed tag ≡ true → result ≡ None }
{
    find(tag).copied()
}

// A tag of the dictionary, with its entry.
#[derive(Clone, Copy, PartialEq, Eq, Debug)]
pub struct Known {
    pub tag: Tag,
    pub entry: Entry,
}

impl Known {
    // The known tag of that number, by which a store can be asked: each tag of the dictionary has 24 bits.
    pub fn look_up(tag: u32) -> Option<Known>
        ensures { MatchOption result (entry_of tag ≡ None) (λ k. (entry_of tag ≡ Some k.entry) × (k.tag.value ≡ tag)) }
    {
        let entry = *find(tag)?;
        let tag = Tag::new(tag)?;
        Some(Known { tag, entry })
    }
}
