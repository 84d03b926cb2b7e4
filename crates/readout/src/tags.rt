// Reads the tags of a list of wanted objects.
ghost use Rattle.std.specs.Prelude.{◌≡◌, ◌≤◌, length, take, IfOk};
ghost use Rattle.keyed.specs.Elements.{elements, memory};
ghost use Rattle.readout.specs.Shown.{AllTags};
ghost use Rattle.readout.specs.Listing.{next_of, step_told, WholeTag, numbers, Stepped, goes_on, told, told_in};
ghost use Rattle.readout.specs.Wanted.{wanted_tags};

use keyed::list::{KeyedList, NotAdded};
use keyed::tag::Tag;
use tlv::fault::{FaultKind, TextFault};
use tlv::token::read_tag;

// What stands next in a list: filler and the bytes after it, or a tag with its place and the bytes after it.
#[derive(Clone, Copy, PartialEq, Eq, Debug)]
enum Step<'a> {
    Filler(&'a [u8]),
    Want(u32, usize, &'a [u8]),
}

// What stands next in a list that ends just before the place `end`; none at its end.
fn next_step(text: &[u8], end: usize) -> Result<Option<Step<'_>>, TextFault>
    ensures value { step_told result ≡ next_of end text.now }
    ensures whole { WholeTag result }
{
    let [first, after @ ..] = text else {
        return Ok(None);
    };
    if *first == 0 {
        return Ok(Some(Step::Filler(after)));
    }
    let at = end.saturating_sub(text.len());
    let (tag, rest) = read_tag(text).map_err(|kind| TextFault { kind, at })?;
    Ok(Some(Step::Want(tag, at, rest)))
}

// Takes the next tag into the list: the bytes after it, none at the end.
fn take_step<'a>(
    list: &mut KeyedList<'_, Tag>,
    text: &'a [u8],
    end: usize,
) -> Result<Option<&'a [u8]>, TextFault>
    requires { length (memory list.old) ≡ 64 }
    ensures step { Stepped result end (numbers (elements list.old)) text.now (numbers (elements list.new)) }
    ensures tags { AllTags (numbers (elements list.old)) → AllTags (numbers (elements list.new)) }
    ensures room { length (memory list.new) ≡ length (memory list.old) }
    ensures named { list.new.items.ghost_name ≡ list.old.items.ghost_name }
{
    match next_step(text, end)? {
        None => Ok(None),
        Some(Step::Filler(after)) => Ok(Some(after)),
        Some(Step::Want(number, at, after)) => {
            let Some(tag) = Tag::new(number) else {
                unreachable()
            };
            if list.add(tag) == Err(NotAdded::Full) {
                return Err(TextFault {
                    kind: FaultKind::TooMany,
                    at,
                });
            }
            Ok(Some(after))
        }
    }
}

// Takes the tags of a list into the keyed list, each once.
fn take_tags(list: &mut KeyedList<'_, Tag>, text: &[u8]) -> Result<(), TextFault>
    requires { length (memory list.old) ≡ 64 }
    ensures taken { told result (numbers (elements list.new)) ≡ goes_on (length text.now) (numbers (elements list.old)) text.now }
    ensures tags { AllTags (numbers (elements list.old)) → AllTags (numbers (elements list.new)) }
    ensures room { length (memory list.new) ≡ length (memory list.old) }
    ensures named { list.new.items.ghost_name ≡ list.old.items.ghost_name }
{
    let end = text.len();
    let mut rest = text;
    while let Some(after) = take_step(list, rest, end)? {
        rest = after;
    }
    Ok(())
}

// Copies the numbers of tags to the front of an array.
fn copy_numbers(tags: &[Tag], out: &mut [u32; 64])
    requires { length tags.now ≤ 64 }
    ensures { take (length tags.now) out.new ≡ numbers tags.now }
{
    for (i, tag) in tags.iter().enumerate() {
        out[i] = tag.number();
    }
}

// The different tags of a list, in their order: their numbers go to the front of the array; how many there are.
pub(crate) fn read_tags(
    text: &[u8],
    memory: &mut [Tag; 64],
    out: &mut [u32; 64],
) -> Result<usize, TextFault>
    ensures value { told_in result out.new ≡ wanted_tags text.now }
    ensures tags { IfOk result (λ n. AllTags (take n out.new)) }
    ensures few { IfOk result (λ n. n ≤ 64) }
{
    let mut list = KeyedList::new(memory);
    take_tags(&mut list, text)?;
    copy_numbers(list.as_slice(), out);
    Ok(list.len())
}
