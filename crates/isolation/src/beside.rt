// Two readers side by side.
ghost use Rattle.std.specs.Prelude.{◌≡◌, ◌≤◌, min, List, [], length, take, drop};
ghost use Rattle.run.specs.Calls.{Call, Config};
ghost use Rattle.run.specs.Law.{Lawful};
ghost use Rattle.reader.specs.Meanings.{meaning};
ghost use Rattle.isolation.specs.Asked.{asks, latest};
ghost use Rattle.isolation.specs.Beside.{Went, Answered, CameTo, Isolated, session, calls_made};

use crate::call::{Asked, make_call};
use keeping::shares::Shares;
use reader::reader::{Reader, Step};
use run::refusal::Refusal;
use store::writing::WriteStore;
use tlv::place::Place;

// Makes a call of a reader, with as much memory as is lent to it.
fn ask<S: WriteStore>(
    reader: &mut Reader<S>,
    asked: Asked,
    buffer: &mut [u8],
    list: &mut [Place],
) -> Result<Step, Refusal>
    ensures { Answered (meaning S.ReadStore reader.old) (asks (length buffer.old) (length list.old) asked.entry) result (meaning S.ReadStore reader.new) }
{
    let wide = asked.buffer.min(buffer.len());
    let long = asked.list.min(list.len());
    make_call(reader, asked.call, &mut buffer[0..wide], &mut list[0..long])
}

// Makes the calls in turn, and keeps their replies.
fn play_all<S: WriteStore>(
    reader: &mut Reader<S>,
    calls: &[Asked],
    buffer: &mut [u8],
    list: &mut [Place],
    replies: &mut [Result<Step, Refusal>],
)
    requires { length calls.now ≤ length replies.old }
    ensures went { (config : Config) → Went config [] [] (meaning S.ReadStore reader.old) → Went config (latest (asks (length buffer.old) (length list.old)) calls.now []) (latest (λ r. r) (take (length calls.now) replies.new) []) (meaning S.ReadStore reader.new) }
    ensures rest { drop (length calls.now) replies.new ≡ drop (length calls.now) replies.old }
{
    // By the index: a `zip` with `replies.iter_mut()` lends the replies for the whole loop, and no invariant can name
    // them.
    for (i, asked) in calls.iter().enumerate() {
        replies[i] = ask(reader, *asked, buffer, list);
    }
}

// Opens a reader and makes the calls in turn, as many as there are places for replies: how many were made.
fn open_and_play<S: WriteStore>(
    reader: &mut Reader<S>,
    shares: Shares,
    text: &[u8],
    calls: &[Asked],
    buffer: &mut [u8],
    list: &mut [Place],
    replies: &mut [Result<Step, Refusal>],
) -> Result<usize, Refusal>
    ensures came { CameTo (session shares text.now (length buffer.old) (length list.old) calls.now) (meaning S.ReadStore reader.old) result replies.new (meaning S.ReadStore reader.new) }
    ensures rest { drop (calls_made result) replies.new ≡ drop (calls_made result) replies.old }
{
    reader.open(shares, text, list)?;
    let n = calls.len().min(replies.len());
    play_all(reader, &calls[..n], buffer, list, replies);
    Ok(n)
}

// How many calls were made of each of two readers, or why its opening was refused.
#[derive(Clone, Copy, PartialEq, Eq, Debug)]
pub struct Made {
    pub first: Result<usize, Refusal>,
    pub second: Result<usize, Refusal>,
}

// Opens both readers, and makes the calls of each in turn.
fn play_both<S: WriteStore, T: WriteStore>(
    first: &mut Reader<S>,
    second: &mut Reader<T>,
    shares: Shares,
    text: &[u8],
    calls: &[Asked],
    others: &[Asked],
    buffer: &mut [u8],
    list: &mut [Place],
    replies: &mut [Result<Step, Refusal>],
    other_replies: &mut [Result<Step, Refusal>],
) -> Made
    ensures first { CameTo (session shares text.now (length buffer.old) (length list.old) calls.now) (meaning S.ReadStore first.old) result.first replies.new (meaning S.ReadStore first.new) }
    ensures second { CameTo (session shares text.now (length buffer.old) (length list.old) others.now) (meaning T.ReadStore second.old) result.second other_replies.new (meaning T.ReadStore second.new) }
    ensures law { Isolated (session shares text.now (length buffer.old) (length list.old) calls.now) (session shares text.now (length buffer.old) (length list.old) others.now) result.first result.second replies.new other_replies.new (meaning S.ReadStore first.new) (meaning T.ReadStore second.new) }
    ensures rest { (drop (calls_made result.first) replies.new ≡ drop (calls_made result.first) replies.old) × (drop (calls_made result.second) other_replies.new ≡ drop (calls_made result.second) other_replies.old) }
{
    let made = open_and_play(first, shares, text, calls, buffer, list, replies);
    let other = open_and_play(second, shares, text, others, buffer, list, other_replies);
    Made {
        first: made,
        second: other,
    }
}

// Opens two readers with equal shares and configuration, each over a store of its own, and makes calls of each, as many
// as there are places for its replies. Where the terminal asked the same of both, whatever the cards did, they hold the
// same objects of our own, and the terminal's calls were answered alike.
pub fn side_by_side<S: WriteStore, T: WriteStore>(
    first: &mut Reader<S>,
    second: &mut Reader<T>,
    shares: Shares,
    text: &[u8],
    calls: &[Asked],
    others: &[Asked],
    buffer: &mut [u8],
    list: &mut [Place],
    replies: &mut [Result<Step, Refusal>],
    other_replies: &mut [Result<Step, Refusal>],
) -> Made
    ensures first { CameTo (session shares text.now (length buffer.old) (length list.old) calls.now) (meaning S.ReadStore first.old) result.first replies.new (meaning S.ReadStore first.new) }
    ensures second { CameTo (session shares text.now (length buffer.old) (length list.old) others.now) (meaning T.ReadStore second.old) result.second other_replies.new (meaning T.ReadStore second.new) }
    ensures law { Isolated (session shares text.now (length buffer.old) (length list.old) calls.now) (session shares text.now (length buffer.old) (length list.old) others.now) result.first result.second replies.new other_replies.new (meaning S.ReadStore first.new) (meaning T.ReadStore second.new) }
    ensures rest { (drop (calls_made result.first) replies.new ≡ drop (calls_made result.first) replies.old) × (drop (calls_made result.second) other_replies.new ≡ drop (calls_made result.second) other_replies.old) }
{
    play_both(
        first,
        second,
        shares,
        text,
        calls,
        others,
        buffer,
        list,
        replies,
        other_replies,
    )
}
