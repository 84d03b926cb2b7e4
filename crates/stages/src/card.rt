// A text of the card's.
ghost use Rattle.std.specs.Prelude.{◌≡◌, ℕ, ◌≤◌, true, false, length, take, IfOk, Err};
ghost use Rattle.tlv.specs.Objects.{next_at};
ghost use Rattle.tlv.specs.Series.{meaning};
ghost use Rattle.store.specs.Map.{Map, empty};
ghost use Rattle.keeping.specs.Keeping.{places_read, stored_text};
ghost use Rattle.keeping.specs.Room.{Roomy};
ghost use Rattle.run.specs.Run.{Course, fails, is_outer, card_text};
ghost use Rattle.stages.specs.Courses.{read_cause, text_course};

use crate::outer::is_one_object;
use judge::fault::ObjectFault;
use judge::kind::TextKind;
use keeping::shares::Shares;
use keeping::take::take_text;
use run::fault::Cause;
use store::writing::WriteStore;
use tlv::place::Place;
use tlv::text::{ReadRefusal, read_text};

// The cause that a text which is not one object gives, by what reading it answers.
fn cause_of_reading(reading: Result<usize, ReadRefusal>) -> Cause
    ensures { result ≡ read_cause reading }
{
    match reading {
        Ok(_) => Cause::WrongOuter,
        Err(ReadRefusal::Fault(fault)) => Cause::Faulty(ObjectFault::Text(fault)),
        Err(ReadRefusal::ListShort) => Cause::Stopped,
    }
}

// What is wrong with a text that is not one object of the tag: its text fault, if it has one, and else its outer object.
fn outer_cause(outer: u32, text: &[u8], list: &mut [Place]) -> Cause
    ensures { 64 ≤ length list.old → is_outer outer (next_at (length text.now) text.now) ≡ false → (share : ℕ) (held : Map) (next : Map → Map → Course) → card_text outer share held text.now next ≡ fails result held }
{
    cause_of_reading(read_text(text, list))
}

// Takes a text that is one object of the tag.
fn take_object<S: WriteStore>(
    store: &mut S,
    shares: &Shares,
    outer: u32,
    text: &[u8],
    list: &mut [Place],
) -> Result<usize, Cause>
    ensures course { 64 ≤ length list.old → is_outer outer (next_at (length text.now) text.now) ≡ true → Roomy shares.now (S.ReadStore.objects store.old) (S.ReadStore.bytes store.old) (S.ReadStore.held store.old) → (next : Map → Map → Course) → card_text outer shares.now.card (S.ReadStore.held store.old) text.now next ≡ text_course result (S.ReadStore.held store.new) (stored_text text.now empty) next }
    ensures places { IfOk result (λ n. (n ≤ length list.new) × (take n list.new ≡ places_read (meaning text.now))) }
    ensures refused { (c : Cause) → result ≡ Err c → S.ReadStore.held store.new ≡ S.ReadStore.held store.old }
    ensures roomy { Roomy shares.now (S.ReadStore.objects store.old) (S.ReadStore.bytes store.old) (S.ReadStore.held store.old) → Roomy shares.now (S.ReadStore.objects store.new) (S.ReadStore.bytes store.new) (S.ReadStore.held store.new) }
    ensures limits { (S.ReadStore.objects store.new ≡ S.ReadStore.objects store.old) × (S.ReadStore.bytes store.new ≡ S.ReadStore.bytes store.old) }
{
    Ok(take_text(store, shares, TextKind::CardAnswer, text, list)?)
}

// Takes a text of the card's, which must be one object of the tag: how many places it has in the work list. A text
// that is refused changes nothing that is held. The work list has at least 64 places; a shorter one stops the run.
pub fn card_text<S: WriteStore>(
    store: &mut S,
    shares: &Shares,
    outer: u32,
    text: &[u8],
    list: &mut [Place],
) -> Result<usize, Cause>
    ensures course { 64 ≤ length list.old → Roomy shares.now (S.ReadStore.objects store.old) (S.ReadStore.bytes store.old) (S.ReadStore.held store.old) → (next : Map → Map → Course) → card_text outer shares.now.card (S.ReadStore.held store.old) text.now next ≡ text_course result (S.ReadStore.held store.new) (stored_text text.now empty) next }
    ensures places { IfOk result (λ n. (n ≤ length list.new) × (take n list.new ≡ places_read (meaning text.now))) }
    ensures refused { (c : Cause) → result ≡ Err c → S.ReadStore.held store.new ≡ S.ReadStore.held store.old }
    ensures roomy { Roomy shares.now (S.ReadStore.objects store.old) (S.ReadStore.bytes store.old) (S.ReadStore.held store.old) → Roomy shares.now (S.ReadStore.objects store.new) (S.ReadStore.bytes store.new) (S.ReadStore.held store.new) }
    ensures limits { (S.ReadStore.objects store.new ≡ S.ReadStore.objects store.old) × (S.ReadStore.bytes store.new ≡ S.ReadStore.bytes store.old) }
{
    if !is_one_object(text, outer) {
        return Err(outer_cause(outer, text, list));
    }
    take_object(store, shares, outer, text, list)
}
