// Taking a text: read, judged, weighed, and stored.
ghost use Rattle.std.specs.Prelude.{◌≡◌, ◌≤◌, true, length, take, IfOk, Err, OnOk};
ghost use Rattle.tlv.specs.Series.{meaning};
ghost use Rattle.store.specs.Map.{Map};
ghost use Rattle.judge.specs.declared.kind.TextKind.TheVariants.{CardAnswer};
ghost use Rattle.judge.specs.Kinds.{own};
ghost use Rattle.keeping.specs.Keeping.{places_read};
ghost use Rattle.keeping.specs.Own.{SameOwn};
ghost use Rattle.keeping.specs.Replacing.{Replaced};
ghost use Rattle.keeping.specs.Room.{Roomy};
ghost use Rattle.keeping.specs.Steps.{answered, Weighed};
ghost use Rattle.keeping.specs.Taking.{take_answer, take_after};

use crate::keep::keep_text;
use crate::refusal::TakeRefusal;
use crate::shares::Shares;
use crate::total::total_after;
use judge::kind::TextKind;
use judge::text::judge_text;
use store::reading::ReadStore;
use store::writing::WriteStore;
use tlv::place::Place;

// Reads a text into the work list, judges it and weighs its writer's bytes: how many objects it has.
fn judge_and_sum<S: ReadStore>(
    store: &S,
    shares: &Shares,
    kind: TextKind,
    text: &[u8],
    list: &mut [Place],
) -> Result<usize, TakeRefusal>
    ensures answer { answered result ≡ take_answer shares.now kind (length list.old) (S.ReadStore.held store.now) text.now }
    ensures weighed { IfOk result (λ n. (n ≤ length list.new) × Weighed shares.now kind (S.ReadStore.held store.now) text.now (take n list.new)) }
{
    let count = judge_text(store, kind, text, list)?;
    if total_after(store, kind, text, &list[..count]) > shares.of(kind) {
        return Err(TakeRefusal::Share);
    }
    Ok(count)
}

// Reads, judges and weighs a text. What is answered to an own text depends on our own objects alone.
fn weigh<S: ReadStore>(
    store: &S,
    shares: &Shares,
    kind: TextKind,
    text: &[u8],
    list: &mut [Place],
) -> Result<usize, TakeRefusal>
    ensures answer { answered result ≡ take_answer shares.now kind (length list.old) (S.ReadStore.held store.now) text.now }
    ensures alone { (n : Map) → own kind ≡ true → SameOwn (S.ReadStore.held store.now) n → answered result ≡ take_answer shares.now kind (length list.old) n text.now }
    ensures weighed { IfOk result (λ n. (n ≤ length list.new) × Weighed shares.now kind (S.ReadStore.held store.now) text.now (take n list.new)) }
{
    judge_and_sum(store, shares, kind, text, list)
}

// Takes a text whole, or refuses it and leaves what is held as it was: read into the work list, judged, weighed against
// its writer's share, and stored. From opening on the store has room for what is taken. Our own texts are answered by
// our own objects alone, and a card's text changes none of them. A text that is taken has its places at the front of the
// work list, and their number is the answer; what else the work list holds afterwards is left free.
pub fn take_text<S: WriteStore>(
    store: &mut S,
    shares: &Shares,
    kind: TextKind,
    text: &[u8],
    list: &mut [Place],
) -> Result<usize, TakeRefusal>
    ensures answer { answered result ≡ take_answer shares.now kind (length list.old) (S.ReadStore.held store.old) text.now }
    ensures alone { (n : Map) → own kind ≡ true → SameOwn (S.ReadStore.held store.old) n → answered result ≡ take_answer shares.now kind (length list.old) n text.now }
    ensures places { IfOk result (λ n. (n ≤ length list.new) × (take n list.new ≡ places_read (meaning text.now))) }
    ensures refused { (e : TakeRefusal) → result ≡ Err e → S.ReadStore.held store.new ≡ S.ReadStore.held store.old }
    ensures after { Roomy shares.now (S.ReadStore.objects store.old) (S.ReadStore.bytes store.old) (S.ReadStore.held store.old) → S.ReadStore.held store.new ≡ take_after (answered result) text.now (S.ReadStore.held store.old) }
    ensures replaced { OnOk result ((Roomy shares.now (S.ReadStore.objects store.old) (S.ReadStore.bytes store.old) (S.ReadStore.held store.old) → Replaced text.now (S.ReadStore.held store.old) (S.ReadStore.held store.new))) }
    ensures card { kind ≡ CardAnswer → Roomy shares.now (S.ReadStore.objects store.old) (S.ReadStore.bytes store.old) (S.ReadStore.held store.old) → SameOwn (S.ReadStore.held store.old) (S.ReadStore.held store.new) }
    ensures roomy { Roomy shares.now (S.ReadStore.objects store.old) (S.ReadStore.bytes store.old) (S.ReadStore.held store.old) → Roomy shares.now (S.ReadStore.objects store.new) (S.ReadStore.bytes store.new) (S.ReadStore.held store.new) }
    ensures limits { (S.ReadStore.objects store.new ≡ S.ReadStore.objects store.old) × (S.ReadStore.bytes store.new ≡ S.ReadStore.bytes store.old) }
{
    let count = weigh(store, shares, kind, text, list)?;
    keep_text(store, shares, kind, text, &list[..count]);
    Ok(count)
}
