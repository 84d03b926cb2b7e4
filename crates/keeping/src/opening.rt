// Whether a store serves at opening.
ghost use Rattle.std.specs.Prelude.{◌≡◌, ◌≤◌, OnOk};
ghost use Rattle.store.specs.Map.{count};
ghost use Rattle.keeping.specs.Opening.{admit_answer};
ghost use Rattle.keeping.specs.Room.{needed_objects, needed_bytes, Roomy};

use crate::refusal::StoreRefusal;
use crate::shares::Shares;
use store::reading::ReadStore;

// A store that holds nothing and has the limits needed has room for all shares.
fn room_of_empty<S: ReadStore>(store: &S, shares: &Shares)
    ensures { count (S.ReadStore.held store.now) ≡ 0 → needed_objects ≤ S.ReadStore.objects store.now → needed_bytes shares.now ≤ S.ReadStore.bytes store.now → Roomy shares.now (S.ReadStore.objects store.now) (S.ReadStore.bytes store.now) (S.ReadStore.held store.now) }
{}

// Whether a store serves: it holds nothing, and has room for 64 objects, for all shares and for the reader's 16 bytes.
// From then on it has room for what is taken. The sum is made in 128 bits, which it never passes.
pub fn admit<S: ReadStore>(store: &S, shares: &Shares) -> Result<(), StoreRefusal>
    ensures answer { result ≡ admit_answer shares.now (S.ReadStore.objects store.now) (S.ReadStore.bytes store.now) (count (S.ReadStore.held store.now)) }
    ensures roomy { OnOk result (Roomy shares.now (S.ReadStore.objects store.now) (S.ReadStore.bytes store.now) (S.ReadStore.held store.now)) }
{
    room_of_empty(store, shares);
    if store.object_count() != 0 {
        return Err(StoreRefusal::HoldsObjects);
    }
    let needed = shares.configuration as u128 + shares.terminal as u128 + shares.card as u128 + 16;
    if store.object_limit() < 64 {
        return Err(StoreRefusal::TooSmall);
    }
    if (store.byte_limit() as u128) < needed {
        return Err(StoreRefusal::TooSmall);
    }
    Ok(())
}
