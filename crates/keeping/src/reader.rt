// The reader's own two objects.
ghost use Rattle.std.specs.Prelude.{◌≡◌, ◌≤◌, true, length, Some};
ghost use Rattle.store.specs.Map.{changed};
ghost use Rattle.store.specs.Answer.{put_answer, put_after};
ghost use Rattle.keeping.specs.Room.{verification_results, error_indication, reader_tag, reader_length, Roomy};

use crate::shares::Shares;
use keyed::tag::Tag;
use store::writing::WriteStore;

// Puts one of the reader's own objects. From opening on it is not refused.
fn put_own<S: WriteStore>(store: &mut S, tag: u32, value: &[u8])
    requires tag { reader_tag tag ≡ true }
    requires short { length value.now ≤ reader_length tag }
    ensures put { S.ReadStore.held store.new ≡ put_after (put_answer (S.ReadStore.objects store.old) (S.ReadStore.bytes store.old) (S.ReadStore.held store.old) tag value.now) (S.ReadStore.held store.old) tag value.now }
    ensures after { (s : Shares) → Roomy s (S.ReadStore.objects store.old) (S.ReadStore.bytes store.old) (S.ReadStore.held store.old) → S.ReadStore.held store.new ≡ changed (S.ReadStore.held store.old) tag (Some value.now) }
    ensures roomy { (s : Shares) → Roomy s (S.ReadStore.objects store.old) (S.ReadStore.bytes store.old) (S.ReadStore.held store.old) → Roomy s (S.ReadStore.objects store.new) (S.ReadStore.bytes store.new) (S.ReadStore.held store.new) }
    ensures limits { (S.ReadStore.objects store.new ≡ S.ReadStore.objects store.old) × (S.ReadStore.bytes store.new ≡ S.ReadStore.bytes store.old) }
{
    let Some(tag) = Tag::new(tag) else {
        return;
    };
    let _ = store.put(tag, value);
}

// Puts the Terminal Verification Results, 95. From opening on they are not refused.
pub fn put_verification_results<S: WriteStore>(store: &mut S, results: [u8; 5])
    ensures put { S.ReadStore.held store.new ≡ put_after (put_answer (S.ReadStore.objects store.old) (S.ReadStore.bytes store.old) (S.ReadStore.held store.old) verification_results results) (S.ReadStore.held store.old) verification_results results }
    ensures after { (s : Shares) → Roomy s (S.ReadStore.objects store.old) (S.ReadStore.bytes store.old) (S.ReadStore.held store.old) → S.ReadStore.held store.new ≡ changed (S.ReadStore.held store.old) verification_results (Some results) }
    ensures roomy { (s : Shares) → Roomy s (S.ReadStore.objects store.old) (S.ReadStore.bytes store.old) (S.ReadStore.held store.old) → Roomy s (S.ReadStore.objects store.new) (S.ReadStore.bytes store.new) (S.ReadStore.held store.new) }
    ensures limits { (S.ReadStore.objects store.new ≡ S.ReadStore.objects store.old) × (S.ReadStore.bytes store.new ≡ S.ReadStore.bytes store.old) }
{
    put_own(store, 0x95, &results);
}

// Puts the Error Indication, DF8115. From opening on it is not refused.
pub fn put_error_indication<S: WriteStore>(store: &mut S, indication: [u8; 6])
    ensures put { S.ReadStore.held store.new ≡ put_after (put_answer (S.ReadStore.objects store.old) (S.ReadStore.bytes store.old) (S.ReadStore.held store.old) error_indication indication) (S.ReadStore.held store.old) error_indication indication }
    ensures after { (s : Shares) → Roomy s (S.ReadStore.objects store.old) (S.ReadStore.bytes store.old) (S.ReadStore.held store.old) → S.ReadStore.held store.new ≡ changed (S.ReadStore.held store.old) error_indication (Some indication) }
    ensures roomy { (s : Shares) → Roomy s (S.ReadStore.objects store.old) (S.ReadStore.bytes store.old) (S.ReadStore.held store.old) → Roomy s (S.ReadStore.objects store.new) (S.ReadStore.bytes store.new) (S.ReadStore.held store.new) }
    ensures limits { (S.ReadStore.objects store.new ≡ S.ReadStore.objects store.old) × (S.ReadStore.bytes store.new ≡ S.ReadStore.bytes store.old) }
{
    put_own(store, 0xDF_8115, &indication);
}
