// New stores of two makes, and one list of puts and drops over both.
ghost use Rattle.std.specs.Prelude.{◌≡◌, ◌+◌, ◌*◌, length, take};
ghost use Rattle.store.specs.Map.{empty};
ghost use Rattle.store.specs.Steps.{answers_of};

use directory::directory::Directory;
use directory::slot::Slot;
use masking::Masking;
use store::reading::ReadStore;
use store::steps::{Step, StepAnswer, run_both};
use store::writing::WriteStore;
use strip::strip::Strip;

// A new directory store beside a new strip store of as many objects. Where the strip's area is five bytes longer for each
// object than the directory's values, both give the answers of the map that starts empty.
pub(crate) fn directory_beside_strip(
    slots: &mut [Slot],
    values: &mut [u8],
    area: &mut [u8],
    text: &[u8],
    steps: &[Step],
    first: &mut [StepAnswer],
    second: &mut [StepAnswer],
) -> usize
    ensures { length area.old ≡ 5 * length slots.old + length values.old → (take result first.new ≡ answers_of (length slots.old) (length values.old) text.now empty (take result steps.now)) × (take result second.new ≡ answers_of (length slots.old) (length values.old) text.now empty (take result steps.now)) }
{
    let objects = slots.len();
    let mut directory = Directory::new(slots, values);
    let mut strip = Strip::new(area, objects);
    run_both(&mut directory, &mut strip, text, steps, first, second)
}

// A masked store over a store, beside another. Where both are empty and have equal limits, both give the answers of the
// map that starts empty.
pub(crate) fn masked_beside<A: WriteStore + Drop, B: WriteStore>(
    lower: A,
    pad: [u8; 256],
    other: &mut B,
    text: &[u8],
    steps: &[Step],
    first: &mut [StepAnswer],
    second: &mut [StepAnswer],
) -> usize
    ensures { A.ReadStore.held lower ≡ empty → B.ReadStore.held other.old ≡ empty → A.ReadStore.objects lower ≡ B.ReadStore.objects other.old → A.ReadStore.bytes lower ≡ B.ReadStore.bytes other.old → (take result first.new ≡ answers_of (A.ReadStore.objects lower) (A.ReadStore.bytes lower) text.now empty (take result steps.now)) × (take result second.new ≡ answers_of (A.ReadStore.objects lower) (A.ReadStore.bytes lower) text.now empty (take result steps.now)) }
{
    let mut masked = Masking::new(lower, pad);
    run_both(&mut masked, other, text, steps, first, second)
}

// The same with a masked store over a masked store.
pub(crate) fn twice_masked_beside<A: WriteStore + Drop, B: WriteStore>(
    lower: A,
    inner: [u8; 256],
    outer: [u8; 256],
    other: &mut B,
    text: &[u8],
    steps: &[Step],
    first: &mut [StepAnswer],
    second: &mut [StepAnswer],
) -> usize
    ensures { A.ReadStore.held lower ≡ empty → B.ReadStore.held other.old ≡ empty → A.ReadStore.objects lower ≡ B.ReadStore.objects other.old → A.ReadStore.bytes lower ≡ B.ReadStore.bytes other.old → (take result first.new ≡ answers_of (A.ReadStore.objects lower) (A.ReadStore.bytes lower) text.now empty (take result steps.now)) × (take result second.new ≡ answers_of (A.ReadStore.objects lower) (A.ReadStore.bytes lower) text.now empty (take result steps.now)) }
{
    masked_beside(
        Masking::new(lower, inner),
        outer,
        other,
        text,
        steps,
        first,
        second,
    )
}
