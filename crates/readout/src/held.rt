// Writes one object, and the Data Record.
ghost use Rattle.std.specs.Prelude.{◌≡◌, ◌≤◌, length};
ghost use Rattle.readout.specs.Shown.{bytes_of, ReadsAs, AllTags};
ghost use Rattle.readout.specs.Laws.{OnlyHeld, OnlyRecord};
ghost use Rattle.readout.specs.Output.{record_tags, held_objects, record_objects, fit_answer, held_answer, write_after, some};

use crate::object::{Absent, size_of, write_objects};
use crate::refusal::ReadoutRefusal;
use store::reading::ReadStore;

// The tags of the Data Record, in its order.
const RECORD: [u32; 28] = [
    0x9F02, 0x9F03, 0x9F26, 0x5F24, 0x82, 0x50, 0x5A, 0x5F34, 0x9F12, 0x9F36, 0x9F07, 0x9F09,
    0x9F27, 0x84, 0x9F1E, 0x9F10, 0x9F_8109, 0x9F11, 0x9F24, 0x9F33, 0x9F1A, 0x9F35, 0x95, 0x57,
    0x5F2A, 0x9A, 0x9C, 0x9F37,
];

// Those tags. A function, so that its callers have what its contract says of a long constant.
fn record_tags() -> &'static [u32]
    ensures tags { result.now ≡ record_tags }
    ensures few { length result.now ≤ 64 }
    ensures whole { AllTags record_tags }
{
    &RECORD
}

// Whether a tag is held: whether there is an object to write.
fn is_held<S: ReadStore>(store: &S, tag: u32) -> bool
    ensures value { result ≡ some (held_objects tag (S.held store.now)) }
    ensures only { OnlyHeld tag }
{
    size_of(store, Absent::LeftOut, tag) != 0
}

// Writes the held object of a tag to the buffer's front, the rest unchanged: how many bytes.
pub fn write_held<S: ReadStore>(
    store: &S,
    tag: u32,
    out: &mut [u8],
) -> Result<usize, ReadoutRefusal>
    ensures answer { result ≡ held_answer (held_objects tag (S.held store.now)) (length out.old) }
    ensures after { out.new ≡ write_after result (bytes_of (held_objects tag (S.held store.now))) out.old }
    ensures reads { ReadsAs result out.new (held_objects tag (S.held store.now)) }
    ensures only { OnlyHeld tag }
{
    if !is_held(store, tag) {
        return Err(ReadoutRefusal::NotHeld);
    }
    write_objects(store, Absent::LeftOut, &[tag], out)
}

// Writes the Data Record, the held objects of its tags, to the buffer's front, the rest unchanged: how many bytes.
pub fn write_record<S: ReadStore>(store: &S, out: &mut [u8]) -> Result<usize, ReadoutRefusal>
    ensures answer { result ≡ fit_answer (bytes_of (record_objects (S.held store.now))) (length out.old) }
    ensures after { out.new ≡ write_after result (bytes_of (record_objects (S.held store.now))) out.old }
    ensures reads { ReadsAs result out.new (record_objects (S.held store.now)) }
    ensures only { OnlyRecord }
    ensures whole { AllTags record_tags }
{
    write_objects(store, Absent::LeftOut, record_tags(), out)
}
