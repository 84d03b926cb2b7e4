// Writes the wanted objects.
ghost use Rattle.std.specs.Prelude.{◌≡◌, ◌≤◌, length, take, IfOk, OnOk};
ghost use Rattle.readout.specs.Shown.{bytes_of, ReadsAs, AllTags};
ghost use Rattle.readout.specs.Output.{write_after};
ghost use Rattle.readout.specs.Listing.{told_in};
ghost use Rattle.readout.specs.Wanted.{wanted_by, wanted_objects, on_tags, wanted_answer, value_of, OnlyWanted, EachOnce};

use crate::object::{Absent, fetch, write_objects};
use crate::refusal::ReadoutRefusal;
use crate::tags::read_tags;
use keyed::tag::Tag;
use store::reading::ReadStore;
use tlv::fault::TextFault;

// The tags of the held list of wanted objects (DF8112), to the front of the array; none if it is not held.
fn listed_tags<S: ReadStore>(
    store: &S,
    list: &mut [Tag; 64],
    tags: &mut [u32; 64],
) -> Result<usize, TextFault>
    ensures value { told_in result tags.new ≡ wanted_by (S.held store.now) }
    ensures tags { IfOk result (λ n. AllTags (take n tags.new)) }
    ensures few { IfOk result (λ n. n ≤ 64) }
{
    let mut value = [0u8; 255];
    let text = fetch(store, 0xDF_8112, &mut value).unwrap_or(&[]);
    read_tags(text, list, tags)
}

// Writes the wanted objects, with a work list of 64 tags.
fn write_listed<S: ReadStore>(
    store: &S,
    list: &mut [Tag; 64],
    out: &mut [u8],
) -> Result<usize, ReadoutRefusal>
    ensures answer { result ≡ on_tags (wanted_by (S.held store.now)) (wanted_objects (S.held store.now)) (length out.old) }
    ensures after { out.new ≡ write_after result (bytes_of (wanted_objects (S.held store.now))) out.old }
    ensures reads { ReadsAs result out.new (wanted_objects (S.held store.now)) }
    ensures only { OnOk result (OnlyWanted (S.held store.now)) }
    ensures once { OnOk result (EachOnce (value_of (S.held store.now 0xDF_8112))) }
{
    let mut tags = [0u32; 64];
    let n = listed_tags(store, list, &mut tags).map_err(ReadoutRefusal::Fault)?;
    write_objects(store, Absent::Empty, &tags[0..n], out)
}

// Writes, for each tag of the held list of wanted objects (DF8112), the held object, or the tag and '00', to the
// buffer's front, the rest unchanged: how many bytes.
pub fn write_wanted<S: ReadStore>(
    store: &S,
    list: &mut [Tag],
    out: &mut [u8],
) -> Result<usize, ReadoutRefusal>
    ensures answer { result ≡ wanted_answer (length list.old) (S.held store.now) (length out.old) }
    ensures after { out.new ≡ write_after result (bytes_of (wanted_objects (S.held store.now))) out.old }
    ensures reads { ReadsAs result out.new (wanted_objects (S.held store.now)) }
    ensures only { OnOk result (OnlyWanted (S.held store.now)) }
    ensures once { OnOk result (EachOnce (value_of (S.held store.now 0xDF_8112))) }
{
    let list = list.first_chunk_mut().ok_or(ReadoutRefusal::Short)?;
    write_listed(store, list, out)
}
