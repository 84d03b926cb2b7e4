// Writes the objects of tags into a buffer.
ghost use Rattle.std.specs.Prelude.{◌≡◌, ◌+◌, ◌≤◌, ◌++◌, IfSome, length, map, sum, take, drop};
ghost use Rattle.tlv.specs.Written.{at_front};
ghost use Rattle.readout.specs.Shown.{shown, objects_at, bytes_of, ReadsAs};
ghost use Rattle.readout.specs.Steps.{fetched, whole};
ghost use Rattle.readout.specs.Laws.{OnlyAt};
ghost use Rattle.readout.specs.Output.{fit_answer, write_after};

use crate::refusal::ReadoutRefusal;
use keyed::tag::Tag;
use store::reading::ReadStore;
use tlv::write::write_object;

// What is shown for a tag that is not held: nothing, or an empty object.
#[derive(Clone, Copy, PartialEq, Eq, Debug)]
pub(crate) enum Absent {
    LeftOut,
    Empty,
}

// The value of a tag, in the front of `buffer`; none if the tag is not held. The buffers for a value and for an object
// have a fixed size, that of the longest, since there is no heap.
pub(crate) fn fetch<'b, S: ReadStore>(
    store: &S,
    tag: u32,
    buffer: &'b mut [u8; 255],
) -> Option<&'b [u8]>
    ensures value { fetched result ≡ S.held store.now tag }
    ensures small { IfSome result (λ v. length v.now ≤ 255) }
{
    let n = store.copy_out(Tag::new(tag)?, buffer).ok()?;
    Some(&buffer[0..n])
}

// An object, in the front of `room`; nothing if the number is no tag's.
fn object_bytes<'r>(tag: u32, value: &[u8], room: &'r mut [u8; 260]) -> &'r [u8]
    requires { length value.now ≤ 255 }
    ensures value { result.now ≡ bytes_of (whole tag value.now) }
    ensures small { length result.now ≤ 260 }
{
    let n = write_object(tag, value, room).unwrap_or(0);
    &room[0..n]
}

// The object that is shown for a tag, in the front of `room`.
fn shown_bytes<'r, S: ReadStore>(
    store: &S,
    absent: Absent,
    tag: u32,
    room: &'r mut [u8; 260],
) -> &'r [u8]
    ensures value { result.now ≡ bytes_of (shown absent tag (S.held store.now tag)) }
    ensures small { length result.now ≤ 260 }
{
    let mut buffer = [0u8; 255];
    match (fetch(store, tag, &mut buffer), absent) {
        (Some(value), _) => object_bytes(tag, value, room),
        (None, Absent::LeftOut) => &[],
        (None, Absent::Empty) => object_bytes(tag, &[], room),
    }
}

// How many bytes the object that is shown for a tag has.
pub(crate) fn size_of<S: ReadStore>(store: &S, absent: Absent, tag: u32) -> usize
    ensures value { result ≡ length (bytes_of (shown absent tag (S.held store.now tag))) }
    ensures small { result ≤ 260 }
{
    let mut room = [0u8; 260];
    shown_bytes(store, absent, tag, &mut room).len()
}

// Writes bytes at a place of the buffer.
fn put_at(out: &mut [u8], at: usize, bytes: &[u8])
    requires { at + length bytes.now ≤ length out.old }
    ensures front { take (at + length bytes.now) out.new ≡ take at out.old ++ bytes.now }
    ensures back { drop (at + length bytes.now) out.new ≡ drop (at + length bytes.now) out.old }
{
    let end = at + bytes.len();
    out[at..end].copy_from_slice(bytes);
}

// Writes the object that is shown for a tag at a place of the buffer: the place after it.
fn put_shown<S: ReadStore>(store: &S, absent: Absent, tag: u32, out: &mut [u8], at: usize) -> usize
    requires { at + length (bytes_of (shown absent tag (S.held store.now tag))) ≤ length out.old }
    ensures after { result ≡ at + length (bytes_of (shown absent tag (S.held store.now tag))) }
    ensures front { take result out.new ≡ take at out.old ++ bytes_of (shown absent tag (S.held store.now tag)) }
    ensures back { drop result out.new ≡ drop result out.old }
{
    let mut room = [0u8; 260];
    let object = shown_bytes(store, absent, tag, &mut room);
    put_at(out, at, object);
    at + object.len()
}

// How many bytes the objects that are shown for tags have.
fn sizes_of<S: ReadStore>(store: &S, absent: Absent, tags: &[u32]) -> usize
    requires { length tags.now ≤ 64 }
    ensures { result ≡ sum (map (λ t. length (bytes_of (shown absent t (S.held store.now t)))) tags.now) }
{
    tags.iter().map(|tag| size_of(store, absent, *tag)).sum()
}

// Writes the objects that are shown for tags to the buffer's front. One place in one buffer: the contract tells of the
// whole buffer, and a part cut off in each turn would have to be put together again.
fn put_objects<S: ReadStore>(store: &S, absent: Absent, tags: &[u32], out: &mut [u8])
    requires { length (bytes_of (objects_at absent tags.now (S.held store.now))) ≤ length out.old }
    ensures { out.new ≡ at_front (bytes_of (objects_at absent tags.now (S.held store.now))) out.old }
{
    let mut at = 0;
    for tag in tags {
        at = put_shown(store, absent, *tag, out, at);
    }
}

// Writes the objects that are shown for tags to the buffer's front, the rest unchanged, unless the buffer is short.
pub(crate) fn write_objects<S: ReadStore>(
    store: &S,
    absent: Absent,
    tags: &[u32],
    out: &mut [u8],
) -> Result<usize, ReadoutRefusal>
    requires { length tags.now ≤ 64 }
    ensures answer { result ≡ fit_answer (bytes_of (objects_at absent tags.now (S.held store.now))) (length out.old) }
    ensures after { out.new ≡ write_after result (bytes_of (objects_at absent tags.now (S.held store.now))) out.old }
    ensures reads { ReadsAs result out.new (objects_at absent tags.now (S.held store.now)) }
    ensures only { OnlyAt absent tags.now }
{
    let n = sizes_of(store, absent, tags);
    if out.len() < n {
        return Err(ReadoutRefusal::Short);
    }
    put_objects(store, absent, tags, out);
    Ok(n)
}
