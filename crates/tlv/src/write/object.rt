// Writes objects.
ghost use Rattle.std.specs.Prelude.{◌≡◌, ◌<◌, ◌≤◌, true, ◌++◌, length, take, drop, if◌then◌else◌, nat_lt, IfOk, OnOk, OnErr, Ok, Err};
ghost use Rattle.std.specs.Int.{to_be_bytes, w32};
ghost use Rattle.tlv.specs.declared.write.WriteRefusal.TheVariants.{Short};
ghost use Rattle.tlv.specs.Written.{is_tag, tag_bytes, at_front, write_answer, write_after, ReadsBack};

use super::WriteRefusal;

// Whether a number is that of a tag.
fn is_tag(tag: u32) -> bool
    ensures value { result ≡ is_tag tag }
    ensures small { result ≡ true → tag < 16777216 }
{
    if tag < 0x100 {
        return tag != 0 && tag & 0x1f != 0x1f;
    }
    if tag < 0x1_0000 {
        return tag / 0x100 & 0x1f == 0x1f && tag % 0x100 < 0x80;
    }
    tag < 0x100_0000
        && tag / 0x1_0000 & 0x1f == 0x1f
        && tag / 0x100 % 0x100 >= 0x80
        && tag % 0x100 < 0x80
}

// The place of a tag's first byte among the four bytes of its number.
fn first_place(tag: u32) -> usize
    requires { tag < 16777216 }
    ensures place { drop result (to_be_bytes w32 tag) ≡ tag_bytes tag }
    ensures within { (1 ≤ result) × (result ≤ 3) }
{
    if tag < 0x100 {
        3
    } else if tag < 0x1_0000 {
        2
    } else {
        1
    }
}

// Writes the bytes of a tag, of a length and of a value to the buffer's front, unless the buffer is short; how many they
// are.
fn put_front(tag: &[u8], len: &[u8], value: &[u8], out: &mut [u8]) -> Result<usize, WriteRefusal>
    requires { (length tag.now ≤ 3) × (length len.now ≤ 2) × (length value.now ≤ 255) }
    ensures answer { result ≡ if nat_lt (length out.old) (length ((tag.now ++ len.now) ++ value.now)) then Err Short else Ok (length ((tag.now ++ len.now) ++ value.now)) }
    ensures written { OnOk result (out.new ≡ at_front ((tag.now ++ len.now) ++ value.now) out.old) }
    ensures refused { OnErr result (out.new ≡ out.old) }
{
    let head = tag.len() + len.len();
    let size = head + value.len();
    if out.len() < size {
        return Err(WriteRefusal::Short);
    }
    out[0..tag.len()].copy_from_slice(tag);
    out[tag.len()..head].copy_from_slice(len);
    out[head..size].copy_from_slice(value);
    Ok(size)
}

// Writes an object to the buffer's front, unless the buffer is short.
fn put_object(tag: u32, value: &[u8], out: &mut [u8]) -> Result<usize, WriteRefusal>
    requires tag { is_tag tag ≡ true }
    requires small { tag < 16777216 }
    requires short { length value.now ≤ 255 }
    ensures answer { result ≡ write_answer tag value.now (length out.old) }
    ensures after { out.new ≡ write_after result tag value.now out.old }
    ensures back { IfOk result (λ n. ReadsBack tag value.now (take n out.new)) }
{
    let bytes = tag.to_be_bytes();
    let tag_bytes = &bytes[first_place(tag)..];
    let n = value.len() as u8;
    if n < 0x80 {
        put_front(tag_bytes, &[n], value, out)
    } else {
        put_front(tag_bytes, &[0x81, n], value, out)
    }
}

// Writes an object to the buffer's front, the rest unchanged; how many bytes it has.
pub fn write_object(tag: u32, value: &[u8], out: &mut [u8]) -> Result<usize, WriteRefusal>
    ensures answer { result ≡ write_answer tag value.now (length out.old) }
    ensures after { out.new ≡ write_after result tag value.now out.old }
    ensures back { IfOk result (λ n. ReadsBack tag value.now (take n out.new)) }
{
    if !is_tag(tag) {
        return Err(WriteRefusal::NoTag);
    }
    if value.len() > 255 {
        return Err(WriteRefusal::TooLong);
    }
    put_object(tag, value, out)
}
