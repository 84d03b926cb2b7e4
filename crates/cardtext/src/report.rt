// What is printed of a text. It is bytes and no `String`, since digits are written behind bytes (`push_hex`).
ghost use Rattle.std.specs.Prelude.{◌≡◌, ◌<◌, ◌++◌, length, IfOk, decimal, OnOk};
ghost use Rattle.hexadecimal.specs.Digits.{shown};
ghost use Rattle.tlv.specs.Series.{meaning};
ghost use Rattle.tlv.specs.Written.{tag_bytes};
ghost use Rattle.cardtext.specs.Report.{EachTold, count_line, fault_line, object_line, object_lines, reading_lines, report_of, tag_digits};

use crate::judgement::{push_entry, push_takings};
use hexadecimal::write::push_hex;
use std::alloc::{AllocError, Global};
use tlv::fault::TextFault;
use tlv::place::Place;
use tlv::text::{ReadRefusal, read_text};

// A number in decimal.
pub fn push_number(out: &mut Vec<u8>, n: usize) -> Result<(), AllocError>
    ensures { OnOk result (out.new.items ≡ out.old.items ++ decimal n) }
{
    let digits = format!(in *out.allocator(); "{n}")?;
    out.extend_from_slice(digits.as_bytes())
}

// A tag, as its bytes.
pub fn push_tag(out: &mut Vec<u8>, tag: u32) -> Result<(), AllocError>
    ensures { OnOk result (out.new.items ≡ out.old.items ++ tag_digits tag) }
{
    let first = match tag {
        0..=0xFF => 3,
        0x100..=0xFFFF => 2,
        _ => 1,
    };
    push_hex(out, &tag.to_be_bytes()[first..])
}

// The line of a primitive object: its place, its tag and its value, and what the dictionary has of the tag.
fn push_object(out: &mut Vec<u8>, text: &[u8], place: &Place) -> Result<(), AllocError>
    ensures items { OnOk result (out.new.items ≡ out.old.items ++ object_line text.now place.now) }
    ensures tag { OnOk result (place.now.tag < 16777216 → tag_digits place.now.tag ≡ shown (tag_bytes place.now.tag)) }
{
    out.extend_from_slice(b"  ")?;
    push_number(out, place.at)?;
    out.extend_from_slice(b" ")?;
    push_tag(out, place.tag)?;
    out.extend_from_slice(b" ")?;
    push_hex(out, place.value_in(text))?;
    out.extend_from_slice(b"  ")?;
    push_entry(out, place.tag)?;
    out.extend_from_slice(b"\n")
}

// A line for each primitive object.
fn push_each(out: &mut Vec<u8>, text: &[u8], places: &[Place]) -> Result<(), AllocError>
    ensures { OnOk result (out.new.items ≡ out.old.items ++ object_lines text.now places.now) }
{
    for place in places {
        push_object(out, text, place)?;
    }
    Ok(())
}

// A line for each primitive object, and their number.
fn push_objects(out: &mut Vec<u8>, text: &[u8], places: &[Place]) -> Result<(), AllocError>
    ensures { OnOk result (out.new.items ≡ out.old.items ++ (object_lines text.now places.now ++ count_line (length places.now))) }
{
    push_each(out, text, places)?;
    let mut count = String::with_capacity(*out.allocator(), 32)?;
    write!(count, "ok {}\n", places.len())?;
    out.extend_from_slice(count.as_bytes())
}

// The line of a fault.
fn push_fault(out: &mut Vec<u8>, fault: TextFault) -> Result<(), AllocError>
    ensures { OnOk result (out.new.items ≡ out.old.items ++ fault_line fault.kind fault.at) }
{
    let mut line = String::with_capacity(*out.allocator(), 48)?;
    write!(line, "fault {} place {}\n", u8::from(fault.kind), fault.at)?;
    out.extend_from_slice(line.as_bytes())
}

// What the reading of a text gives: its objects, their number and how it would be taken, or its fault.
fn push_reading(out: &mut Vec<u8>, text: &[u8]) -> Result<(), AllocError>
    ensures items { OnOk result (out.new.items ≡ out.old.items ++ reading_lines text.now (meaning text.now)) }
    ensures each { OnOk result (EachTold text.now) }
{
    let mut list = [Place::default(); 64];
    match read_text(text, &mut list) {
        Ok(n) => {
            push_objects(out, text, &list[..n])?;
            push_takings(out, text, &mut list)
        }
        Err(ReadRefusal::Fault(fault)) => push_fault(out, fault),
        // The work list above is long enough.
        Err(ReadRefusal::ListShort) => unreachable!(),
    }
}

// The lines that are printed of a text.
pub fn of_text(heap: Global, text: &[u8]) -> Result<Vec<u8>, AllocError>
    ensures items { IfOk result (λ told. told.items ≡ report_of text.now) }
    ensures each { OnOk result (EachTold text.now) }
{
    let mut out = Vec::new(heap);
    out.extend_from_slice(b"text ")?;
    push_hex(&mut out, text)?;
    out.extend_from_slice(b"\n")?;
    push_reading(&mut out, text)?;
    Ok(out)
}
