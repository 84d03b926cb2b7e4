// A call of a sale as a value.
ghost use Rattle.std.specs.Prelude.{◌≡◌, ◌≤◌, length, IfOk, Err};
ghost use Rattle.run.specs.Law.{Roomy, Does, Lawful};
ghost use Rattle.reader.specs.Meanings.{meaning, told, buffered, step_length};
ghost use Rattle.isolation.specs.Asked.{meant};

use reader::reader::{Reader, Step};
use run::refusal::Refusal;
use store::writing::WriteStore;
use tlv::place::Place;

// A call, with the bytes that it brings. A value and not a closure: the law speaks of lists of calls and of what each brings.
#[derive(Clone, Copy, PartialEq, Eq, Debug)]
pub enum Call<'a> {
    Write(&'a [u8]),
    Begin(&'a [u8]),
    Answer(&'a [u8]),
    LinkFault(u8),
    Stop,
    Clear,
}

// A call, and how much of the command buffer and of the work list is lent to it, as far as there is so much.
#[derive(Clone, Copy, PartialEq, Eq, Debug)]
pub struct Asked<'a> {
    pub call: Call<'a>,
    pub buffer: usize,
    pub list: usize,
}

// Makes a call of a reader.
pub fn make_call<S: WriteStore>(
    reader: &mut Reader<S>,
    call: Call,
    buffer: &mut [u8],
    list: &mut [Place],
) -> Result<Step, Refusal>
    ensures does { Roomy (meaning S.ReadStore reader.old) → Does (meaning S.ReadStore reader.old) (meant (length buffer.old) (length list.old) call.entry) (told result buffer.new) (meaning S.ReadStore reader.new) }
    ensures law { Lawful (meaning S.ReadStore reader.old) (meant (length buffer.old) (length list.old) call.entry) (told result buffer.new) (meaning S.ReadStore reader.new) }
    ensures refused { (e : Refusal) → result ≡ Err e → meaning S.ReadStore reader.new ≡ meaning S.ReadStore reader.old }
    ensures rest { buffer.new ≡ buffered (told result buffer.new) buffer.old }
    ensures fits { IfOk result (λ s. step_length s ≤ length buffer.old) }
{
    match call {
        Call::Write(text) => reader.write(text, list),
        Call::Begin(fci) => reader.begin(fci, buffer, list),
        Call::Answer(bytes) => reader.answer(bytes, buffer, list),
        Call::LinkFault(code) => reader.link_fault(code),
        Call::Stop => reader.stop(),
        Call::Clear => reader.clear(),
    }
}
