// Commands, and the causes where one is not built.
ghost use Rattle.std.specs.Prelude.{◌≡◌, ◌≤◌, List, length, take, drop, IfOk};
ghost use Rattle.store.specs.Map.{Map};
ghost use Rattle.commands.specs.Commands.{read_record, generate_command};
ghost use Rattle.run.specs.State.{Phase, awaits_options, awaits_cryptogram};
ghost use Rattle.run.specs.Run.{hands_out, generates, after_fci};
ghost use Rattle.stages.specs.Nexts.{awaiting, course_of, command_length, handed, length_of, IsRecord};

use crate::next::Next;
use commands::generate::generate_ac;
use commands::options::get_processing_options;
use commands::record::read_record;
use decision::cryptogram::Cryptogram;
use keyed::record::Record;
use run::fault::Cause;
use store::reading::ReadStore;

// GET PROCESSING OPTIONS for what is held.
pub(crate) fn ask_options<S: ReadStore>(store: &S, buffer: &mut [u8]) -> Result<usize, Cause>
    ensures course { 261 ≤ length buffer.old → (brought : Map) → handed result buffer.new awaits_options (S.ReadStore.held store.now) ≡ after_fci (S.ReadStore.held store.now) brought }
    ensures rest { drop (length_of result) buffer.new ≡ drop (length_of result) buffer.old }
    ensures fits { length_of result ≤ length buffer.old }
{
    Ok(get_processing_options(store, buffer)?)
}

// READ RECORD.
pub(crate) fn ask_record(file: Record, buffer: &mut [u8]) -> Result<usize, Cause>
    ensures course { 261 ≤ length buffer.old → (phase : Phase) (held : Map) → handed result buffer.new phase held ≡ hands_out (read_record file) phase held }
    ensures rest { drop (length_of result) buffer.new ≡ drop (length_of result) buffer.old }
    ensures fits { length_of result ≤ length buffer.old }
{
    Ok(read_record(file, buffer)?)
}

// GENERATE AC for a cryptogram and what is held.
pub(crate) fn ask_cryptogram<S: ReadStore>(
    store: &S,
    requested: Cryptogram,
    buffer: &mut [u8],
) -> Result<usize, Cause>
    ensures course { 261 ≤ length buffer.old → handed result buffer.new (awaits_cryptogram requested) (S.ReadStore.held store.now) ≡ generates requested (S.ReadStore.held store.now) (generate_command requested (S.ReadStore.held store.now)) }
    ensures rest { drop (length_of result) buffer.new ≡ drop (length_of result) buffer.old }
    ensures fits { length_of result ≤ length buffer.old }
{
    Ok(generate_ac(store, requested, buffer)?)
}

// READ RECORD for the first of so many records left to be read.
pub(crate) fn ask_first(first: Record, left: usize, buffer: &mut [u8]) -> Result<Next, Cause>
    ensures course { 261 ≤ length buffer.old → (records : List Record) (held : Map) → course_of result buffer.new records held ≡ hands_out (read_record first) (awaiting (take left records)) held }
    ensures rest { drop (command_length result) buffer.new ≡ drop (command_length result) buffer.old }
    ensures fits { command_length result ≤ length buffer.old }
    ensures shape { IfOk result (IsRecord left) }
{
    let command = ask_record(first, buffer)?;
    Ok(Next::Record { command, left })
}
