// After the answer to GET PROCESSING OPTIONS.
ghost use Rattle.std.specs.Prelude.{◌≡◌, ◌≤◌, length, drop, IfOk};
ghost use Rattle.std.specs.Result.{result_err};
ghost use Rattle.store.specs.Map.{Map, empty};
ghost use Rattle.keeping.specs.Keeping.{stored};
ghost use Rattle.commands.specs.Commands.{bytes};
ghost use Rattle.afl.specs.Afl.{records_of};
ghost use Rattle.run.specs.Run.{unless, first_record, after_options};
ghost use Rattle.stages.specs.Nexts.{course_of, command_length, IsFirst};

use crate::ask::ask_first;
use crate::brought::brought;
use crate::missing::{first_not_brought, none_missing};
use crate::next::Next;
use afl::locator::read_afl;
use keyed::record::Record;
use run::fault::Cause;
use tlv::place::Place;

// The answer must itself bring values of 82 and 94.
fn check_brought(text: &[u8], places: &[Place]) -> Result<(), Cause>
    ensures { (held : Map) → unless (result_err result) held (first_record held (records_of (bytes (stored text.now places.now empty 0x94)))) ≡ after_options held (stored text.now places.now empty) }
{
    none_missing(first_not_brought(text, places, &[0x82, 0x94]))
}

// READ RECORD for the first record that an AFL names.
fn ask_located(afl: &[u8], records: &mut [Record; 64], buffer: &mut [u8]) -> Result<Next, Cause>
    ensures course { 261 ≤ length buffer.old → (held : Map) → course_of result buffer.new records.new held ≡ first_record held (records_of afl.now) }
    ensures rest { drop (command_length result) buffer.new ≡ drop (command_length result) buffer.old }
    ensures fits { command_length result ≤ length buffer.old }
    ensures shape { IfOk result IsFirst }
{
    let count = read_afl(afl, records)?;
    if count == 0 {
        return Err(Cause::BadFileLocator);
    }
    ask_first(records[0], count, buffer)
}

// READ RECORD for the first record of the AFL, whose records go to the front of the array. The command buffer has at
// least 261 bytes.
pub fn after_options(
    text: &[u8],
    places: &[Place],
    records: &mut [Record; 64],
    buffer: &mut [u8],
) -> Result<Next, Cause>
    ensures course { 261 ≤ length buffer.old → (held : Map) → course_of result buffer.new records.new held ≡ after_options held (stored text.now places.now empty) }
    ensures rest { drop (command_length result) buffer.new ≡ drop (command_length result) buffer.old }
    ensures fits { command_length result ≤ length buffer.old }
    ensures shape { IfOk result IsFirst }
{
    check_brought(text, places)?;
    ask_located(brought(text, places, 0x94), records, buffer)
}
