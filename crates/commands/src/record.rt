// READ RECORD.
ghost use Rattle.std.specs.Prelude.{◌≡◌, length, Ok as Built};
ghost use Rattle.commands.specs.Commands.{read_record};
ghost use Rattle.commands.specs.Building.{roomy, told, written};

use crate::instruction::{CommandFault, Instruction};
use keyed::record::Record;

// Writes the command that reads a record; how many bytes it has.
pub fn read_record(record: Record, command: &mut [u8]) -> Result<usize, CommandFault>
    ensures value { result ≡ told (roomy (length command.old) (Built (read_record «record»))) }
    ensures after { command.new ≡ written (roomy (length command.old) (Built (read_record «record»))) command.old }
{
    if command.len() < 261 {
        return Err(CommandFault::ShortBuffer);
    }
    let instruction = Instruction::ReadRecord;
    let file = record.sfi % 32 * 8 + 4;
    command[0..5].copy_from_slice(&[
        instruction.class(),
        instruction.instruction(),
        record.number,
        file,
        0,
    ]);
    Ok(5)
}
