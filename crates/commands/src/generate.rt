// GENERATE AC.
ghost use Rattle.std.specs.Prelude.{◌≡◌, ◌≤◌, length};
ghost use Rattle.dol.specs.Dol.{dol_data};
ghost use Rattle.commands.specs.Commands.{on_data, generate_ac, generate_command};
ghost use Rattle.commands.specs.Building.{roomy, told, written};
ghost use Rattle.commands.specs.Laws.{GenerateNamed};

use crate::instruction::{CommandFault, Instruction};
use crate::value::value_in;
use crate::write::write_around;
use decision::cryptogram::Cryptogram;
use dol::size::dol_size;
use store::reading::ReadStore;

const CDOL1: u32 = 0x8C;

const DEFAULT_CDOL1: u32 = 0xDF_856C;

// Writes the command with the data of a list; `fault` tells that the list is faulty.
fn generate_with<S: ReadStore>(
    store: &S,
    kind: Cryptogram,
    cdol1: &[u8],
    fault: CommandFault,
    command: &mut [u8],
) -> Result<usize, CommandFault>
    requires { 261 ≤ length command.old }
    ensures value { result ≡ told (on_data fault (generate_ac kind) (dol_data (S.held store.now) 255 cdol1.now)) }
    ensures after { command.new ≡ written (on_data fault (generate_ac kind) (dol_data (S.held store.now) 255 cdol1.now)) command.old }
{
    let size = dol_size(cdol1, 255).map_err(|_| fault)?;
    let instruction = Instruction::GenerateAc;
    let header = [
        instruction.class(),
        instruction.instruction(),
        kind.parameter(),
        0,
        size as u8,
    ];
    if size == 0 {
        command[0..5].copy_from_slice(&header);
        return Ok(5);
    }
    Ok(write_around(store, &header, cdol1, size, command))
}

// Writes the command for a kind of cryptogram and what is held; how many bytes it has.
#[tactic(auto, using(crate::proofs::Named::generate_named), unfolding(crate::specs::Commands::generate_command))]
pub fn generate_ac<S: ReadStore>(
    store: &S,
    kind: Cryptogram,
    command: &mut [u8],
) -> Result<usize, CommandFault>
    ensures value { result ≡ told (roomy (length command.old) (generate_command kind (S.held store.now))) }
    ensures after { command.new ≡ written (roomy (length command.old) (generate_command kind (S.held store.now))) command.old }
    ensures law { GenerateNamed kind (S.held store.now) }
{
    if command.len() < 261 {
        return Err(CommandFault::ShortBuffer);
    }
    let mut buffer = [0u8; 255];
    let cdol1 = value_in(store, CDOL1, &mut buffer);
    if !cdol1.is_empty() {
        return generate_with(store, kind, cdol1, CommandFault::List, command);
    }
    let mut buffer = [0u8; 255];
    let cdol1 = value_in(store, DEFAULT_CDOL1, &mut buffer);
    generate_with(store, kind, cdol1, CommandFault::DefaultList, command)
}
