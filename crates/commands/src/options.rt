// GET PROCESSING OPTIONS.
ghost use Rattle.std.specs.Prelude.{◌≡◌, ◌≤◌, length};
ghost use Rattle.dol.specs.Dol.{dol_data};
ghost use Rattle.commands.specs.Commands.{on_data, get_options, options_command};
ghost use Rattle.commands.specs.Building.{roomy, told, written};
ghost use Rattle.commands.specs.Laws.{OptionsNamed};

use crate::instruction::{CommandFault, Instruction};
use crate::value::value_in;
use crate::write::write_around;
use dol::size::dol_size;
use store::reading::ReadStore;

const PDOL: u32 = 0x9F38;

// Writes the command with the data of a list.
fn options_with<S: ReadStore>(
    store: &S,
    pdol: &[u8],
    command: &mut [u8],
) -> Result<usize, CommandFault>
    requires { 261 ≤ length command.old }
    ensures value { result ≡ told (on_data CommandFault.List get_options (dol_data (S.held store.now) 252 pdol.now)) }
    ensures after { command.new ≡ written (on_data CommandFault.List get_options (dol_data (S.held store.now) 252 pdol.now)) command.old }
{
    let size = dol_size(pdol, 252).map_err(|_| CommandFault::List)?;
    let instruction = Instruction::GetProcessingOptions;
    let class = instruction.class();
    let code = instruction.instruction();
    let n = size as u8;
    if size < 128 {
        let header = [class, code, 0, 0, n + 2, 0x83, n];
        return Ok(write_around(store, &header, pdol, size, command));
    }
    let header = [class, code, 0, 0, n + 3, 0x83, 0x81, n];
    Ok(write_around(store, &header, pdol, size, command))
}

// Writes the command for what is held; how many bytes it has.
#[tactic(auto, using(crate::proofs::Named::options_named), unfolding(crate::specs::Commands::options_command))]
pub fn get_processing_options<S: ReadStore>(
    store: &S,
    command: &mut [u8],
) -> Result<usize, CommandFault>
    ensures value { result ≡ told (roomy (length command.old) (options_command (S.held store.now))) }
    ensures after { command.new ≡ written (roomy (length command.old) (options_command (S.held store.now))) command.old }
    ensures law { OptionsNamed (S.held store.now) }
{
    if command.len() < 261 {
        return Err(CommandFault::ShortBuffer);
    }
    let mut buffer = [0u8; 255];
    let pdol = value_in(store, PDOL, &mut buffer);
    options_with(store, pdol, command)
}
