// After the FCI.
ghost use Rattle.std.specs.Prelude.{◌≡◌, ℕ, ◌≤◌, [], length, drop, IfOk, nat_lt};
ghost use Rattle.std.specs.Result.{result_err};
ghost use Rattle.store.specs.Map.{Map};
ghost use Rattle.run.specs.declared.fault.Cause.TheVariants.{WrongSize};
ghost use Rattle.run.specs.Run.{unless, cause_if, card_text, longest_fci, begins, after_fci};
ghost use Rattle.stages.specs.Nexts.{course_of, command_length, IsOptions};

use crate::ask::ask_options;
use crate::next::Next;
use run::fault::Cause;
use store::reading::ReadStore;

// An FCI has at most 256 bytes.
fn check_size(fci: &[u8]) -> Result<(), Cause>
    ensures { result_err result ≡ cause_if (nat_lt longest_fci (length fci.now)) WrongSize }
{
    if fci.len() > 256 {
        return Err(Cause::WrongSize);
    }
    Ok(())
}

// What is wrong with an FCI before it is taken as a text of the card's.
pub fn check_fci(fci: &[u8]) -> Result<(), Cause>
    ensures { (share : ℕ) (held : Map) → unless (result_err result) held (card_text 0x6F share held fci.now after_fci) ≡ begins share held fci.now }
{
    check_size(fci)
}

// GET PROCESSING OPTIONS. The command buffer has at least 261 bytes.
pub fn after_fci<S: ReadStore>(store: &S, buffer: &mut [u8]) -> Result<Next, Cause>
    ensures course { 261 ≤ length buffer.old → (brought : Map) → course_of result buffer.new [] (S.ReadStore.held store.now) ≡ after_fci (S.ReadStore.held store.now) brought }
    ensures rest { drop (command_length result) buffer.new ≡ drop (command_length result) buffer.old }
    ensures fits { command_length result ≤ length buffer.old }
    ensures shape { IfOk result (IsOptions) }
{
    let command = ask_options(store, buffer)?;
    Ok(Next::Options { command })
}
