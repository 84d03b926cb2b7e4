// What the two commands with data have in common.
ghost use Rattle.std.specs.Prelude.{◌≡◌, ◌+◌, ◌<◌, length, Ok as Sized};
ghost use Rattle.dol.specs.Dol.{entries, size_of, dol_data};
ghost use Rattle.commands.specs.Building.{framed};

use dol::fill::fill;
use store::reading::ReadStore;

// Writes the header, the data that a list asks for, and '00'; how many bytes they are.
pub(crate) fn write_around<S: ReadStore>(
    store: &S,
    header: &[u8],
    dol: &[u8],
    size: usize,
    command: &mut [u8],
) -> usize
    requires sized { size_of size (entries dol.now) ≡ Sized size }
    requires room { length header.now + size < length command.old }
    ensures value { result ≡ length header.now + size + 1 }
    ensures after { command.new ≡ framed header.now (dol_data (S.held store.now) size dol.now) command.old }
{
    let start = header.len();
    let end = start + size;
    command[0..start].copy_from_slice(header);
    let _ = fill(store, dol, &mut command[start..end]);
    command[end] = 0;
    end + 1
}
