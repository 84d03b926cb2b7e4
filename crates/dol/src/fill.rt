// The data that a list asks for.
ghost use Rattle.std.specs.Prelude.{◌≡◌, length};
ghost use Rattle.dol.specs.Dol.{data_for, entries, size_of, dol_data, filled};
ghost use Rattle.dol.specs.Steps.{Room};
ghost use Rattle.dol.specs.Laws.{Lawful};

use crate::fit::{fit, pad_with};
use crate::size::{DolFault, dol_size, first_entry};
use dictionary::find::Known;
use store::reading::ReadStore;

// The bytes for one entry of a list: zeros where the tag is unknown, not held or empty.
fn fill_entry<S: ReadStore>(store: &S, tag: u32, out: &mut [u8])
    ensures { out.new ≡ data_for (S.held store.now) tag (length out.old) }
{
    let Some(known) = Known::look_up(tag) else {
        return pad_with(out, 0);
    };
    let mut value = [0u8; 255];
    let n = store.copy_out(known.tag, &mut value).unwrap_or(0);
    if n == 0 {
        return pad_with(out, 0);
    }
    fit(known.entry.format, &value[0..n], out);
}

// Writes the data to the front of `out`, entry by entry. A place in the whole buffer: with the parts of `split_at_mut` it
// was not proved what the whole buffer holds at the end.
fn fill_entries<S: ReadStore>(store: &S, dol: &[u8], out: &mut [u8])
    requires { Room 0 (entries dol.now) (length out.old) }
    ensures { out.new ≡ filled (dol_data (S.held store.now) (length out.old) dol.now) out.old }
{
    let mut rest = dol;
    let mut at = 0;
    while let Some(head) = first_entry(rest) {
        let end = at + usize::from(head.size);
        fill_entry(store, head.tag, &mut out[at..end]);
        at = end;
        rest = head.rest;
    }
}

// Writes the data that a list asks for to the front of `out`, and tells how many bytes there are. A list that is faulty,
// or asks for more than `out` has, leaves `out` as it was.
pub fn fill<S: ReadStore>(store: &S, dol: &[u8], out: &mut [u8]) -> Result<usize, DolFault>
    ensures value { result ≡ size_of (length out.old) (entries dol.now) }
    ensures after { out.new ≡ filled (dol_data (S.held store.now) (length out.old) dol.now) out.old }
    ensures law { Lawful dol.now }
{
    let size = dol_size(dol, out.len())?;
    fill_entries(store, dol, out);
    Ok(size)
}
