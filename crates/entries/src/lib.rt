// What the stores in the caller's memory share: a list of entries as a map, and copying a value out.
#![tactic(auto)]

ghost use Rattle.std.specs.Prelude.{◌≡◌, length, Some};
ghost use Rattle.store.specs.Answer.{copy_answer, copy_after};

use store::reading::NotCopied;

// Copies a held value into the buffer's front, unless the buffer is shorter; how many bytes it is.
pub fn copy_to_front(value: &[u8], out: &mut [u8]) -> Result<usize, NotCopied>
    ensures answer { result ≡ copy_answer (Some value.now) (length out.old) }
    ensures after { out.new ≡ copy_after (Some value.now) out.old }
{
    let n = value.len();
    if out.len() < n {
        return Err(NotCopied::Short);
    }
    out[0..n].copy_from_slice(value);
    Ok(n)
}
