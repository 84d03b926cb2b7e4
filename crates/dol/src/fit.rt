// A value at the length that a list asks for.
ghost use Rattle.std.specs.Prelude.{◌≡◌, length, replicate};
ghost use Rattle.dol.specs.Fit.{from_right, from_left, fitted};

use dictionary::entry::Format;

// Fills all of `out` with one byte.
pub(crate) fn pad_with(out: &mut [u8], pad: u8)
    ensures { out.new ≡ replicate (length out.old) pad }
{
    out.fill(pad);
}

// The value's left part, and the pad behind it where it is too short.
fn fit_left(value: &[u8], pad: u8, out: &mut [u8])
    ensures { out.new ≡ from_left pad value.now (length out.old) }
{
    let n = value.len().min(out.len());
    out[0..n].copy_from_slice(&value[0..n]);
    pad_with(&mut out[n..], pad);
}

// The value's right part, and '00' in front of it where it is too short.
fn fit_right(value: &[u8], out: &mut [u8])
    ensures { out.new ≡ from_right value.now (length out.old) }
{
    let n = value.len().min(out.len());
    let gap = out.len() - n;
    pad_with(&mut out[0..gap], 0);
    out[gap..].copy_from_slice(&value[value.len() - n..]);
}

// Writes a value to all of `out`, cut or padded as its format asks.
pub fn fit(format: Format, value: &[u8], out: &mut [u8])
    ensures { out.new ≡ fitted format value.now (length out.old) }
{
    match format {
        Format::Numeric => fit_right(value, out),
        Format::CompressedNumeric => fit_left(value, 0xFF, out),
        Format::Alphanumeric | Format::AlphanumericSpecial | Format::Binary => {
            fit_left(value, 0, out)
        }
    }
}
