// Writes hexadecimal digits.
ghost use Rattle.std.specs.Prelude.{◌≡◌, ◌/◌, ◌%◌, ◌<◌, [], ◌∷◌, ◌++◌, length, Some, OnOk};
ghost use Rattle.hexadecimal.specs.Digits.{bytes_of, digit, shown, written};

use std::alloc::AllocError;

// The digit of a value below 16. Not `char::from_digit`, which gives the lower case.
fn digit(d: u8) -> u8
    requires { d < 16 }
    ensures { result ≡ digit d }
{
    if d < 10 { b'0' + d } else { b'A' - 10 + d }
}

// Writes the two digits of a byte behind what `out` holds.
fn push_byte(out: &mut Vec<u8>, b: u8) -> Result<(), AllocError>
    ensures { OnOk result (out.new.items ≡ (out.old.items ++ digit (b / 16) ∷ []) ++ digit (b % 16) ∷ []) }
{
    out.push(digit(b / 16))?;
    out.push(digit(b % 16))?;
    Ok(())
}

// Writes the digits of bytes behind what `out` holds; they read back as the bytes.
fn push_bytes(out: &mut Vec<u8>, bytes: &[u8]) -> Result<(), AllocError>
    ensures items { OnOk result (out.new.items ≡ out.old.items ++ shown bytes.now) }
    ensures back { OnOk result (bytes_of (shown bytes.now) ≡ Some bytes.now) }
{
    for b in bytes {
        push_byte(out, *b)?;
    }
    Ok(())
}

// Writes bytes as hexadecimal digits behind what `out` holds, and `-` for no bytes. Digits read back as the bytes.
pub fn push_hex(out: &mut Vec<u8>, bytes: &[u8]) -> Result<(), AllocError>
    ensures items { OnOk result (out.new.items ≡ out.old.items ++ written bytes.now) }
    ensures back { OnOk result (0 < length bytes.now → bytes_of (shown bytes.now) ≡ Some bytes.now) }
{
    if bytes.is_empty() {
        out.push(b'-')?;
        return Ok(());
    }
    push_bytes(out, bytes)
}
