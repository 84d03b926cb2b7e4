// Reads hexadecimal digits.
ghost use Rattle.std.specs.Prelude.{◌≡◌, ◌<◌, IfSome, IfOk, vec_items};
ghost use Rattle.std.specs.Option.{option_map};
ghost use Rattle.hexadecimal.specs.Digits.{is_blank, digit_of, bytes_of};

use std::alloc::{AllocError, Global};

// Whether a character is a blank.
pub fn is_blank(c: u8) -> bool
    ensures { result ≡ is_blank c }
{
    matches!(c, b' ' | b'\t' | b'\r')
}

// The value of a digit.
fn digit_of(c: u8) -> Option<u8>
    ensures value { result ≡ digit_of c }
    ensures small { IfSome result (λ d. d < 16) }
{
    char::from(c).to_digit(16).map(|d| d as u8)
}

// The bytes of a text of hexadecimal digits; none if it is no such text.
pub fn bytes_of(heap: Global, text: &[u8]) -> Result<Option<Vec<u8>>, AllocError>
    ensures { IfOk result (λ o. option_map vec_items o ≡ bytes_of text.now) }
{
    let mut bytes = Vec::new(heap);
    // A first digit that waits for the second.
    let mut half = None;
    for c in text {
        if is_blank(*c) {
            continue;
        }
        // An `Option` inside a `Result` that allocates has no `?` of its own.
        let Some(digit) = digit_of(*c) else {
            return Ok(None);
        };
        half = match half {
            None => Some(digit),
            Some(high) => {
                bytes.push(high * 16 + digit)?;
                None
            }
        };
    }
    match half {
        None => Ok(Some(bytes)),
        Some(_) => Ok(None),
    }
}
