// Decimal numbers.
ghost use Rattle.std.specs.Prelude.{◌≡◌, ◌≤◌, length};
ghost use Rattle.lines.specs.Numbers.{read_on, number_in, byte_in, all_digits};

// The number that up to nine digits write; none if a byte is no digit. Not `parse`, which takes a sign too.
fn read_digits(digits: &[u8]) -> Option<usize>
    requires { length digits.now ≤ 9 }
    ensures { result ≡ read_on 0 digits.now }
{
    let mut n = 0;
    for d in digits {
        n = n * 10 + char::from(*d).to_digit(10)? as usize;
    }
    Some(n)
}

// The number that a word of one to nine digits stands for.
pub fn number(word: &str) -> Option<usize>
    ensures { result ≡ number_in word.now }
{
    let digits = word.as_bytes();
    if digits.is_empty() || digits.len() > 9 {
        return None;
    }
    read_digits(digits)
}

// The number that a word stands for, as a byte: 255 in the place of a larger one.
pub fn byte_number(word: &str) -> Option<u8>
    ensures { result ≡ byte_in (number_in word.now) }
{
    number(word).map(|n| u8::try_from(n).unwrap_or(u8::MAX))
}

// Whether a word has digits 0 to 9 alone.
pub(crate) fn is_decimal(word: &str) -> bool
    ensures { result ≡ all_digits word.now }
{
    word.as_bytes().iter().all(|b| b.is_ascii_digit())
}
