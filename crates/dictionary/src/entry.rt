// An entry of the dictionary, and which values may be held under it.
ghost use Rattle.std.specs.Prelude.{◌≡◌, ◌/◌, ◌%◌, ◌&&◌, ◌||◌, ◌==◌, drop, nat_lt};
ghost use Rattle.std.specs.List.{prefix_len};
ghost use Rattle.dictionary.specs.Checks.{fits_length, fits_format, halves, all_digits, only_f, digits_then_f};

// The format of a value.
#[derive(Clone, Copy, Debug, PartialEq, Eq)]
pub enum Format {
    // n: decimal digits, two a byte
    Numeric,
    // cn: decimal digits, two a byte, and then only 'F' half-bytes to the end
    CompressedNumeric,
    // an: unchecked
    Alphanumeric,
    // ans: unchecked
    AlphanumericSpecial,
    // b: unchecked
    Binary,
}

// Who writes an object.
#[derive(Clone, Copy, Debug, PartialEq, Eq)]
pub enum Writer {
    // the configuration, at opening
    Configuration,
    // the terminal, until a sale has begun
    TerminalBeforeBegin,
    // the terminal, at any time
    Terminal,
    // the card, by its answers
    Card,
    // the reader itself
    Reader,
}

// A tag, the least and the most bytes of a value that is not empty, the format and the writer.
#[derive(Clone, Copy, Debug, PartialEq, Eq)]
pub struct Entry {
    pub tag: u32,
    pub least: u8,
    pub most: u8,
    pub format: Format,
    pub writer: Writer,
}

impl Entry {
    // Whether a value of `len` bytes may be held: an empty one always.
    pub fn fits_length(&self, len: usize) -> bool
        ensures { result ≡ fits_length self.now len }
    {
        len == 0 || (usize::from(self.least)..=usize::from(self.most)).contains(&len)
    }

    // Whether the value has the digits that the format asks for.
    pub fn fits_format(&self, value: &[u8]) -> bool
        ensures { result ≡ fits_format self.now.format value.now }
    {
        match self.format {
            Format::Numeric => is_numeric(value),
            Format::CompressedNumeric => is_compressed(value),
            Format::Alphanumeric | Format::AlphanumericSpecial | Format::Binary => true,
        }
    }
}

// Whether both half-bytes of a byte are decimal digits.
fn is_two_digits(byte: u8) -> bool
    ensures { result ≡ (nat_lt (byte / 16) 10 && nat_lt (byte % 16) 10) }
{
    byte / 16 < 10 && byte % 16 < 10
}

// Whether both half-bytes of a byte are 'F'.
fn is_full(byte: u8) -> bool
    ensures { result ≡ (byte / 16 == 15 && byte % 16 == 15) }
{
    byte / 16 == 15 && byte % 16 == 15
}

// Whether a byte ends the digits: a digit or 'F', and then 'F'.
fn ends_digits(byte: u8) -> bool
    ensures { result ≡ ((nat_lt (byte / 16) 10 || byte / 16 == 15) && byte % 16 == 15) }
{
    (byte / 16 < 10 || byte / 16 == 15) && byte % 16 == 15
}

// Whether each half-byte is a decimal digit.
fn is_numeric(value: &[u8]) -> bool
    ensures { result ≡ all_digits (halves value.now) }
{
    value.iter().all(|byte| is_two_digits(*byte))
}

// Whether each half-byte is 'F'.
fn is_padding(value: &[u8]) -> bool
    ensures { result ≡ only_f (halves value.now) }
{
    value.iter().all(|byte| is_full(*byte))
}

// What stands behind the bytes of two digits.
fn without_digits(value: &[u8]) -> &[u8]
    ensures { result.now ≡ drop (prefix_len (λ b. nat_lt (b / 16) 10 && nat_lt (b % 16) 10) value.now) value.now }
{
    let digits = value
        .iter()
        .take_while(|byte| is_two_digits(**byte))
        .count();
    &value[digits..]
}

// Whether the half-bytes are decimal digits and then only 'F'. Byte by byte: an iterator of half-bytes took three times as
// long.
fn is_compressed(value: &[u8]) -> bool
    ensures { result ≡ digits_then_f (halves value.now) }
{
    match without_digits(value) {
        [first, rest @ ..] => ends_digits(*first) && is_padding(rest),
        [] => true,
    }
}
