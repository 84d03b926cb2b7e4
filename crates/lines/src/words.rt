// Words of a line that stand for bytes and tags.
ghost use Rattle.std.specs.Prelude.{◌≡◌, ◌==◌, IfSome, IfOk, drop, vec_items, string_bytes};
ghost use Rattle.std.specs.Option.{option_map};
ghost use Rattle.std.specs.List.{prefix_len};
ghost use Rattle.hexadecimal.specs.Digits.{written};
ghost use Rattle.lines.specs.Words.{dash, word_bytes, tag_in, sized, one_byte, kind_word, tag_word};

use decision::cryptogram::Cryptogram;
use hexadecimal::read;
use hexadecimal::write::push_hex;
use keyed::tag::Tag;
use std::alloc::{AllocError, Global};

// The bytes that a word stands for: hexadecimal digits, or `-` for no bytes.
pub fn bytes_of(heap: Global, word: &str) -> Result<Option<Vec<u8>>, AllocError>
    ensures { IfOk result (λ o. option_map vec_items o ≡ word_bytes word.now) }
{
    if word == "-" {
        Ok(Some(Vec::new(heap)))
    } else {
        read::bytes_of(heap, word.as_bytes())
    }
}

// The tag that a word of one to three bytes stands for.
pub fn tag_of(heap: Global, word: &str) -> Result<Option<Tag>, AllocError>
    ensures { IfOk result (λ o. option_map (λ (t : Tag). t.value) o ≡ tag_in (word_bytes word.now)) }
{
    // An `Option` inside a `Result` that allocates has no `?` of its own.
    let Some(bytes) = bytes_of(heap, word)? else {
        return Ok(None);
    };
    let number = match bytes.as_slice() {
        [a] => u32::from_be_bytes([0, 0, 0, *a]),
        [a, b] => u32::from_be_bytes([0, 0, *a, *b]),
        [a, b, c] => u32::from_be_bytes([0, *a, *b, *c]),
        _ => return Ok(None),
    };
    Ok(Tag::new(number))
}

// The bytes that a word stands for, if it stands for so many.
pub fn exactly(heap: Global, word: &str, n: usize) -> Result<Option<Vec<u8>>, AllocError>
    ensures { IfOk result (λ o. option_map vec_items o ≡ sized n (word_bytes word.now)) }
{
    Ok(bytes_of(heap, word)?.filter(|bytes| bytes.len() == n))
}

// The one byte that a word stands for.
pub fn byte_of(heap: Global, word: &str) -> Result<Option<u8>, AllocError>
    ensures { IfOk result (λ o. o ≡ one_byte (word_bytes word.now)) }
{
    let Some(bytes) = bytes_of(heap, word)? else {
        return Ok(None);
    };
    match bytes.as_slice() {
        [b] => Ok(Some(*b)),
        _ => Ok(None),
    }
}

// The kind of cryptogram that a word names. Not `FromStr` and `Display`: neither can be written here for a type of another crate.
pub fn kind_of(word: &str) -> Option<Cryptogram>
    ensures { IfSome result (λ k. word.now ≡ kind_word k) }
{
    match word {
        "AAC" => Some(Cryptogram::Aac),
        "TC" => Some(Cryptogram::Tc),
        "ARQC" => Some(Cryptogram::Arqc),
        _ => None,
    }
}

// The word for a kind of cryptogram.
pub fn name_of(kind: Cryptogram) -> &'static str
    ensures { result.now ≡ kind_word kind }
{
    match kind {
        Cryptogram::Aac => "AAC",
        Cryptogram::Tc => "TC",
        Cryptogram::Arqc => "ARQC",
    }
}

// Bytes as a word: capital digits, or `-` for no bytes. The reasoning about text stands here, and not at `word_of`, so that
// a public function has no proof file of its own.
fn written_word(heap: Global, bytes: &[u8]) -> Result<String, AllocError>
    ensures { IfOk result (λ s. string_bytes s ≡ written bytes.now) }
{
    let mut digits = Vec::new(heap);
    push_hex(&mut digits, bytes)?;
    String::from_utf8_lossy(heap, digits.as_slice())
}

// Bytes as a word: capital digits, or `-` for no bytes.
pub fn word_of(heap: Global, bytes: &[u8]) -> Result<String, AllocError>
    ensures { IfOk result (λ s. string_bytes s ≡ written bytes.now) }
{
    written_word(heap, bytes)
}

// Bytes without the zeros in front.
fn without_zeros(bytes: &[u8]) -> &[u8]
    ensures { result.now ≡ drop (prefix_len (λ b. b == 0) bytes.now) bytes.now }
{
    let zeros = bytes.iter().take_while(|b| **b == 0).count();
    &bytes[zeros..]
}

// A tag as a word: its bytes, two capital digits for each, or `0` for none.
#[tactic(auto, using(crate::proofs::Tags::written_tag))]
pub fn tag_word(heap: Global, tag: u32) -> Result<String, AllocError>
    ensures { IfOk result (λ s. string_bytes s ≡ tag_word tag) }
{
    if tag == 0 {
        return String::from_str(heap, "0");
    }
    written_word(heap, without_zeros(&tag.to_be_bytes()))
}
