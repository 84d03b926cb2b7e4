// The outer object of a card's text.
ghost use Rattle.std.specs.Prelude.{◌≡◌, length};
ghost use Rattle.tlv.specs.Objects.{next_at};
ghost use Rattle.run.specs.Run.{ends, is_outer};

use tlv::token::{Token, next_token};

// Whether nothing but filler stands there.
fn only_filler(text: &[u8]) -> bool
    ensures { result ≡ ends (next_at (length text.now) text.now) }
{
    matches!(next_token(text, text.len()), Ok((Token::End, _)))
}

// Whether a text is one object of the tag, with nothing else but filler.
pub fn is_one_object(text: &[u8], outer: u32) -> bool
    ensures { result ≡ is_outer outer (next_at (length text.now) text.now) }
{
    match next_token(text, text.len()) {
        Ok((Token::Constructed { tag, .. }, rest)) => tag == outer && only_filler(rest),
        _ => false,
    }
}
