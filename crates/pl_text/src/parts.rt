//! Texts that are parted at each place of one byte.
ghost use Rattle.std.specs.Prelude.{◌≡◌, ◌==◌, ◌<◌, ◌∷◌, length, position};
ghost use Rattle.std.specs.Option.{ForSome};
ghost use Rattle.pl_text.specs.Parts.{parts_of, parts_behind};

use memchr::memchr;

// The first place of a byte.
fn place_of(text: &[u8], byte: u8) -> Option<usize>
    ensures { result ≡ position (λ b. b == byte) text.now }
{
    memchr(byte, text)
}

/// A text up to the first place of a byte, and what stands behind that place, if the byte is there.
pub fn cut(text: &[u8], byte: u8) -> (&[u8], Option<&[u8]>)
    ensures parts { parts_of byte text.now ≡ result.0.now ∷ parts_behind byte result.1 }
    ensures shorter { ForSome result.1 (λ rest. length rest.now < length text.now) }
{
    match place_of(text, byte) {
        Some(end) => (&text[..end], Some(&text[end + 1..])),
        None => (text, None),
    }
}
