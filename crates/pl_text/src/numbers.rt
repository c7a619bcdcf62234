//! Numbers in decimal digits.
ghost use Rattle.std.specs.Prelude.{◌≡◌};
ghost use Rattle.pl_text.specs.Plain.{is_plain};
ghost use Rattle.pl_text.specs.Words.{number_up_to};

use std::str;

// Whether a word has no sign, and no zero before another digit.
fn is_plain(word: &str) -> bool
    ensures { result ≡ is_plain word.now }
{
    !word.starts_with('+') && (word.len() == 1 || !word.starts_with('0'))
}

/// A number up to a limit, in decimal digits with no sign and no leading zero.
pub fn number_in(word: &str, limit: u32) -> Option<u32>
    ensures { result ≡ number_up_to limit word.now }
{
    let number = word.parse::<u32>().ok()?;
    if is_plain(word) && number <= limit {
        Some(number)
    } else {
        None
    }
}

/// A number up to a limit, as [`number_in`] reads it, of a word that may be no text: such a word is no number.
pub fn read_number(word: &[u8], limit: u32) -> Option<u32>
    ensures { result ≡ number_up_to limit word.now }
{
    match str::from_utf8(word) {
        Ok(word) => number_in(word, limit),
        Err(_) => None,
    }
}
