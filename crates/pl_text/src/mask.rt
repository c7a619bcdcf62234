//! Masks of PCRs by their numbers.
ghost use Rattle.std.specs.Prelude.{◌≡◌, ◌≤◌, IfSome};
ghost use Rattle.pl_text.specs.Words.{pcr_mask_of, pcr_of, with_pcr, with_pcrs};

use crate::{cut, read_number};
use policy_digest::is_in_mask;

// The greatest number of a PCR (TCG PC Client Platform TPM Profile, 24 PCRs).
const LAST_PCR: u32 = 23;

/// The number of a PCR, 0 to 23.
pub fn read_pcr(word: &[u8]) -> Option<u8>
    ensures value { result ≡ pcr_of word.now }
    ensures in_range { IfSome result (λ pcr. pcr ≤ 23) }
{
    let number = read_number(word, LAST_PCR)?;
    Some(number as u8)
}

// The mask with one more PCR.
fn with_pcr(mask: u32, pcr: u8) -> u32
    requires { pcr ≤ 23 }
    ensures { result ≡ with_pcr mask pcr }
{
    mask | 1 << pcr
}

/// The PCRs of a list of numbers with commas between, none of them twice, as a mask of which bit i stands
/// for PCR i.
pub fn read_pcr_mask(word: &[u8]) -> Option<u32>
    ensures { result ≡ pcr_mask_of word.now }
{
    let mut mask = 0;
    let mut numbers = Some(word);
    'numbers: while let Some(text) = numbers {
        let (number, behind) = cut(text, b',');
        let pcr = read_pcr(number)?;
        if is_in_mask(mask, pcr) {
            return None;
        }
        mask = with_pcr(mask, pcr);
        numbers = behind;
    }
    Some(mask)
}
