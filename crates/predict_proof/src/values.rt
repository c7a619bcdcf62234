//! What a word of a line spells.
ghost use Rattle.std.specs.Prelude.{◌≡◌, ◌≤◌, [], IfOk};
ghost use Rattle.std.specs.Str.{bytes_eq};
ghost use Rattle.hex.specs.Hex.{encode_lower};
ghost use Rattle.pl_text.specs.Parts.{parts_of};
ghost use Rattle.predict_proof.specs.Words.{choice_of, digest_of, is_locality, mask_from, mask_with, values_from};

use hash_bank::{Bank, Digest};
use pl_base::{List, Memory};
use pl_text::{cut, read_digest, read_number};
use std::alloc::Global;

/// The greatest number of a PCR (TCG PC Client Platform TPM Profile, 24 PCRs).
const LAST_PCR: u32 = 23;

/// The greatest number of a variant.
const LAST_VARIANT: u32 = 63;

/// Whether a platform may start at the locality.
pub(crate) fn is_locality(number: u32) -> bool
    ensures { result ≡ is_locality number }
{
    number == 0 || number == 3 || number == 4
}

/// The mask with a further PCR, where that is above all of its own.
fn mask_with(mask: u32, pcr: u32) -> Option<u32>
    requires { pcr ≤ 23 }
    ensures { result ≡ mask_with mask pcr }
{
    let bit = 1u32 << pcr;
    if mask < bit { Some(mask | bit) } else { None }
}

/// The mask of PCRs that stand ascending with commas between.
pub(crate) fn read_pcrs(word: &[u8]) -> Option<u32>
    ensures { result ≡ mask_from 0 (parts_of 44 word.now) }
{
    let mut mask = 0;
    let mut numbers = Some(word);
    'numbers: while let Some(text) = numbers {
        let (number, behind) = cut(text, b',');
        let pcr = read_number(number, LAST_PCR)?;
        mask = mask_with(mask, pcr)?;
        numbers = behind;
    }
    Some(mask)
}

/// The numbers of variants with commas between; `-` is the list of none.
pub(crate) fn read_choice(alloc: Global, word: &[u8]) -> Result<Option<List<u32>>, Memory>
    ensures { IfOk result (λ choice. choice ≡ choice_of word.now) }
{
    let mut choice = List::new(alloc);
    if word == b"-".as_slice() {
        return Ok(Some(choice));
    }
    let mut numbers = Some(word);
    'numbers: while let Some(text) = numbers {
        let (number, behind) = cut(text, b',');
        let Some(number) = read_number(number, LAST_VARIANT) else {
            return Ok(None);
        };
        choice.push(number)?;
        numbers = behind;
    }
    Ok(Some(choice))
}

/// Whether the word is the digest's hexadecimal digits in lower case.
fn is_lower(digest: &Digest, word: &[u8]) -> bool
    ensures { result ≡ bytes_eq (encode_lower digest.now) word.now }
{
    let bytes = digest.as_slice();
    let mut room = [0u8; 128];
    let digits = &mut room[..2 * bytes.len()];
    let Ok(()) = hex::encode_to_slice(bytes, digits) else {
        unreachable!();
    };
    &*digits == word
}

/// The bank's digest in lower-case hexadecimal digits.
fn read_lower(bank: Bank, word: &[u8]) -> Option<Digest>
    ensures { result ≡ digest_of bank word.now }
{
    let digest = read_digest(bank, word)?;
    if is_lower(&digest, word) {
        Some(digest)
    } else {
        None
    }
}

/// The bank's digests in lower-case hexadecimal digits, with commas between.
pub(crate) fn read_values(
    alloc: Global,
    bank: Bank,
    word: &[u8],
) -> Result<Option<List<Digest>>, Memory>
    ensures { IfOk result (λ values. values ≡ values_from bank [] (parts_of 44 word.now)) }
{
    let mut values = List::new(alloc);
    let mut digests = Some(word);
    'digests: while let Some(text) = digests {
        let (digest, behind) = cut(text, b',');
        let Some(digest) = read_lower(bank, digest) else {
            return Ok(None);
        };
        values.push(digest)?;
        digests = behind;
    }
    Ok(Some(values))
}
