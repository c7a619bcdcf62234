//! What a word of a command's line spells.
ghost use Rattle.std.specs.Prelude.{◌≡◌};
ghost use Rattle.tpm_commands.specs.Values.{pcrs_of, policy_of, small_of};

use hash_bank::{Bank, Digest};
use pl_base::Small;
use pl_text::{read_digest, read_pcr_mask};

/// The digest of a policy, of 32 or 48 bytes, in hexadecimal digits.
pub(crate) fn read_policy(word: &[u8]) -> Option<Digest>
    ensures { result ≡ policy_of word.now }
{
    if word.len() == 96 {
        read_digest(Bank::Sha384, word)
    } else {
        read_digest(Bank::Sha256, word)
    }
}

/// 1 to 128 bytes, in hexadecimal digits.
pub(crate) fn read_small(word: &[u8]) -> Option<Small>
    ensures { result ≡ small_of word.now }
{
    if word.len() < 2 || 256 < word.len() {
        return None;
    }
    let mut room = [0; 128];
    let bytes = &mut room[..word.len() / 2];
    match hex::decode_to_slice(word, bytes) {
        Ok(()) => Small::from_slice(bytes),
        Err(_) => None,
    }
}

/// The mask of a list of PCRs, none of them twice; `-` is the list of none.
pub(crate) fn read_pcrs(word: &[u8]) -> Option<u32>
    ensures { result ≡ pcrs_of word.now }
{
    if word == b"-".as_slice() {
        Some(0)
    } else {
        read_pcr_mask(word)
    }
}
