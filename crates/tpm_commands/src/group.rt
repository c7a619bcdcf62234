ghost use Rattle.std.specs.Prelude.{◌≡◌};
ghost use Rattle.tpm_commands.specs.Values.{group_of};

use crate::values::read_policy;
use hash_bank::{Bank, Digest};
use pl_text::cut;
use policy_digest::Group;

// The most digests of one list (TPM 2.0 Library Part 2, TPML_DIGEST).
const MOST: usize = 8;

/// A list of at most 8 digests of policies, each of 32 or 48 bytes. Commas part a list.
pub(crate) fn read_group(word: &[u8]) -> Option<Group>
    ensures { result ≡ group_of word.now }
{
    let mut room = [Digest::zeros(Bank::Sha1); 8];
    let mut texts = Some(word);
    for count in 0..MOST {
        let Some(text) = texts else {
            return Group::from_slice(&room[..count]);
        };
        let (text, behind) = cut(text, b',');
        room[count] = read_policy(text)?;
        texts = behind;
    }
    match texts {
        None => Group::from_slice(&room),
        Some(_) => None,
    }
}
