//! The digests that an extend takes.
ghost use Rattle.std.specs.Prelude.{◌≡◌, length, slice_set, Some};
ghost use Rattle.hash_bank.specs.Hash.{size_in};
ghost use Rattle.tpm_commands.specs.Digests.{digests_of, listed, no_digests, place_in, with_spelled};

use hash_bank::{Bank, Digest, Digests};
use pl_text::{cut, read_bank, read_digest, two_parts};

// No digest.
fn no_digests() -> Digests
    ensures { result ≡ no_digests }
{
    Digests {
        sha1: None,
        sha256: None,
        sha384: None,
        sha512: None,
    }
}

// Sets the digest of a bank.
fn set_digest(digests: &mut Digests, bank: Bank, digest: &Digest)
    requires { length digest.now ≡ size_in bank }
    ensures { listed digests.new ≡ slice_set (listed digests.old) (place_in bank) (Some digest.now) }
{
    match bank {
        Bank::Sha1 => digests.sha1 = Some(*digest),
        Bank::Sha256 => digests.sha256 = Some(*digest),
        Bank::Sha384 => digests.sha384 = Some(*digest),
        Bank::Sha512 => digests.sha512 = Some(*digest),
    }
}

// The digests with one that is spelled `BANK:HEX`, of a bank that has none yet.
fn with_spelled(digests: Digests, text: &[u8]) -> Option<Digests>
    ensures { result ≡ with_spelled digests text.now }
{
    let (name, digest) = two_parts(Some(text), b':')?;
    let bank = read_bank(name)?;
    if digests.get(bank).is_some() {
        return None;
    }
    let digest = read_digest(bank, digest)?;
    let mut digests = digests;
    set_digest(&mut digests, bank, &digest);
    Some(digests)
}

/// The digests of a list of `BANK:HEX`, each bank once. Commas part a list.
pub(crate) fn read_digests(word: &[u8]) -> Option<Digests>
    ensures { result ≡ digests_of word.now }
{
    let mut digests = no_digests();
    let mut texts = Some(word);
    'texts: while let Some(text) = texts {
        let (text, behind) = cut(text, b',');
        digests = with_spelled(digests, text)?;
        texts = behind;
    }
    Some(digests)
}
