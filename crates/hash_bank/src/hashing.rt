//! The hash of bytes, the extend of a PCR and its value after a restart.
ghost use Rattle.std.specs.Prelude.{◌≡◌, ℕ, ◌+◌, ◌-◌, ◌*◌, ◌<◌, ◌≤◌, List, [], ◌∷◌, ◌++◌, length, replicate, Some};
ghost use Rattle.hash_bank.specs.declared.bank.Bank.{Bank as BankName};
ghost use Rattle.hash_bank.specs.Hash.{digest_in, size_in};
ghost use Rattle.hash_bank.specs.Extending.{extended, start_of};
ghost use Rattle.hash_bank.specs.Digests.{digest_at};

use crate::{Bank, Digest, Digests, Hasher};

/// The bank's hash of some bytes (FIPS 180-4).
#[tactic(auto, using(crate::proofs::Sizes::sizes))]
pub fn hash(bank: Bank, bytes: &[u8]) -> Digest
    ensures value { result ≡ digest_in bank bytes.now }
    ensures size { length result ≡ size_in bank }
{
    let mut hasher = Hasher::new(bank);
    hasher.update(bytes);
    hasher.finish()
}

/// What the bank's PCR that held `old` holds after an extend by `digest`: the hash of the two, one
/// after the other (TPM 2.0 Library Part 1, "PCR Operations"). Both have the bank's length.
#[tactic(auto, using(crate::proofs::Sizes::sizes))]
pub fn extend(bank: Bank, old: &Digest, digest: &Digest) -> Digest
    requires old_fits { length old.now ≡ size_in bank }
    requires digest_fits { length digest.now ≡ size_in bank }
    ensures value { result ≡ extended bank old.now digest.now }
    ensures size { length result ≡ size_in bank }
{
    let mut hasher = Hasher::new(bank);
    hasher.update(old.as_slice());
    hasher.update(digest.as_slice());
    hasher.finish()
}

// The bank's zeros, with the locality as the last byte.
fn zeros_to_locality(bank: Bank, locality: u8) -> Digest
    ensures { result ≡ replicate (size_in bank - 1) 0 ++ locality ∷ [] }
{
    let mut room = [0u8; 64];
    let size = bank.size();
    room[size - 1] = locality;
    Digest::of_bytes(&room[..size])
}

/// What the bank's PCR holds after a restart at this locality (TCG PC Client Platform Firmware
/// Profile): zeros; but in PCR 0 the last byte is the locality, and PCR 17 to 22, which only a
/// dynamic launch resets, hold bytes 0xFF. There are 24 PCRs, from 0 on.
#[tactic(auto, using(crate::proofs::Sizes::sizes), unfolding(crate::specs::Extending::start_of))]
pub fn start(bank: Bank, pcr: u8, locality: u8) -> Digest
    requires { pcr ≤ 23 }
    ensures value { result ≡ start_of bank pcr locality }
    ensures size { length result ≡ size_in bank }
{
    match pcr {
        0 => zeros_to_locality(bank, locality),
        17..=22 => Digest::ones(bank),
        _ => Digest::zeros(bank),
    }
}

/// The digest of some bytes in each of the four banks.
pub fn hash_all(bytes: &[u8]) -> Digests
    ensures { (b : BankName) → digest_at result b ≡ Some (digest_in b bytes.now) }
{
    Digests {
        sha1: Some(hash(Bank::Sha1, bytes)),
        sha256: Some(hash(Bank::Sha256, bytes)),
        sha384: Some(hash(Bank::Sha384, bytes)),
        sha512: Some(hash(Bank::Sha512, bytes)),
    }
}
