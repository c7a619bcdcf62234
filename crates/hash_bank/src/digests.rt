//! A digest for each of some banks.
ghost use Rattle.std.specs.Prelude.{◌≡◌, length};
ghost use Rattle.std.specs.Option.{ForSome};

use crate::{Bank, Digest};

/// At most one digest for each bank, of the bank's length, as an event log gives them for one
/// event (TCG PC Client Platform Firmware Profile, TPML_DIGEST_VALUES).
#[derive(Clone, Copy, Debug, PartialEq, Eq)]
pub struct Digests {
    /// The digest of SHA-1, of 20 bytes.
    pub sha1: Option<Digest>,
    /// The digest of SHA-256, of 32 bytes.
    pub sha256: Option<Digest>,
    /// The digest of SHA-384, of 48 bytes.
    pub sha384: Option<Digest>,
    /// The digest of SHA-512, of 64 bytes.
    pub sha512: Option<Digest>,
    pub ghost sha1_size: { ForSome sha1 (λ d. length d ≡ 20) },
    pub ghost sha256_size: { ForSome sha256 (λ d. length d ≡ 32) },
    pub ghost sha384_size: { ForSome sha384 (λ d. length d ≡ 48) },
    pub ghost sha512_size: { ForSome sha512 (λ d. length d ≡ 64) },
}

impl Digests {
    ghost use Rattle.std.specs.Prelude.{IfSome};
    ghost use Rattle.hash_bank.specs.Hash.{size_in};
    ghost use Rattle.hash_bank.specs.Digests.{digest_at};

    /// The bank's digest, if it is there.
    pub fn get(&self, bank: Bank) -> Option<Digest>
        ensures value { result ≡ digest_at self.now bank }
        ensures size { IfSome result (λ d. length d ≡ size_in bank) }
    {
        match bank {
            Bank::Sha1 => self.sha1,
            Bank::Sha256 => self.sha256,
            Bank::Sha384 => self.sha384,
            Bank::Sha512 => self.sha512,
        }
    }
}
