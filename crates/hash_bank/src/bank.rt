//! The four banks, with their names, sizes and algorithm numbers.

/// A PCR bank, named by its hash algorithm (TPM 2.0 Library Part 1, "PCR Operations"; the hash
/// algorithms are those of FIPS 180-4).
#[derive(Clone, Copy, Debug, PartialEq, Eq, PartialOrd, Ord, Hash)]
pub enum Bank {
    /// SHA-1, with digests of 20 bytes.
    Sha1,
    /// SHA-256, with digests of 32 bytes.
    Sha256,
    /// SHA-384, with digests of 48 bytes.
    Sha384,
    /// SHA-512, with digests of 64 bytes.
    Sha512,
}

impl Bank {
    ghost use Rattle.std.specs.Prelude.{◌≡◌, Option};
    ghost use Rattle.hash_bank.specs.Hash.{algorithm_in, bank_of_algorithm, name_in, size_in};

    /// Every bank, by rising size of its digests.
    pub const ALL: [Bank; 4] = [Bank::Sha1, Bank::Sha256, Bank::Sha384, Bank::Sha512];

    /// The length of the bank's digests, in bytes.
    pub fn size(self) -> usize
        ensures { result ≡ size_in self }
    {
        match self {
            Bank::Sha1 => 20,
            Bank::Sha256 => 32,
            Bank::Sha384 => 48,
            Bank::Sha512 => 64,
        }
    }

    /// The bank's name in lower case, as `sha256`.
    pub fn name(self) -> &'static str
        ensures { result.now ≡ name_in self }
    {
        match self {
            Bank::Sha1 => "sha1",
            Bank::Sha256 => "sha256",
            Bank::Sha384 => "sha384",
            Bank::Sha512 => "sha512",
        }
    }

    /// The bank's algorithm identifier (TPM 2.0 Library Part 2, TPM_ALG_ID).
    pub fn algorithm(self) -> u16
        ensures { result ≡ algorithm_in self }
    {
        match self {
            Bank::Sha1 => 0x0004,
            Bank::Sha256 => 0x000B,
            Bank::Sha384 => 0x000C,
            Bank::Sha512 => 0x000D,
        }
    }

    /// The bank with this algorithm identifier, if it is one of the four.
    pub fn from_algorithm(algorithm: u16) -> Option<Bank>
        ensures { result ≡ bank_of_algorithm algorithm }
    {
        match algorithm {
            0x0004 => Some(Bank::Sha1),
            0x000B => Some(Bank::Sha256),
            0x000C => Some(Bank::Sha384),
            0x000D => Some(Bank::Sha512),
            _ => None,
        }
    }
}
