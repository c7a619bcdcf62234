//! Which banks are there.
use crate::Bank;

/// A set of banks, as those that a TPM was started with.
#[derive(Clone, Copy, Debug, PartialEq, Eq)]
pub struct Banks {
    /// Whether the bank of SHA-1 is there.
    pub sha1: bool,
    /// Whether the bank of SHA-256 is there.
    pub sha256: bool,
    /// Whether the bank of SHA-384 is there.
    pub sha384: bool,
    /// Whether the bank of SHA-512 is there.
    pub sha512: bool,
}

impl Banks {
    ghost use Rattle.std.specs.Prelude.{◌≡◌, Bool, false, not, IsTrue, ◌↔◌};
    ghost use Rattle.hash_bank.specs.declared.bank.Bank.{Bank as BankName};
    ghost use Rattle.hash_bank.specs.Banks.{has_bank};

    /// All four banks.
    pub fn all() -> Banks
        ensures { (b : BankName) → IsTrue (has_bank result b) }
    {
        Banks {
            sha1: true,
            sha256: true,
            sha384: true,
            sha512: true,
        }
    }

    /// Whether the bank is there.
    pub fn has(self, bank: Bank) -> bool
        ensures { result ≡ has_bank self bank }
    {
        match bank {
            Bank::Sha1 => self.sha1,
            Bank::Sha256 => self.sha256,
            Bank::Sha384 => self.sha384,
            Bank::Sha512 => self.sha512,
        }
    }

    /// Whether no bank is there.
    pub fn is_empty(self) -> bool
        ensures { IsTrue result ↔ ((b : BankName) → has_bank self b ≡ false) }
    {
        Bank::ALL.iter().all(|bank| !self.has(*bank))
    }
}
