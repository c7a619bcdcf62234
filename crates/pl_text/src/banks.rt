//! Banks by their names.
ghost use Rattle.std.specs.Prelude.{◌≡◌};
ghost use Rattle.pl_text.specs.Words.{bank_of, banks_of, no_bank, with_bank, with_banks};

use crate::cut;
use hash_bank::{Bank, Banks};

// No bank.
const NO_BANK: Banks = Banks {
    sha1: false,
    sha256: false,
    sha384: false,
    sha512: false,
};

/// The bank of this name, as `sha256`.
pub fn read_bank(word: &[u8]) -> Option<Bank>
    ensures { result ≡ bank_of word.now }
{
    Bank::ALL
        .iter()
        .copied()
        .find(|bank| bank.name().as_bytes() == word)
}

// The banks with one more.
fn with_bank(banks: Banks, bank: Bank) -> Banks
    ensures { result ≡ with_bank bank banks }
{
    match bank {
        Bank::Sha1 => Banks {
            sha1: true,
            ..banks
        },
        Bank::Sha256 => Banks {
            sha256: true,
            ..banks
        },
        Bank::Sha384 => Banks {
            sha384: true,
            ..banks
        },
        Bank::Sha512 => Banks {
            sha512: true,
            ..banks
        },
    }
}

/// The banks of a list of names with commas between, none of them twice.
pub fn read_banks(word: &[u8]) -> Option<Banks>
    ensures { result ≡ banks_of word.now }
{
    let mut banks = NO_BANK;
    let mut names = Some(word);
    'names: while let Some(text) = names {
        let (name, behind) = cut(text, b',');
        let bank = read_bank(name)?;
        if banks.has(bank) {
            return None;
        }
        banks = with_bank(banks, bank);
        names = behind;
    }
    Some(banks)
}
