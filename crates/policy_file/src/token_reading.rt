//! Reading a token file.

ghost use Rattle.std.specs.Prelude.{◌≡◌, IfOk, Result, Ok, Err};
ghost use Rattle.policy_file.specs.declared.token.Token.{Token};
ghost use Rattle.policy_file.specs.Field.{Gives};
ghost use Rattle.policy_file.specs.TokenText.{IsToken, token_text};
ghost use Rattle.policy_file.specs.TokenReading.{magic_in, object_in, kind_in, bank_in, pcr_in, value_in, literal_in, said_in, token_in};

use crate::error::{FileError, FileKind};
use crate::field::{field, number_8, number_16, number_32};
use crate::token::{Kind, Literal, Token};
use hash_bank::{Bank, Digest};

/// `PLTOK`, and version 1 in three bytes.
pub(crate) const TOKEN_MAGIC: [u8; 8] = [80, 76, 84, 79, 75, 0, 0, 1];

#[tactic(auto, unfolding(crate::specs::TokenReading::magic_in))]
fn check_magic(bytes: &[u8]) -> Result<(), FileError>
    ensures { Gives (λ _. tt) result (magic_in bytes.now) }
{
    let magic = field(bytes, 0, 8)?;
    if magic != TOKEN_MAGIC.as_slice() {
        return Err(FileError::Malformed {
            place: 0,
            kind: FileKind::Magic,
        });
    }
    Ok(())
}

#[tactic(auto, unfolding(crate::specs::TokenReading::object_in))]
fn read_object(bytes: &[u8]) -> Result<u32, FileError>
    ensures { result ≡ object_in bytes.now }
{
    let object = number_32(bytes, 8)?;
    if object < 0x8100_0000 || object > 0x817f_ffff {
        return Err(FileError::Malformed {
            place: 8,
            kind: FileKind::Value,
        });
    }
    Ok(object)
}

#[tactic(auto, unfolding(crate::specs::TokenReading::kind_in))]
fn read_kind(bytes: &[u8]) -> Result<Kind, FileError>
    ensures { result ≡ kind_in bytes.now }
{
    match number_8(bytes, 12)? {
        0 => Ok(Kind::Bound),
        1 => Ok(Kind::Literal(Bank::Sha256)),
        2 => Ok(Kind::Literal(Bank::Sha384)),
        _ => Err(FileError::Malformed {
            place: 12,
            kind: FileKind::Value,
        }),
    }
}

#[tactic(auto, unfolding(crate::specs::TokenReading::bank_in))]
fn read_bank(bytes: &[u8]) -> Result<Bank, FileError>
    ensures { result ≡ bank_in bytes.now }
{
    let number = number_16(bytes, 13)?;
    Bank::from_algorithm(number).ok_or(FileError::Malformed {
        place: 13,
        kind: FileKind::Value,
    })
}

#[tactic(auto, unfolding(crate::specs::TokenReading::pcr_in))]
fn read_pcr(bytes: &[u8]) -> Result<u8, FileError>
    ensures { result ≡ pcr_in bytes.now }
{
    let pcr = number_8(bytes, 15)?;
    if pcr > 23 {
        return Err(FileError::Malformed {
            place: 15,
            kind: FileKind::Value,
        });
    }
    Ok(pcr)
}

#[tactic(auto, unfolding(crate::specs::TokenReading::value_in))]
fn read_value(bytes: &[u8], bank: Bank) -> Result<Digest, FileError>
    ensures { result ≡ value_in bytes.now bank }
{
    let size = bank.size();
    let value = field(bytes, 16, size)?;
    if bytes.len() != 16 + size {
        return Err(FileError::Malformed {
            place: 16 + size as u32,
            kind: FileKind::Trailing,
        });
    }
    Ok(Digest::from_slice(value).unwrap())
}

#[tactic(auto, unfolding(crate::specs::TokenReading::literal_in))]
fn read_literal(bytes: &[u8], hash: Bank) -> Result<Literal, FileError>
    ensures { result ≡ literal_in bytes.now hash }
{
    let bank = read_bank(bytes)?;
    let pcr = read_pcr(bytes)?;
    let value = read_value(bytes, bank)?;
    Ok(Literal {
        hash,
        bank,
        pcr,
        value,
    })
}

#[tactic(auto, unfolding(crate::specs::TokenReading::said_in))]
fn read_said(bytes: &[u8], object: u32, kind: Kind) -> Result<Token, FileError>
    ensures { result ≡ said_in bytes.now object kind }
{
    match kind {
        Kind::Bound => {
            if bytes.len() != 13 {
                return Err(FileError::Malformed {
                    place: 13,
                    kind: FileKind::Trailing,
                });
            }
            Ok(Token::Bound { object })
        }
        Kind::Literal(hash) => {
            let literal = read_literal(bytes, hash)?;
            Ok(Token::Literal { object, literal })
        }
    }
}

#[tactic(auto, unfolding(crate::specs::TokenReading::token_in))]
fn read_all(bytes: &[u8]) -> Result<Token, FileError>
    ensures { result ≡ token_in bytes.now }
{
    check_magic(bytes)?;
    let object = read_object(bytes)?;
    let kind = read_kind(bytes)?;
    read_said(bytes, object, kind)
}

/// The token that the bytes spell, all of the bytes. It takes no memory.
///
/// A text has these fields, all numbers being big-endian:
///
/// | Place | Size | Field | Else |
/// |---|---|---|---|
/// | 0 | 8 | `PLTOK`, 0, 0, 1 | `Magic` |
/// | 8 | 4 | the object's handle, 0x81000000 to 0x817fffff | `Value` |
/// | 12 | 1 | the kind, 0 bound, 1 a literal under SHA-256, 2 one under SHA-384 | `Value` |
///
/// With that a bound token ends. A literal one goes on:
///
/// | Place | Size | Field | Else |
/// |---|---|---|---|
/// | 13 | 2 | the bank's algorithm (TPM 2.0 Library Part 2, TPM_ALG_ID) | `Value` |
/// | 15 | 1 | the PCR, 0 to 23 | `Value` |
/// | 16 | the bank's | the value | |
///
/// A field that the end cuts is `Cut` where it begins, and bytes behind the last field are `Trailing`
/// where it ends. Which hash goes with which bank is not asked here.
pub fn read_token(bytes: &[u8]) -> Result<Token, FileError>
    // What is read is spelled so.
    ensures spelled { IfOk result (λ t. IsToken t × (bytes.now ≡ token_text t)) }
    // What is spelled so is read.
    ensures read { (t : Token) → IsToken t → bytes.now ≡ token_text t → result ≡ Ok t }
    // The fault is the first one.
    ensures exact { result ≡ token_in bytes.now }
{
    read_all(bytes)
}
