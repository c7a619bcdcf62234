//! Writing a token file.

ghost use Rattle.std.specs.Prelude.{◌≡◌, ◌++◌, ◌∷◌, [], IfOk, OnOk, Ok};
ghost use Rattle.std.specs.Int.{w32, to_be_bytes};
ghost use Rattle.policy_file.specs.TokenText.{IsToken, IsLiteral, literal_kind, literal_text, token_magic, token_text};
ghost use Rattle.policy_file.specs.TokenReading.{token_in};

use crate::token::{Literal, Token};
use crate::token_reading::TOKEN_MAGIC;
use hash_bank::Bank;
use pl_base::Memory;
use pl_layout::{put_u16, put_u32};
use std::alloc::Global;

fn kind_of(literal: &Literal) -> u8
    requires { IsLiteral literal.now }
    ensures { result ≡ literal_kind literal.now.hash }
{
    match literal.hash {
        Bank::Sha256 => 1,
        Bank::Sha384 => 2,
        Bank::Sha1 => unreachable!(),
        Bank::Sha512 => unreachable!(),
    }
}

fn put_front(out: &mut Vec<u8>, object: u32, kind: u8) -> Result<(), Memory>
    ensures { OnOk result (out.new.items ≡ out.old.items ++ (token_magic ++ (to_be_bytes w32 object ++ kind ∷ []))) }
{
    out.extend_from_slice(&TOKEN_MAGIC)?;
    put_u32(out, object)?;
    out.push(kind)?;
    Ok(())
}

fn put_literal(out: &mut Vec<u8>, literal: &Literal) -> Result<(), Memory>
    ensures { OnOk result (out.new.items ≡ out.old.items ++ literal_text literal.now) }
{
    put_u16(out, literal.bank.algorithm())?;
    out.push(literal.pcr)?;
    out.extend_from_slice(literal.value.as_slice())?;
    Ok(())
}

fn put_token(alloc: Global, token: &Token) -> Result<Vec<u8>, Memory>
    requires { IsToken token.now }
    ensures { IfOk result (λ bytes. bytes.items ≡ token_text token.now) }
{
    match token {
        Token::Bound { object } => {
            let mut out = Vec::with_capacity(alloc, 13)?;
            put_front(&mut out, *object, 0)?;
            Ok(out)
        }
        Token::Literal { object, literal } => {
            let mut out = Vec::with_capacity(alloc, 16 + literal.bank.size())?;
            put_front(&mut out, *object, kind_of(literal))?;
            put_literal(&mut out, literal)?;
            Ok(out)
        }
    }
}

/// The one text of a token, as [`crate::read_token`] reads it.
///
/// The object's handle is from 0x81000000 to 0x817fffff; a literal's hash is SHA-256 or SHA-384,
/// its PCR at most 23, its value of the bank's size.
pub fn write_token(alloc: Global, token: &Token) -> Result<Vec<u8>, Memory>
    requires { IsToken token.now }
    ensures spelled { IfOk result (λ bytes. bytes.items ≡ token_text token.now) }
    ensures read_back { IfOk result (λ bytes. token_in bytes.items ≡ Ok token.now) }
{
    put_token(alloc, token)
}
