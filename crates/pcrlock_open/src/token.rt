//! The token that says what opens the key.
ghost use Rattle.std.specs.Prelude.{◌≡◌, Some, IfOk, IfErr};
ghost use Rattle.pcrlock_line.specs.Causes.{HasCauses};
ghost use Rattle.pcrlock_line.specs.Content.{content_found};
ghost use Rattle.pcrlock_line.specs.Machine.{Machine};
ghost use Rattle.pcrlock_open.specs.TokenRead.{read_line, IsRead};
ghost use Rattle.pcrlock_open.specs.Unseal.{content_line, token_line, unseal_line};
ghost use Rattle.std.specs.Prelude.{ℕ, List as Sequence};
ghost use Rattle.policy_file.specs.TokenReading.{token_in};

use pcrlock_answer::{Answer, limit, malformed_at};
use pcrlock_line::{Found, Stop, read_file};
use pl_base::{Files, Name};
use policy_file::{FileError, Literal, Token, read_token};
use std::alloc::Global;

/// The most bytes that a token file may have.
const TOKEN_LIMIT: u64 = 256;

/// What the token's file gave.
#[derive(Debug, Drop)]
pub(crate) enum TokenRead {
    /// No token.
    Refused(Answer),
    /// A token by which one value of one PCR opens the object.
    Literal {
        /// The object's handle, 0x81000000 to 0x817fffff.
        object: u32,
        /// The value that opens it.
        literal: Literal,
    },
    /// A token of the object with this handle, 0x81000000 to 0x817fffff, that is bound to a policy's index.
    Bound(u32),
}

/// The answer where no token file stands.
fn missing(alloc: Global, path: &Name) -> Result<TokenRead, Stop>
    ensures told { IfOk result (λ read. read ≡ TokenRead.Refused (Answer.NoToken path.now)) }
    ensures cause { IfErr result (λ stop. stop ≡ Stop.Memory) }
{
    match path.copy(alloc) {
        Ok(path) => Ok(TokenRead::Refused(Answer::NoToken(path))),
        Err(_) => Err(Stop::Memory),
    }
}

/// The token that the bytes spell.
fn token_of(alloc: Global, path: &Name, bytes: &[u8]) -> Result<TokenRead, Stop>
    ensures told { IfOk result (λ read. (state policy : Sequence ℕ) (m : Machine) → token_line state path.now policy (token_in bytes.now) m ≡ read_line state policy read m) }
    ensures valid { IfOk result IsRead }
    ensures cause { IfErr result (λ stop. stop ≡ Stop.Memory) }
{
    match read_token(bytes) {
        Ok(Token::Literal { object, literal }) => Ok(TokenRead::Literal { object, literal }),
        Ok(Token::Bound { object }) => Ok(TokenRead::Bound(object)),
        Err(FileError::Malformed { place, .. }) => match malformed_at(alloc, path.text(), place) {
            Ok(answer) => Ok(TokenRead::Refused(answer)),
            Err(_) => Err(Stop::Memory),
        },
        Err(FileError::Memory) => Err(Stop::Memory),
    }
}

/// The token of what stands at the path.
fn token_found(alloc: Global, path: &Name, found: &Found) -> Result<TokenRead, Stop>
    ensures told { IfOk result (λ read. (state policy : Sequence ℕ) (m : Machine) → content_line state path.now policy (content_found found.now) m ≡ read_line state policy read m) }
    ensures valid { IfOk result IsRead }
    ensures cause { IfErr result (λ stop. stop ≡ Stop.Memory) }
{
    match found {
        Found::Missing => missing(alloc, path),
        Found::TooLarge(size) => match limit(alloc, "token-bytes", *size) {
            Ok(answer) => Ok(TokenRead::Refused(answer)),
            Err(_) => Err(Stop::Memory),
        },
        Found::Bytes(bytes) => token_of(alloc, path, bytes),
    }
}

/// The token at the path. The files stay as they are.
pub(crate) fn token_at<F: Files>(
    alloc: Global,
    files: &mut F,
    path: &Name,
) -> Result<TokenRead, Stop>
    ensures causes { HasCauses (F.faults files.old, 0, 0, 0) (F.faults files.new, 0, 0, 0) result }
    ensures told { (state policy : Sequence ℕ) (m : Machine) → F.held files.old ≡ Some m.files → IfOk result (λ read. unseal_line state path.now policy m ≡ read_line state policy read m) }
    ensures valid { IfOk result IsRead }
    ensures same { F.held files.new ≡ F.held files.old }
{
    match read_file(alloc, files, path.text(), TOKEN_LIMIT) {
        Ok(found) => token_found(alloc, path, &found),
        Err(stop) => Err(stop),
    }
}
