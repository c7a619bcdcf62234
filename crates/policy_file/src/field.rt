//! Fields of a file, each at its place.

ghost use Rattle.std.specs.Prelude.{◌≡◌, ◌+◌, ◌^◌, ◌<◌, Result, Ok, Err};
ghost use Rattle.std.specs.Int.{w8, w16, w32};
ghost use Rattle.policy_file.specs.Field.{Gives, field_at, number_at};

use crate::error::{FileError, FileKind};

/// The bytes of a field, where the file has them all.
pub(crate) fn field(bytes: &[u8], place: u32, size: usize) -> Result<&[u8], FileError>
    requires { place + size < 2 ^ 32 }
    ensures { Gives (λ x. x.now) result (field_at bytes.now place size) }
{
    let begin = place as usize;
    let end = begin + size;
    if bytes.len() < end {
        return Err(FileError::Malformed {
            place,
            kind: FileKind::Cut,
        });
    }
    Ok(&bytes[begin..end])
}

/// A number of one byte.
pub(crate) fn number_8(bytes: &[u8], place: u32) -> Result<u8, FileError>
    requires { place + 1 < 2 ^ 32 }
    ensures { result ≡ number_at w8 bytes.now place }
{
    let number = field(bytes, place, 1)?;
    Ok(number[0])
}

/// A number of two bytes.
pub(crate) fn number_16(bytes: &[u8], place: u32) -> Result<u16, FileError>
    requires { place + 2 < 2 ^ 32 }
    ensures { result ≡ number_at w16 bytes.now place }
{
    let number = field(bytes, place, 2)?;
    Ok(u16::from_be_bytes([number[0], number[1]]))
}

/// A number of four bytes.
pub(crate) fn number_32(bytes: &[u8], place: u32) -> Result<u32, FileError>
    requires { place + 4 < 2 ^ 32 }
    ensures { result ≡ number_at w32 bytes.now place }
{
    let number = field(bytes, place, 4)?;
    Ok(u32::from_be_bytes([number[0], number[1], number[2], number[3]]))
}
