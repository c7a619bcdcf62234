//! Fields as they are read from left to right: each function gives a value and the bytes behind it.
ghost use Rattle.std.specs.Prelude.{◌≡◌, ◌≤◌, ℕ, List, length, IfOk};
ghost use Rattle.std.specs.Int.{w16, w32};
ghost use Rattle.hash_bank.specs.Hash.{size_in};
ghost use Rattle.pl_layout.specs.Reading.{Gives, byte_at, bytes_at, little_at, number_at, place};

use hash_bank::{Bank, Digest};

/// What a reader answers where the bytes end before a field does.
pub trait CutFault: Sized {
    // The fault of the field that begins with some bytes, the last of all that there are.
    ghost cut_at: { ℕ → List ℕ → Self };

    /// The fault of the field that begins with these bytes, the last of all that there are.
    fn cut(all: usize, bytes: &[u8]) -> Self
        ensures { result ≡ cut_at all bytes.now };
}

/// Where the field begins that begins with these bytes, the last of all that there are. A place that has
/// no number of 32 bits is told as the last one.
pub fn place_of(all: usize, bytes: &[u8]) -> u32
    ensures { result ≡ place all bytes.now }
{
    all.saturating_sub(bytes.len()).min(u32::MAX as usize) as u32
}

/// A number of one byte.
///
/// # Errors
///
/// There is no byte.
pub fn read_u8<E: CutFault>(all: usize, bytes: &[u8]) -> Result<(u8, &[u8]), E>
    ensures { Gives (λ x. (x.0, x.1.now)) result (byte_at (E.cut_at all) bytes.now) }
{
    match bytes {
        [] => Err(E::cut(all, bytes)),
        [byte, rest @ ..] => Ok((*byte, rest)),
    }
}

/// So many bytes.
///
/// # Errors
///
/// There are fewer.
pub fn read_bytes<E: CutFault>(all: usize, size: usize, bytes: &[u8]) -> Result<(&[u8], &[u8]), E>
    ensures exact { Gives (λ x. (x.0.now, x.1.now)) result (bytes_at (E.cut_at all) size bytes.now) }
    ensures size { IfOk result (λ x. length x.0.now ≡ size) }
{
    if bytes.len() < size {
        return Err(E::cut(all, bytes));
    }
    Ok(bytes.split_at(size))
}

/// The digest of these bytes.
pub fn digest_of(bytes: &[u8]) -> Digest
    requires some { 1 ≤ length bytes.now }
    requires most { length bytes.now ≤ 64 }
    ensures { result ≡ bytes.now }
{
    let Some(digest) = Digest::from_slice(bytes) else {
        unreachable!()
    };
    digest
}

/// As many bytes as a digest of the bank has.
///
/// # Errors
///
/// There are fewer.
pub fn read_bank_bytes<E: CutFault>(
    all: usize,
    bank: Bank,
    bytes: &[u8],
) -> Result<(&[u8], &[u8]), E>
    ensures exact { Gives (λ x. (x.0.now, x.1.now)) result (bytes_at (E.cut_at all) (size_in bank) bytes.now) }
    ensures some { IfOk result (λ x. 1 ≤ length x.0.now) }
    ensures most { IfOk result (λ x. length x.0.now ≤ 64) }
{
    read_bytes(all, bank.size(), bytes)
}

/// A number of two bytes, the higher one first.
///
/// # Errors
///
/// There are fewer bytes.
pub fn read_u16<E: CutFault>(all: usize, bytes: &[u8]) -> Result<(u16, &[u8]), E>
    ensures { Gives (λ x. (x.0, x.1.now)) result (number_at (E.cut_at all) w16 bytes.now) }
{
    if bytes.len() < 2 {
        return Err(E::cut(all, bytes));
    }
    let (front, rest) = bytes.split_at(2);
    Ok((u16::from_be_bytes([front[0], front[1]]), rest))
}

/// A number of four bytes, the highest one first.
///
/// # Errors
///
/// There are fewer bytes.
pub fn read_u32<E: CutFault>(all: usize, bytes: &[u8]) -> Result<(u32, &[u8]), E>
    ensures { Gives (λ x. (x.0, x.1.now)) result (number_at (E.cut_at all) w32 bytes.now) }
{
    if bytes.len() < 4 {
        return Err(E::cut(all, bytes));
    }
    let (front, rest) = bytes.split_at(4);
    Ok((
        u32::from_be_bytes([front[0], front[1], front[2], front[3]]),
        rest,
    ))
}

/// A number of two bytes, the lower one first.
///
/// # Errors
///
/// There are fewer bytes.
pub fn read_u16_le<E: CutFault>(all: usize, bytes: &[u8]) -> Result<(u16, &[u8]), E>
    ensures { Gives (λ x. (x.0, x.1.now)) result (little_at (E.cut_at all) w16 bytes.now) }
{
    if bytes.len() < 2 {
        return Err(E::cut(all, bytes));
    }
    let (front, rest) = bytes.split_at(2);
    Ok((u16::from_le_bytes([front[0], front[1]]), rest))
}

/// A number of four bytes, the lowest one first.
///
/// # Errors
///
/// There are fewer bytes.
pub fn read_u32_le<E: CutFault>(all: usize, bytes: &[u8]) -> Result<(u32, &[u8]), E>
    ensures { Gives (λ x. (x.0, x.1.now)) result (little_at (E.cut_at all) w32 bytes.now) }
{
    if bytes.len() < 4 {
        return Err(E::cut(all, bytes));
    }
    let (front, rest) = bytes.split_at(4);
    Ok((
        u32::from_le_bytes([front[0], front[1], front[2], front[3]]),
        rest,
    ))
}
