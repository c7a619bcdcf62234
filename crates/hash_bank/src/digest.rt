//! Digests of any bank, and their hexadecimal text.
ghost use Rattle.std.specs.Prelude.{◌≡◌, ℕ, ◌*◌, ◌<◌, ◌≤◌, ◌↔◌, List, length, replicate, IsSome, IfSome, IsTrue, Some, Ok, Err, IfOk, MatchResult};
ghost use Rattle.std.specs.Str.{bytes_eq};
ghost use Rattle.hash_bank.specs.Hash.{size_in, zeros_in, ones_in};
ghost use Rattle.hash_bank.specs.Hexadecimal.{bytes_of_hex, digest_of_hex, hex_error_of, IsPlaceWithin};
ghost use Rattle.hash_bank.specs.Padding.{padded};

use crate::Bank;
use hex::FromHexError;
use std::marker::Model;
use std::{fmt, str};

// The length of the longest digest, in bytes.
const ROOM: usize = 64;

/// A digest of 1 to 64 bytes. Contracts see the list of its bytes.
#[derive(Clone, Copy, Debug, PartialEq, Eq)]
pub struct Digest {
    room: [u8; 64],
    len: usize,
}

impl Model for Digest {
    ghost use Rattle.std.specs.Prelude.{◌≡◌, ℕ, ◌≤◌, List, length, take};
    ghost use Rattle.std.proofs.Common.{sym, length-take-le};
    ghost use Rattle.hash_bank.specs.Padding.{padded};

    ghost Value = { List ℕ };

    ghost view = { λ d. take d.len d.room };

    ghost invariant = { λ d. (1 ≤ d.len) × (d.len ≤ length d.room) × (d.room ≡ padded (take d.len d.room)) };

    ghost inverse = { λ bytes. record { room = padded bytes; len = length bytes } };

    ghost inverse_ok = { λ d h i. record {
      room = sym h.2 i;
      len = length-take-le d.len d.room h.1 i;
    } };
}

/// Why a text is no digest of a bank in hexadecimal.
#[derive(Clone, Copy, Debug, PartialEq, Eq)]
pub enum HexError {
    /// The text's length isn't twice that of the bank's digests.
    BadLength,
    /// The byte at this place, counted from 0, is the first that is no hexadecimal digit of either
    /// case.
    BadHex(u32),
}

// These bytes, filled up with zeros.
fn room_of(bytes: &[u8]) -> [u8; 64]
    requires { length bytes.now ≤ 64 }
    ensures { result ≡ padded bytes.now }
{
    let mut room = [0u8; ROOM];
    room[..bytes.len()].copy_from_slice(bytes);
    room
}

// The digest of the bank's length whose bytes are all this one.
fn filled(bank: Bank, byte: u8) -> Digest
    ensures value { result ≡ replicate (size_in bank) byte }
    ensures size { length result ≡ size_in bank }
{
    let all = [byte; ROOM];
    Digest::of_bytes(&all[..bank.size()])
}

// A decoder's error, as one of ours.
fn hex_error(error: FromHexError) -> HexError
    requires { IsPlaceWithin 128 error }
    ensures { result ≡ hex_error_of error }
{
    match error {
        FromHexError::InvalidHexCharacter { index, .. } => HexError::BadHex(index as u32),
        FromHexError::OddLength => HexError::BadLength,
        FromHexError::InvalidStringLength => HexError::BadLength,
        FromHexError::OutOfMemory => HexError::BadLength,
    }
}

// Writes the bytes that a text spells, with two hexadecimal digits of either case for each.
fn read_digits(text: &str, bytes: &mut [u8]) -> Result<(), HexError>
    requires { length bytes.old ≤ 64 }
    ensures { MatchResult result
        (λ _. bytes_of_hex (length bytes.old) text.now ≡ Ok bytes.new)
        (λ e. bytes_of_hex (length bytes.old) text.now ≡ Err e) }
{
    match hex::decode_to_slice(text, bytes) {
        Ok(()) => Ok(()),
        Err(error) => Err(hex_error(error)),
    }
}

impl Digest {
    // The digest of these bytes.
    pub(crate) fn of_bytes(bytes: &[u8]) -> Digest
        requires some { 1 ≤ length bytes.now }
        requires fits { length bytes.now ≤ 64 }
        ensures { result ≡ bytes.now }
    {
        Digest {
            room: room_of(bytes),
            len: bytes.len(),
        }
    }

    /// The digest of zero bytes alone, of the bank's length.
    #[tactic(auto, unfolding(crate::specs::Hash::zeros_in))]
    pub fn zeros(bank: Bank) -> Digest
        ensures value { result ≡ zeros_in bank }
        ensures size { length result ≡ size_in bank }
    {
        filled(bank, 0)
    }

    /// The digest of bytes 0xFF alone, of the bank's length.
    pub fn ones(bank: Bank) -> Digest
        ensures value { result ≡ ones_in bank }
        ensures size { length result ≡ size_in bank }
    {
        filled(bank, 0xFF)
    }

    /// The digest of these bytes, of which there must be 1 to 64.
    pub fn from_slice(bytes: &[u8]) -> Option<Digest>
        ensures fits { IsSome result ↔ ((1 ≤ length bytes.now) × (length bytes.now ≤ 64)) }
        ensures value { IfSome result (λ d. d ≡ bytes.now) }
    {
        if bytes.is_empty() || bytes.len() > ROOM {
            return None;
        }
        Some(Digest::of_bytes(bytes))
    }

    /// The digest's bytes, of which there are 1 to 64.
    pub fn as_slice(&self) -> &[u8]
        ensures value { result.now ≡ self.now }
        ensures some { 1 ≤ length result.now }
        ensures fits { length result.now ≤ 64 }
    {
        &self.room[..self.len]
    }

    /// Whether both are the same digest: as many bytes, and the same ones.
    pub fn is_same(&self, other: &Digest) -> bool
        ensures value { result ≡ bytes_eq self.now other.now }
        ensures equal { IsTrue result ↔ (self.now ≡ other.now) }
    {
        self.as_slice() == other.as_slice()
    }

    /// The bank's digest that a text spells, with two hexadecimal digits of either case for each
    /// byte.
    ///
    /// # Errors
    ///
    /// `BadLength` where the text's length isn't twice the bank's, else `BadHex` with the place of
    /// the first byte that is no hexadecimal digit.
    pub fn from_hex(bank: Bank, text: &str) -> Result<Digest, HexError>
        ensures value { result ≡ digest_of_hex bank text.now }
        ensures size { IfOk result (λ d. length d ≡ size_in bank) }
    {
        let mut room = [0u8; ROOM];
        let bytes = &mut room[..bank.size()];
        read_digits(text, bytes)?;
        Ok(Digest::of_bytes(bytes))
    }
}

/// The digest's bytes in order, each as two lower-case hexadecimal digits.
impl fmt::Display for Digest {
    ghost use Rattle.hex.specs.Hex.{encode_lower};

    ghost output = { λ d. Some (encode_lower d) };

    fn fmt<W: fmt::Write>(&self, f: &mut fmt::Formatter<W>) -> fmt::Result {
        let bytes = self.as_slice();
        let mut room = [0u8; 2 * ROOM];
        let digits = &mut room[..2 * bytes.len()];
        let Ok(()) = hex::encode_to_slice(bytes, digits) else {
            unreachable!();
        };
        let Ok(text) = str::from_utf8(digits) else {
            unreachable!();
        };
        f.write_str(text)
    }
}
