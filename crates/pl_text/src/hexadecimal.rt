//! Numbers and bytes in hexadecimal digits of either case.
ghost use Rattle.std.specs.Prelude.{◌≡◌, length, IfSome};
ghost use Rattle.hash_bank.specs.Hash.{size_in};
ghost use Rattle.pl_text.specs.Words.{bytes_of, handle_of};

use hash_bank::{Bank, Digest};
use hex::FromHex;

/// A number of 32 bits, as a handle or attributes, in eight digits.
pub fn read_handle(word: &[u8]) -> Option<u32>
    ensures { result ≡ handle_of word.now }
{
    let bytes = <[u8; 4]>::from_hex(word).ok()?;
    Some(u32::from_be_bytes(bytes))
}

/// The 32 bytes of a pin, in 64 digits.
pub fn read_pin(word: &[u8]) -> Option<[u8; 32]>
    ensures { result ≡ bytes_of 32 word.now }
{
    <[u8; 32]>::from_hex(word).ok()
}

/// A digest of the bank's length (FIPS 180-4), in two digits a byte.
pub fn read_digest(bank: Bank, word: &[u8]) -> Option<Digest>
    ensures value { result ≡ bytes_of (size_in bank) word.now }
    ensures size { IfSome result (λ digest. length digest ≡ size_in bank) }
{
    let mut room = [0; 64];
    let bytes = &mut room[..bank.size()];
    match hex::decode_to_slice(word, bytes) {
        Ok(()) => Digest::from_slice(bytes),
        Err(_) => None,
    }
}
