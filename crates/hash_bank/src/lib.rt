//! PCR banks and their digests: the four hash algorithms that a TPM 2.0 bank may have, digests
//! that fit any of them, the hash of bytes, the extend of a PCR, and the value of a PCR after a
//! restart. This is the one place of the program that calls SHA-1 and SHA-2, and the definitions
//! of all crates above speak of its hash without opening it.
#![tactic(auto)]

mod bank;
mod banks;
mod digest;
mod digests;
mod hasher;
mod hashing;

pub use crate::bank::Bank;
pub use crate::banks::Banks;
pub use crate::digest::{Digest, HexError};
pub use crate::digests::Digests;
pub use crate::hasher::Hasher;
pub use crate::hashing::{extend, hash, hash_all, start};
