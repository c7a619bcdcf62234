//! What a token file says.

use hash_bank::{Bank, Digest};

/// The one value of a PCR to which an object is sealed.
///
/// The object's policy is the digest that PolicyPCR leaves in a fresh session (TPM 2.0 Library
/// Part 3, TPM2_PolicyPCR). A literal that has a text has the hash SHA-256 or SHA-384, a PCR of at
/// most 23 and a value of its bank's size; that is the condition of `write_token`, and this type
/// does not ask for it.
#[derive(Clone, Copy, Debug, PartialEq, Eq)]
pub struct Literal {
    /// The hash of the session that opens the object: SHA-256 or SHA-384.
    pub hash: Bank,
    /// The bank in which the PCR is read.
    pub bank: Bank,
    /// The number of the PCR, 0 to 23.
    pub pcr: u8,
    /// The value that opens the object, as many bytes as the bank's digests have.
    pub value: Digest,
}

/// What a token says beside the object's handle.
#[derive(Clone, Copy, Debug, PartialEq, Eq)]
pub(crate) enum Kind {
    /// Nothing: the object is bound to an index.
    Bound,
    /// A literal under the hash.
    Literal(Bank),
}

/// Which sealed object holds the key, and what opens it.
#[derive(Clone, Copy, Debug, PartialEq, Eq)]
pub enum Token {
    /// The policy whose digest an NV index holds opens the object.
    Bound {
        /// The object's handle, 0x81000000 to 0x817fffff.
        object: u32,
    },
    /// One value of one PCR opens the object.
    Literal {
        /// The object's handle, 0x81000000 to 0x817fffff.
        object: u32,
        /// The value that opens it.
        literal: Literal,
    },
}
