//! Why a command on an index is refused.
use hash_bank::Digest;

/// Why a TPM refuses a command on an index. The values are named as TPM 2.0 Library Part 3 speaks
/// of the cause; none is a TPM_RC code.
#[derive(Clone, Copy, Debug, PartialEq, Eq)]
pub enum NvRefusal {
    /// The handle isn't from 0x01000000 to 0x01FFFFFF.
    Handle,
    /// The attributes aren't those that a new index may have.
    Attributes,
    /// The size isn't that of an index's content, or the content to write has another one.
    Size,
    /// The policy isn't a digest of SHA-256.
    Value,
    /// An index with the handle is there already.
    Defined,
    /// The table of indices is full.
    TableFull,
    /// No index with the handle is there.
    NotDefined,
    /// The policy that the presented pin gives isn't that of the index.
    PinRefused {
        /// The policy of the presented pin.
        given: Digest,
        /// The policy of the index.
        index: Digest,
    },
    /// The index was never written.
    Uninitialized,
}

/// Why an index can't be defined.
#[derive(Clone, Copy, Debug, PartialEq, Eq)]
pub enum DefineError {
    /// The TPM refuses the definition.
    Refused(NvRefusal),
    /// There was no memory for the index.
    Memory,
}
