//! What a TPM holds of an index.
use hash_bank::Digest;
use pl_base::Small;

/// The public area of an index (TPM 2.0 Library Part 2, TPMS_NV_PUBLIC); its Name's hash is
/// SHA-256. It holds a digest, so pass it by reference.
#[derive(Clone, Copy, Debug, PartialEq, Eq)]
pub struct NvPublic {
    /// The index's handle, from 0x01000000 to 0x01FFFFFF in an index that a TPM defined.
    pub handle: u32,
    /// The attributes (TPMA_NV).
    pub attributes: u32,
    /// The policy that a write has to meet.
    pub policy: Digest,
    /// The size of the content in bytes.
    pub size: u16,
}

/// The last write of an index.
#[derive(Clone, Copy, Debug, PartialEq, Eq)]
pub struct Written {
    /// The write's number, counted over all writes of all indices from 1 on.
    pub number: u32,
    /// The content.
    pub value: Small,
}

/// An index: its public area, and its last write where it was written.
#[derive(Clone, Copy, Debug, PartialEq, Eq)]
pub struct Index {
    /// The public area.
    pub public: NvPublic,
    /// The last write, or None where the index is unwritten.
    pub written: Option<Written>,
}
