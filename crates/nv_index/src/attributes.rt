//! The one set of attributes that an index may have, and its size.

/// The attributes of a new index (TPM 2.0 Library Part 2, TPMA_NV): POLICYWRITE (bit 3), OWNERREAD
/// (17), AUTHREAD (18) and NO_DA (25).
pub const DEFINED_ATTRIBUTES: u32 = 0x0206_0008;

/// The attributes of a written index: those of a new one and WRITTEN (bit 29).
pub const WRITTEN_ATTRIBUTES: u32 = 0x2206_0008;

/// The size of an index's content in bytes: an algorithm identifier of two bytes and a digest of
/// SHA-256.
pub const CONTENT_SIZE: u16 = 34;
