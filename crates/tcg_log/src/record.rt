use hash_bank::Digest;
use pl_base::List;

/// The type of a record that is not extended into its PCR (EV_NO_ACTION).
pub const EV_NO_ACTION: u32 = 3;

/// A digest beside the TPM's number of its algorithm.
#[derive(Debug, Drop)]
pub struct Tagged {
    /// The algorithm's number (TPM_ALG_ID), as 0x000B for SHA-256.
    pub algorithm: u16,
    /// The digest, of the size that the Spec ID record gives the algorithm.
    pub digest: Digest,
}

/// A record of the log (TCG_PCR_EVENT2).
#[derive(Debug, Drop)]
pub struct FirmwareRecord {
    /// The PCR that the record was extended into, at most 23 where it was extended at all.
    pub pcr: u32,
    /// The record's type, as 4 for EV_SEPARATOR.
    pub kind: u32,
    /// The digests, each of another algorithm, in the log's order.
    pub digests: List<Tagged>,
    /// What was measured, or a description of it. Nothing ties it to the digests.
    pub event: List<u8>,
}
