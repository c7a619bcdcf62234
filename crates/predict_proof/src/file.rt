//! What a proof file holds.
use crate::proof::Proof;
use hash_bank::Bank;
use pl_base::List;

/// Proofs with the bank and the locality that they hold for.
#[derive(Debug, Drop)]
pub struct ProofFile {
    /// The bank of all values.
    pub bank: Bank,
    /// The locality that the platform starts at: 0, 3 or 4.
    pub locality: u8,
    /// The proofs, of which a file holds at most 12,288.
    pub proofs: List<Proof>,
}
