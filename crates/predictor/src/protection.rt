//! What a policy protects.
use hash_bank::Digest;
use pl_base::List;
use policy_digest::Table;

/// Why an asked PCR is left out of a policy.
#[derive(Clone, Copy, Debug, PartialEq, Eq)]
pub enum Cause {
    /// A record of the PCR in the log lacks the bank.
    NoLogDigest,
    /// The PCR holds another value than the replay of its log.
    ValueDiffers {
        /// The replay's value.
        replayed: Digest,
        /// The value that the PCR holds.
        now: Digest,
    },
    /// No choice of the components up to this number, counted from 0, has its digests in order among
    /// the log's, and the number is the least such one.
    MissingComponent(u32),
    /// No choice of the components explains the log's digests, and none is missing.
    Unrecognised,
}

/// A PCR that is left out of a policy.
#[derive(Clone, Copy, Debug, PartialEq, Eq)]
pub struct LeftOut {
    /// The number of the PCR.
    pub pcr: u8,
    /// Why it is left out.
    pub cause: Cause,
}

/// A table for the asked PCRs that can be protected, and the others.
#[derive(Debug, Drop)]
pub struct Protection {
    /// The table; it has no row where no PCR is protected.
    pub table: Table,
    /// Each other asked PCR, ascending.
    pub left: List<LeftOut>,
}
