ghost use Rattle.std.specs.Prelude.{◌≤◌};

use hash_bank::Digests;

/// What is measured into one PCR at once (TCG Canonical Event Log, a record's `pcr` and `digests`).
#[derive(Clone, Copy, Debug, PartialEq, Eq)]
pub struct CelRecord {
    /// The number of the PCR, at most 23 (TCG PC Client Platform TPM Profile, 24 PCRs).
    pub pcr: u8,
    /// The measured digest in each bank that the record names.
    pub digests: Digests,
    pub ghost in_range: { pcr ≤ 23 },
}
