ghost use Rattle.std.specs.Prelude.{◌≤◌};

use hash_bank::Digests;

/// Who measured a record.
#[derive(Clone, Copy, Debug, PartialEq, Eq)]
pub enum Origin {
    /// The firmware, under an event of this type (TCG PC Client Platform Firmware Profile).
    Firmware(u32),
    /// A program of userspace.
    User,
}

/// What was measured into one PCR at once.
#[derive(Clone, Copy, Debug, PartialEq, Eq)]
pub struct LogRecord {
    /// Who measured it.
    pub origin: Origin,
    /// The number of the PCR, at most 23.
    pub pcr: u8,
    /// The digest that each bank was extended by.
    pub digests: Digests,
    pub ghost in_range: { pcr ≤ 23 },
}
