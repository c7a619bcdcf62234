ghost use Rattle.std.specs.Prelude.{◌≡◌};
ghost use Rattle.tcg_log.specs.declared.error.LogError.TheVariants.{Memory};

use std::alloc::{AllocError, AllocFailed};
use std::fmt;

/// What is wrong with the first field of a log that is cut or has no allowed value.
#[derive(Clone, Copy, Debug, PartialEq, Eq)]
pub enum LogKind {
    /// The field ends after the bytes.
    Cut,
    /// The bytes do not begin as a Spec ID record does.
    NoSpecId,
    /// The Spec ID record names no algorithm or more than 16, one twice, or one with a size that
    /// it does not have.
    Algorithms,
    /// The size of the Spec ID record is not that of its fields.
    SpecSize,
    /// A record that is extended names a PCR above 23.
    PcrNumber,
    /// A record has no digest, or more than there are algorithms.
    Count,
    /// A digest's algorithm is not one of the Spec ID record's, or stands in the record before.
    DigestAlgorithm,
}

/// Why bytes were not read as a log.
#[derive(Clone, Copy, Debug, PartialEq, Eq)]
pub enum LogError {
    /// A field is cut or has no allowed value.
    Malformed {
        /// The offset at which the first such field begins.
        place: u32,
        /// What is wrong with it.
        kind: LogKind,
    },
    /// 16,384 records were read and bytes remain.
    TooMany,
    /// Memory ran out.
    Memory,
}

impl fmt::Display for LogKind {
    fn fmt<W: fmt::Write>(&self, f: &mut fmt::Formatter<W>) -> fmt::Result {
        f.write_str(match self {
            LogKind::Cut => "a field is cut",
            LogKind::NoSpecId => "no Spec ID record",
            LogKind::Algorithms => "algorithms",
            LogKind::SpecSize => "size of the Spec ID record",
            LogKind::PcrNumber => "PCR",
            LogKind::Count => "count of digests",
            LogKind::DigestAlgorithm => "algorithm of a digest",
        })
    }
}

impl fmt::Display for LogError {
    fn fmt<W: fmt::Write>(&self, f: &mut fmt::Formatter<W>) -> fmt::Result {
        match self {
            LogError::Malformed { place, kind } => write!(f, "{kind} at {place}"),
            LogError::TooMany => f.write_str("too many records"),
            LogError::Memory => f.write_str("no memory"),
        }
    }
}

impl std::error::Error for LogError {}

impl From<AllocError> for LogError {
    ghost from_gives = { λ _ e. e ≡ Memory };

    fn from(_error: AllocError) -> LogError {
        LogError::Memory
    }
}

impl<T: Drop> From<AllocFailed<T>> for LogError {
    ghost from_gives = { λ _ e. e ≡ Memory };

    fn from(_failed: AllocFailed<T>) -> LogError {
        LogError::Memory
    }
}

impl From<pl_base::Memory> for LogError {
    ghost from_gives = { λ _ e. e ≡ Memory };

    fn from(_memory: pl_base::Memory) -> LogError {
        LogError::Memory
    }
}
