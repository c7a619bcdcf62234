ghost use Rattle.std.specs.Prelude.{◌≡◌};
ghost use Rattle.cel_record.specs.declared.error.RecordsError.TheVariants as errors;

use crate::kind::RecordKind;
use std::fmt;

/// Why bytes are no component file, as the first test that fails.
#[derive(Clone, Copy, Debug, PartialEq, Eq)]
pub enum RecordsError {
    /// The bytes are no JSON text (RFC 8259) that `serde_json` reads.
    NotJson,
    /// The value is neither an array nor an object with an array under `records`.
    NotRecords,
    /// The value of this number, counted from 0, is no record.
    BadRecord {
        /// The value's number.
        number: u32,
        /// Why it is none.
        kind: RecordKind,
    },
    /// A further value stands after 256 records.
    TooMany,
    /// Memory ran out.
    Memory,
}

impl fmt::Display for RecordsError {
    fn fmt<W: fmt::Write>(&self, f: &mut fmt::Formatter<W>) -> fmt::Result {
        match self {
            RecordsError::NotJson => f.write_str("no JSON"),
            RecordsError::NotRecords => f.write_str("no list of records"),
            RecordsError::BadRecord { number, kind } => write!(f, "record {number}: {kind}"),
            RecordsError::TooMany => f.write_str("more than 256 records"),
            RecordsError::Memory => f.write_str("no memory"),
        }
    }
}

impl std::error::Error for RecordsError {}

impl From<pl_base::Memory> for RecordsError {
    ghost from_gives = { λ _ error. error ≡ errors.Memory };

    fn from(_memory: pl_base::Memory) -> RecordsError {
        RecordsError::Memory
    }
}
