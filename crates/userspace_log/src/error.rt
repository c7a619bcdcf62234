ghost use Rattle.std.specs.Prelude.{◌≡◌};
ghost use Rattle.userspace_log.specs.declared.error.SeqError.TheVariants as errors;

use cel_record::RecordKind;
use std::fmt;

/// Why bytes are no userspace log, as the first fault in the order of its texts.
#[derive(Clone, Copy, Debug, PartialEq, Eq)]
pub enum SeqError {
    /// No separator stands at place 0, or the text that ends at this place has no line feed as its
    /// last byte. Places are in bytes, from 0.
    BadSeparator(u32),
    /// The text of this number, counted from 0 with those that are skipped, is no record.
    BadRecord {
        /// The text's number.
        number: u32,
        /// Why it is none.
        kind: RecordKind,
    },
    /// A further text begins behind 4,096 texts.
    TooMany,
    /// Memory ran out.
    Memory,
}

impl fmt::Display for SeqError {
    fn fmt<W: fmt::Write>(&self, f: &mut fmt::Formatter<W>) -> fmt::Result {
        match self {
            SeqError::BadSeparator(place) => write!(f, "no separator at byte {place}"),
            SeqError::BadRecord { number, kind } => write!(f, "record {number}: {kind}"),
            SeqError::TooMany => f.write_str("more than 4,096 texts"),
            SeqError::Memory => f.write_str("no memory"),
        }
    }
}

impl std::error::Error for SeqError {}

impl From<pl_base::Memory> for SeqError {
    ghost from_gives = { λ _ error. error ≡ errors.Memory };

    fn from(_memory: pl_base::Memory) -> SeqError {
        SeqError::Memory
    }
}
