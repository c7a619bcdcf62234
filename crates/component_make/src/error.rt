use std::fmt;

/// Why a log gives no component files.
#[derive(Clone, Copy, Debug, PartialEq, Eq)]
pub enum LockError {
    /// The least PCR that has records and no EV_SEPARATOR.
    NoSeparator(u8),
    /// More than 256 records stand before, or behind, the separators of their PCRs.
    TooMany,
    /// Memory ran out.
    Memory,
}

impl fmt::Display for LockError {
    fn fmt<W: fmt::Write>(&self, f: &mut fmt::Formatter<W>) -> fmt::Result {
        match self {
            LockError::NoSeparator(pcr) => write!(f, "no separator in PCR {pcr}"),
            LockError::TooMany => f.write_str("more than 256 records"),
            LockError::Memory => f.write_str("no memory"),
        }
    }
}

impl std::error::Error for LockError {}
