ghost use Rattle.std.specs.Prelude.{◌≡◌};

use std::alloc::{AllocError, AllocFailed};
use std::fmt;

/// Memory ran out. It has no cause that a contract names.
#[derive(Clone, Copy, Debug, PartialEq, Eq)]
pub struct Memory;

impl fmt::Display for Memory {
    fn fmt<W: fmt::Write>(&self, f: &mut fmt::Formatter<W>) -> fmt::Result {
        write!(f, "no memory")
    }
}

impl std::error::Error for Memory {}

impl From<AllocError> for Memory {
    fn from(_error: AllocError) -> Memory {
        Memory
    }
}

impl<T: Drop> From<AllocFailed<T>> for Memory {
    fn from(_failed: AllocFailed<T>) -> Memory {
        Memory
    }
}
