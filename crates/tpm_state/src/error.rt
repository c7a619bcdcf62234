//! Why bytes are no state file.
ghost use Rattle.std.specs.Prelude.{◌≡◌};
ghost use Rattle.tpm_state.specs.declared.error.DecodeError.TheVariants.{Memory as NoMemory};

use std::alloc::{AllocError, AllocFailed};
use std::fmt;
use tpm_model::StateRule;

/// Why bytes were not read as a state.
#[derive(Clone, Copy, Debug, PartialEq, Eq)]
pub enum DecodeError {
    /// The offset at which the first field begins that ends after the bytes or has no allowed
    /// value, or at which bytes are left over behind the last field.
    Malformed(u32),
    /// The bytes are laid out as a state, and this is the first rule that it breaks.
    BadRule(StateRule),
    /// Memory ran out.
    Memory,
}

impl fmt::Display for DecodeError {
    fn fmt<W: fmt::Write>(&self, f: &mut fmt::Formatter<W>) -> fmt::Result {
        match self {
            DecodeError::Malformed(place) => write!(f, "no state at {place}"),
            DecodeError::BadRule(rule) => write!(f, "a state that breaks the rule {rule:?}"),
            DecodeError::Memory => f.write_str("no memory"),
        }
    }
}

impl std::error::Error for DecodeError {}

impl From<AllocError> for DecodeError {
    ghost from_gives = { λ _ e. e ≡ NoMemory };

    fn from(_error: AllocError) -> DecodeError {
        DecodeError::Memory
    }
}

impl<T: Drop> From<AllocFailed<T>> for DecodeError {
    ghost from_gives = { λ _ e. e ≡ NoMemory };

    fn from(_failed: AllocFailed<T>) -> DecodeError {
        DecodeError::Memory
    }
}

impl From<pl_base::Memory> for DecodeError {
    ghost from_gives = { λ _ e. e ≡ NoMemory };

    fn from(_memory: pl_base::Memory) -> DecodeError {
        DecodeError::Memory
    }
}
