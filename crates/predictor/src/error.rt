ghost use Rattle.std.specs.Prelude.{◌≡◌};
ghost use Rattle.predictor.specs.declared.error.WindowError.TheVariants as window_errors;
ghost use Rattle.predictor.specs.declared.error.ForeseeError.TheVariants as foresee_errors;
ghost use Rattle.predictor.specs.declared.error.ProtectError.TheVariants as protect_errors;

use pl_base::Memory;

/// Why a text is no window.
#[derive(Clone, Copy, Debug, PartialEq, Eq)]
pub enum WindowError {
    /// A side is empty, a second colon stands there, or the start is greater than the end.
    BadLocation,
    /// Memory ran out.
    Memory,
}

impl From<Memory> for WindowError {
    ghost from_gives = { λ _ error. error ≡ window_errors.Memory };

    fn from(_memory: Memory) -> WindowError {
        WindowError::Memory
    }
}

/// Why nothing is foreseen.
#[derive(Clone, Copy, Debug, PartialEq, Eq)]
pub enum ForeseeError {
    /// A record of the PCR lacks the bank, and this is the first one, in the order of components, of
    /// their variants and of the variants' records.
    NoDigest {
        /// The component's number, from 0 on.
        component: u32,
        /// The variant's number in its component, from 0 on.
        variant: u32,
        /// The record's number among all records of the variant, from 0 on.
        place: u32,
    },
    /// After this number of components, or over the cuts up to it, more than 512 distinct values are
    /// reached, and it is the least such number.
    TooMany(u32),
    /// Memory ran out.
    Memory,
}

impl From<Memory> for ForeseeError {
    ghost from_gives = { λ _ error. error ≡ foresee_errors.Memory };

    fn from(_memory: Memory) -> ForeseeError {
        ForeseeError::Memory
    }
}

/// Why no table is made.
#[derive(Clone, Copy, Debug, PartialEq, Eq)]
pub enum ProtectError {
    /// A record of an asked PCR lacks the bank, as `ForeseeError::NoDigest` says.
    NoDigest {
        /// The component's number, from 0 on.
        component: u32,
        /// The variant's number in its component, from 0 on.
        variant: u32,
        /// The record's number among all records of the variant, from 0 on.
        place: u32,
    },
    /// More than 512 distinct values or states are reached, as `ForeseeError::TooMany` says.
    TooMany {
        /// The PCR; for several together the lowest of them.
        pcr: u8,
        /// The number of components.
        count: u32,
    },
    /// Memory ran out.
    Memory,
}

impl From<Memory> for ProtectError {
    ghost from_gives = { λ _ error. error ≡ protect_errors.Memory };

    fn from(_memory: Memory) -> ProtectError {
        ProtectError::Memory
    }
}
