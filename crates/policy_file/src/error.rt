//! Why a file is refused.
ghost use Rattle.std.specs.Prelude.{◌≡◌};
ghost use Rattle.policy_file.specs.declared.error.FileError.TheVariants.{Memory as NoMemory};

use std::alloc::AllocFailed;

/// What is wrong with a field of a file.
#[derive(Clone, Copy, Debug, PartialEq, Eq)]
pub enum FileKind {
    /// The file ends before the field does.
    Cut,
    /// The first eight bytes are not those of this kind of file and version.
    Magic,
    /// The field is whole and has no allowed value.
    Value,
    /// Every field was read and bytes follow the last.
    Trailing,
}

/// Why a file could not be read.
#[derive(Clone, Copy, Debug, PartialEq, Eq)]
pub enum FileError {
    /// The bytes are the text of no value.
    Malformed {
        /// Where the first field that is at fault begins, counted in bytes from 0; of `Trailing`
        /// where the last field ends.
        place: u32,
        /// What is wrong there.
        kind: FileKind,
    },
    /// There was no memory for the value. A token is read without memory.
    Memory,
}

impl<T: Drop> From<AllocFailed<T>> for FileError {
    ghost from_gives = { λ _ e. e ≡ NoMemory };

    fn from(_failed: AllocFailed<T>) -> FileError {
        FileError::Memory
    }
}

impl From<pl_base::Memory> for FileError {
    ghost from_gives = { λ _ e. e ≡ NoMemory };

    fn from(_memory: pl_base::Memory) -> FileError {
        FileError::Memory
    }
}
