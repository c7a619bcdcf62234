//! Why a command stops before its end.
ghost use Rattle.std.specs.Prelude.{◌≡◌};
ghost use Rattle.pcrlock_line.specs.declared.stop.Stop.TheVariants.{Memory as OutOfMemory};

use pl_base::Memory;

/// A fault of the outside, or want of memory.
#[derive(Clone, Copy, Debug, PartialEq, Eq)]
pub enum Stop {
    /// A file or folder couldn't be read.
    ReadFault,
    /// A file or the output couldn't be written.
    WriteFault,
    /// No random word could be had.
    EntropyFault,
    /// The TPM failed.
    TpmFault,
    /// Memory ran out.
    Memory,
}

impl From<Memory> for Stop {
    ghost from_gives = { λ _ stop. stop ≡ OutOfMemory };

    fn from(_error: Memory) -> Stop {
        Stop::Memory
    }
}
