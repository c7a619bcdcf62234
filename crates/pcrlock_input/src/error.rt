ghost use Rattle.std.specs.Prelude.{◌≡◌};
ghost use Rattle.pcrlock_input.specs.declared.error.InputError.TheVariants.{Memory as OutOfMemory};

use pcrlock_answer::Answer;
use pl_base::Memory;

/// Why an input of a command can't be used.
#[derive(Debug, Drop)]
pub enum InputError {
    /// The command answers this, and does nothing.
    Refused(Answer),
    /// A file or folder couldn't be read, and the files' count of faults rose.
    Failed,
    /// Memory ran out.
    Memory,
}

impl From<Memory> for InputError {
    ghost from_gives = { λ _ error. error ≡ OutOfMemory };

    fn from(_error: Memory) -> InputError {
        InputError::Memory
    }
}
