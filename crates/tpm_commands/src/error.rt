ghost use Rattle.std.specs.Prelude.{◌≡◌};
ghost use Rattle.tpm_commands.specs.declared.error.CommandsError.TheVariants.{Memory as OutOfMemory};

use pl_base::Memory;

/// Why a text is no file of commands.
#[derive(Clone, Copy, Debug, PartialEq, Eq)]
pub enum CommandsError {
    /// The line at this place, counted from 0 over all lines, is the first that spells no command and
    /// isn't passed over.
    BadLine(u32),
    /// There are more than 65,536 lines, and as many are good.
    TooMany,
    /// Memory ran out.
    Memory,
}

impl From<Memory> for CommandsError {
    ghost from_gives = { λ _ error. error ≡ OutOfMemory };

    fn from(_error: Memory) -> CommandsError {
        CommandsError::Memory
    }
}
