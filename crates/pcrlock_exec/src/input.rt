//! The file of commands.
ghost use Rattle.std.specs.Prelude.{◌≡◌, Some, IfOk};
ghost use Rattle.pl_base.specs.FileMap.{FileMap};
ghost use Rattle.tpm_commands.specs.File.{commands_of};
ghost use Rattle.pcrlock_line.specs.Causes.{HasCauses};
ghost use Rattle.pcrlock_exec.specs.Input.{commands_at, input_found, read_from};

use pcrlock_answer::{Answer, limit, malformed_at, no_such_file};
use pcrlock_line::{Found, Stop, read_file};
use pl_base::{Files, List, Memory, Name};
use std::alloc::Global;
use tpm_commands::{CommandsError, read_commands};
use tpm_model::Command;

// The most bytes of a file of commands.
const BYTES_LIMIT: u64 = 4_194_304;

// One line more than a file of commands may have.
const LINES_PAST: u64 = 65_537;

/// What a file of commands gave.
#[derive(Debug, Drop)]
pub enum Input {
    /// Its commands, in order.
    Commands(List<Command>),
    /// The answer for a file that has none.
    Refused(Answer),
}

// The commands that the bytes of the file spell.
fn input_of(alloc: Global, path: &Name, bytes: &[u8]) -> Result<Input, Memory>
    ensures { IfOk result (λ input. input_found input ≡ read_from path.now (commands_of bytes.now)) }
{
    match read_commands(alloc, bytes) {
        Ok(commands) => Ok(Input::Commands(commands)),
        Err(CommandsError::BadLine(line)) => {
            Ok(Input::Refused(malformed_at(alloc, path.text(), line)?))
        }
        Err(CommandsError::TooMany) => Ok(Input::Refused(limit(alloc, "lines", LINES_PAST)?)),
        Err(CommandsError::Memory) => Err(Memory),
    }
}

/// The commands of the file at the path, or the answer for which there are none: `NoSuchFile`; `Limit`,
/// `commands-bytes`, with its length above 4,194,304; `Malformed` at the first line that spells no
/// command; or `Limit`, `lines`. The files stay as they are.
#[tactic(auto, unfolding(crate::specs::Input::commands_at))]
pub fn find_commands<F: Files>(alloc: Global, files: &mut F, path: &Name) -> Result<Input, Stop>
    ensures causes { HasCauses (F.faults files.old, 0, 0, 0) (F.faults files.new, 0, 0, 0) result }
    ensures told { (held : FileMap) → F.held files.old ≡ Some held → IfOk result (λ input. input_found input ≡ commands_at held path.now) }
    ensures same { F.held files.new ≡ F.held files.old }
{
    match read_file(alloc, files, path.text(), BYTES_LIMIT) {
        Ok(Found::Missing) => Ok(Input::Refused(no_such_file(alloc, path.text())?)),
        Ok(Found::TooLarge(size)) => Ok(Input::Refused(limit(alloc, "commands-bytes", size)?)),
        Ok(Found::Bytes(bytes)) => Ok(input_of(alloc, path, bytes.as_slice())?),
        Err(stop) => Err(stop),
    }
}
