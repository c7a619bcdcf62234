//! The file of the commands of several clients.
ghost use Rattle.std.specs.Prelude.{◌≡◌, Some, IfOk};
ghost use Rattle.pl_base.specs.FileMap.{FileMap};
ghost use Rattle.tpm_commands.specs.Clients.{client_commands_in};
ghost use Rattle.pcrlock_line.specs.Causes.{HasCauses};
ghost use Rattle.pcrlock_exec.specs.Input.{read_from};
ghost use Rattle.pcrlock_broker.specs.Input.{AreOfClients, asked_at, asked_found};

use pcrlock_answer::{Answer, limit, malformed_at, no_such_file};
use pcrlock_line::{Found, Stop, read_file};
use pl_base::{Files, List, Memory, Name};
use std::alloc::Global;
use tpm_commands::{CommandsError, read_client_commands};
use tpm_model::Command;

// The most bytes of a file of commands.
const BYTES_LIMIT: u64 = 4_194_304;

// One line more than a file of commands may have.
const LINES_PAST: u64 = 65_537;

/// What a file of client commands gave.
#[derive(Debug, Drop)]
pub enum Asked {
    /// Its commands, in order, each with the number of its client.
    Commands(List<(u32, Command)>),
    /// The answer for a file that has none.
    Refused(Answer),
}

// The commands of so many clients that the bytes of the file spell.
fn asked_in(alloc: Global, path: &Name, clients: u32, bytes: &[u8]) -> Result<Asked, Memory>
    ensures told { IfOk result (λ asked. asked_found asked ≡ read_from path.now (client_commands_in clients bytes.now)) }
    ensures numbers { IfOk result (λ asked. AreOfClients clients asked) }
{
    match read_client_commands(alloc, bytes, clients) {
        Ok(commands) => Ok(Asked::Commands(commands)),
        Err(CommandsError::BadLine(line)) => {
            Ok(Asked::Refused(malformed_at(alloc, path.text(), line)?))
        }
        Err(CommandsError::TooMany) => Ok(Asked::Refused(limit(alloc, "lines", LINES_PAST)?)),
        Err(CommandsError::Memory) => Err(Memory),
    }
}

/// The commands of so many clients in the file at the path, or the answer for which there are none: `NoSuchFile`;
/// `Limit`, `commands-bytes`, with its length above 4,194,304; `Malformed` at the first line that spells no command of
/// one of the clients; or `Limit`, `lines`. The files stay as they are.
#[tactic(auto, unfolding(crate::specs::Input::asked_at))]
pub fn find_asked<F: Files>(
    alloc: Global,
    files: &mut F,
    path: &Name,
    clients: u32,
) -> Result<Asked, Stop>
    ensures causes { HasCauses (F.faults files.old, 0, 0, 0) (F.faults files.new, 0, 0, 0) result }
    ensures told { (held : FileMap) → F.held files.old ≡ Some held → IfOk result (λ asked. asked_found asked ≡ asked_at held path.now clients) }
    ensures numbers { IfOk result (λ asked. AreOfClients clients asked) }
    ensures same { F.held files.new ≡ F.held files.old }
{
    match read_file(alloc, files, path.text(), BYTES_LIMIT) {
        Ok(Found::Missing) => Ok(Asked::Refused(no_such_file(alloc, path.text())?)),
        Ok(Found::TooLarge(size)) => Ok(Asked::Refused(limit(alloc, "commands-bytes", size)?)),
        Ok(Found::Bytes(bytes)) => Ok(asked_in(alloc, path, clients, bytes.as_slice())?),
        Err(stop) => Err(stop),
    }
}
