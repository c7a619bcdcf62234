//! A file of the commands of several clients.
ghost use Rattle.std.specs.Prelude.{◌≡◌};
ghost use Rattle.tpm_commands.specs.Answers.{Gives};
ghost use Rattle.tpm_commands.specs.Clients.{client_command_of, client_commands_in, client_of};

use crate::grammar::Grammar;
use crate::lines::read_lines;
use crate::{CommandsError, read_command};
use pl_base::{List, Memory};
use pl_text::{cut, read_number};
use std::alloc::Global;
use tpm_model::Command;

/// The number of one of so many clients.
pub(crate) fn read_client(word: &[u8], clients: u32) -> Option<u32>
    ensures { result ≡ client_of clients word.now }
{
    let client = read_number(word, u32::MAX)?;
    if client < clients { Some(client) } else { None }
}

// The client and its command that a line spells.
#[tactic(auto, unfolding(crate::specs::Clients::client_command_of, crate::specs::CommandLine::command_of))]
fn read_client_command(line: &[u8], clients: u32) -> Option<(u32, Command)>
    ensures { result ≡ client_command_of clients line.now }
{
    let (client, behind) = cut(line, b' ');
    let client = read_client(client, clients)?;
    let command = read_command(behind?)?;
    Some((client, command))
}

// Each line spells a client and its command.
#[derive(Clone, Copy)]
struct ClientLines {
    clients: u32,
}

impl Grammar for ClientLines {
    type Item = (u32, Command);

    ghost spells = { λ grammar line. client_command_of grammar.clients line };

    ghost behind = { λ grammar _. grammar };

    fn read(&mut self, _alloc: Global, line: &[u8]) -> Result<Option<(u32, Command)>, Memory> {
        Ok(read_client_command(line, self.clients))
    }
}

/// The commands of so many clients, in the order of their file, each with its client's number. Each line
/// is `CLIENT LINE`: a number below that of the clients, in decimal digits with no sign and no leading
/// zero, a space, and a command's line as `read_command` has it. A line that is empty or begins with `#`
/// is passed over.
///
/// # Errors
///
/// Those of [`crate::read_commands`].
pub fn read_client_commands(
    alloc: Global,
    bytes: &[u8],
    clients: u32,
) -> Result<List<(u32, Command)>, CommandsError>
    ensures { Gives (λ commands. commands) result (client_commands_in clients bytes.now) }
{
    read_lines(alloc, &mut ClientLines { clients }, bytes)
}
