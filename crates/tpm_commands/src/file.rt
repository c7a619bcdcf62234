//! A file of commands.
ghost use Rattle.std.specs.Prelude.{◌≡◌};
ghost use Rattle.tpm_commands.specs.Answers.{Gives};
ghost use Rattle.tpm_commands.specs.File.{commands_of};

use crate::grammar::Grammar;
use crate::lines::read_lines;
use crate::{CommandsError, read_command};
use pl_base::{List, Memory};
use std::alloc::Global;
use tpm_model::Command;

// Each line spells a command.
#[derive(Clone, Copy)]
struct CommandLines;

impl Grammar for CommandLines {
    ghost use Rattle.tpm_commands.specs.CommandLine.{command_of};

    type Item = Command;

    ghost spells = { λ _ line. command_of line };

    ghost behind = { λ grammar _. grammar };

    fn read(&mut self, _alloc: Global, line: &[u8]) -> Result<Option<Command>, Memory> {
        Ok(read_command(line))
    }
}

/// The commands of a file: UTF-8 text of lines that each end in a line feed, which the last may lack. A
/// line that is empty or begins with `#` is passed over, and every other one spells a command as
/// `read_command` has it.
///
/// # Errors
///
/// `BadLine` with the first line that is neither, counted from 0 over all lines, among the first 65,536.
/// Else `TooMany` where there are more than 65,536 lines, those that are passed over among them.
pub fn read_commands(alloc: Global, bytes: &[u8]) -> Result<List<Command>, CommandsError>
    ensures { Gives (λ commands. commands) result (commands_of bytes.now) }
{
    read_lines(alloc, &mut CommandLines, bytes)
}
