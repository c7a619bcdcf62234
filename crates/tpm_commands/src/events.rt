//! A file of the events of a race.
ghost use Rattle.std.specs.Prelude.{◌≡◌};
ghost use Rattle.tpm_commands.specs.Answers.{Gives};
ghost use Rattle.tpm_commands.specs.Events.{events_in};

use crate::CommandsError;
use crate::event::{EventLine, read_event};
use crate::grammar::Grammar;
use crate::lines::read_lines;
use pl_base::{List, Memory};
use std::alloc::Global;

// How many updates a file may have.
const UPDATE_LIMIT: u32 = 256;

// Each line spells an event, of which so many may still be updates.
#[derive(Clone, Copy)]
struct EventLines {
    clients: u32,
    updates: u32,
}

impl Grammar for EventLines {
    ghost use Rattle.tpm_commands.specs.Events.{event_of};
    ghost use Rattle.tpm_commands.specs.Walk.{left_after, permitted};

    type Item = EventLine;

    ghost spells = { λ grammar line. permitted grammar.updates (event_of grammar.clients line) };

    ghost behind = { λ grammar line. record grammar { updates = left_after grammar.updates (event_of grammar.clients line) } };

    fn read(&mut self, alloc: Global, line: &[u8]) -> Result<Option<EventLine>, Memory> {
        let event = read_event(alloc, line, self.clients)?;
        if let Some(EventLine::Update { .. }) = &event {
            if self.updates == 0 {
                return Ok(None);
            }
            self.updates -= 1;
        }
        Ok(event)
    }
}

/// The events of a race of so many clients: a file of lines like that of [`crate::read_commands`], whose
/// lines are
///
/// | Line | Event |
/// |---|---|
/// | `step CLIENT`, a number below that of the clients | `Step` |
/// | `command LINE`, a command's line as `read_command` has it | `Stranger` |
/// | `update PIN PATH`, a pin of 32 bytes in hexadecimal digits and a path without a space | `Update` |
///
/// At most 256 lines are updates: the next one is a bad line.
///
/// # Errors
///
/// Those of [`crate::read_commands`].
pub fn read_events(
    alloc: Global,
    bytes: &[u8],
    clients: u32,
) -> Result<List<EventLine>, CommandsError>
    ensures { Gives (λ events. events) result (events_in clients bytes.now) }
{
    let mut grammar = EventLines {
        clients,
        updates: UPDATE_LIMIT,
    };
    read_lines(alloc, &mut grammar, bytes)
}
