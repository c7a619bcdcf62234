//! The event of a race that a line spells.
ghost use Rattle.std.specs.Prelude.{◌≡◌, option_map, IfOk};
ghost use Rattle.tpm_commands.specs.Events.{event_of, path_of, step_of, stranger_of, update_of};
ghost use Rattle.pl_text.specs.Parts.{parts_behind};

use crate::clients::read_client;
use crate::read_command;
use pl_base::{Memory, Name};
use pl_text::{cut, one_part, read_pin, two_parts};
use std::alloc::Global;
use std::str;
use tpm_model::Command;

/// An event of a race, as a line names it.
#[derive(Debug, Drop)]
pub enum EventLine {
    /// The client of this number makes its next step.
    Step(u32),
    /// A stranger sends the command.
    Stranger(Command),
    /// The table of a policy file is put in force.
    Update {
        /// The pin by which the index is written.
        pin: [u8; 32],
        /// The path of the policy file.
        path: Name,
    },
}

// `step CLIENT`.
fn step(words: Option<&[u8]>, clients: u32) -> Option<EventLine>
    ensures { result ≡ step_of clients (parts_behind 32 words.entry) }
{
    let client = read_client(one_part(words, b' ')?, clients)?;
    Some(EventLine::Step(client))
}

// `command LINE`.
#[tactic(auto, unfolding(crate::specs::CommandLine::command_of))]
fn stranger(words: Option<&[u8]>) -> Option<EventLine>
    ensures { result ≡ stranger_of (parts_behind 32 words.entry) }
{
    let command = read_command(words?)?;
    Some(EventLine::Stranger(command))
}

// A path, of at least one byte.
fn read_path(word: &[u8]) -> Option<&str>
    ensures { option_map (λ path. path.now) result ≡ path_of word.now }
{
    if word.is_empty() {
        return None;
    }
    match str::from_utf8(word) {
        Ok(path) => Some(path),
        Err(_) => None,
    }
}

// `update PIN PATH`.
fn update(alloc: Global, words: Option<&[u8]>) -> Result<Option<EventLine>, Memory>
    ensures { IfOk result (λ event. event ≡ update_of (parts_behind 32 words.entry)) }
{
    let Some((pin, path)) = two_parts(words, b' ') else {
        return Ok(None);
    };
    let Some(pin) = read_pin(pin) else {
        return Ok(None);
    };
    let Some(path) = read_path(path) else {
        return Ok(None);
    };
    let path = Name::from_text(alloc, path)?;
    Ok(Some(EventLine::Update { pin, path }))
}

/// The event that a line spells, in a race of so many clients.
#[tactic(auto, unfolding(crate::specs::Events::event_of))]
pub(crate) fn read_event(
    alloc: Global,
    line: &[u8],
    clients: u32,
) -> Result<Option<EventLine>, Memory>
    ensures { IfOk result (λ event. event ≡ event_of clients line.now) }
{
    let (verb, words) = cut(line, b' ');
    if verb == b"step".as_slice() {
        return Ok(step(words, clients));
    }
    if verb == b"command".as_slice() {
        return Ok(stranger(words));
    }
    if verb == b"update".as_slice() {
        return update(alloc, words);
    }
    Ok(None)
}
