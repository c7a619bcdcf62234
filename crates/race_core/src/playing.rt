//! A race on a TPM.
ghost use Rattle.std.specs.Prelude.{◌≡◌, Bool, true, Some, Err, IfErr, length};
ghost use Rattle.std.specs.List.{AllByRecursion};
ghost use Rattle.pl_base.specs.Faults.{HasCause};
ghost use Rattle.tpm_model.specs.declared.parts.Parts.{Parts};
ghost use Rattle.tpm_device.specs.Running.{IsLive};
ghost use Rattle.race_core.specs.Playing.{GivesAll, GivesOne, stays_ready};
ghost use Rattle.race_core.specs.Racing.{IsEvent, race_command};

use crate::event::Event;
use crate::race::Race;
use std::alloc::Global;
use tpm_device::{ExecError, Tpm};
use tpm_model::Command;

/// Why a race stopped.
#[derive(Clone, Copy, Debug, PartialEq, Eq)]
pub enum PlayError {
    /// The device failed, and its count of faults rose.
    Failed,
    /// Memory ran out.
    Memory,
}

/// Gives an event's command, and takes its answer.
fn give<T: Tpm>(
    alloc: Global,
    race: &mut Race,
    event: &Event,
    command: &Command,
    tpm: &mut T,
) -> Result<(), PlayError>
    requires readiness { T.ready tpm.old ≡ true }
    requires event { IsEvent (length race.old.clients) event.now }
    requires command { race_command race.old event.now ≡ Some command.now }
    ensures cause { HasCause (T.faults tpm.old) (T.faults tpm.new) (result ≡ Err PlayError.Failed) }
    ensures readiness { T.ready tpm.new ≡ stays_ready result }
    ensures clients { length race.new.clients ≡ length race.old.clients }
    ensures told { (s : Parts) (keeps : Bool) → IsLive keeps s (T.live tpm.old) (T.stored tpm.old)
        → GivesOne keeps event.now (record { race = race.old; state = s }) result race.new (T.live tpm.new) (T.stored tpm.new) }
{
    match tpm.execute(alloc, command) {
        Ok(response) => match race.take(alloc, event, &response) {
            Ok(()) => Ok(()),
            Err(_) => Err(PlayError::Memory),
        },
        Err(ExecError::Failed) => Err(PlayError::Failed),
        Err(ExecError::Memory) => Err(PlayError::Memory),
    }
}

/// Plays one event; one without a command is passed over.
fn play_one<T: Tpm>(
    alloc: Global,
    race: &mut Race,
    event: &Event,
    tpm: &mut T,
) -> Result<(), PlayError>
    requires readiness { T.ready tpm.old ≡ true }
    requires event { IsEvent (length race.old.clients) event.now }
    ensures cause { HasCause (T.faults tpm.old) (T.faults tpm.new) (result ≡ Err PlayError.Failed) }
    ensures readiness { T.ready tpm.new ≡ stays_ready result }
    ensures clients { length race.new.clients ≡ length race.old.clients }
    ensures told { (s : Parts) (keeps : Bool) → IsLive keeps s (T.live tpm.old) (T.stored tpm.old)
        → GivesOne keeps event.now (record { race = race.old; state = s }) result race.new (T.live tpm.new) (T.stored tpm.new) }
{
    match race.command(event) {
        Some(command) => give(alloc, race, event, &command, tpm),
        None => Ok(()),
    }
}

/// Plays the events of a race on a TPM, in order: each gives its command, and the race takes the answer. An event
/// without a command is passed over.
///
/// # Errors
///
/// `Failed` where the device failed, or `Memory`. The race then has the answer of every command that was answered,
/// but for the last one's where it found no memory to take it. The commands that were given stay done.
pub fn play<T: Tpm>(
    alloc: Global,
    race: &mut Race,
    events: &[Event],
    tpm: &mut T,
) -> Result<(), PlayError>
    requires readiness { T.ready tpm.old ≡ true }
    requires events { AllByRecursion (IsEvent (length race.old.clients)) events.now }
    ensures cause { HasCause (T.faults tpm.old) (T.faults tpm.new) (result ≡ Err PlayError.Failed) }
    ensures readiness { T.ready tpm.new ≡ stays_ready result }
    ensures clients { length race.new.clients ≡ length race.old.clients }
    ensures told { (s : Parts) (keeps : Bool) → IsLive keeps s (T.live tpm.old) (T.stored tpm.old)
        → GivesAll keeps events.now (record { race = race.old; state = s }) result race.new (T.live tpm.new) (T.stored tpm.new) }
{
    for event in events {
        match play_one(alloc, race, event, tpm) {
            Ok(()) => {}
            Err(error) => return Err(error),
        }
    }
    Ok(())
}
