//! `tpm-exec`: the commands of a file.
ghost use Rattle.std.specs.Prelude.{◌≡◌, ◌⊎◌, ◌++◌, ℕ, true, List as Sequence, Option as Maybe, Some, IfOk, IfErr};
ghost use Rattle.pl_base.specs.FileMap.{FileMap};
ghost use Rattle.tpm_model.specs.Events.{Clean};
ghost use Rattle.tpm_model.specs.Orderly.{Orderly};
ghost use Rattle.tpm_model.specs.Respond.{respond};
ghost use Rattle.tpm_model.specs.Rules.{HasRules};
ghost use Rattle.tpm_model.specs.World.{World};
ghost use Rattle.tpm_model.specs.declared.command.Command.{Command as TheCommand};
ghost use Rattle.tpm_model.specs.declared.parts.Parts.{Parts};
ghost use Rattle.tpm_worlds.specs.CommandLists.{state_after};
ghost use Rattle.tpm_worlds.specs.EventLists.{EachOpensByValue, Safe};
ghost use Rattle.tpm_worlds.specs.SealedTie.{SealedTie};
ghost use Rattle.tpm_worlds.specs.SteadySessions.{SteadySessions};
ghost use Rattle.tpm_worlds.specs.WholeEvents.{OwnTie};
ghost use Rattle.tpm_unseals.specs.ByPolicy.{EachOpens};
ghost use Rattle.tpm_commands.specs.Responses.{response_text};
ghost use Rattle.pcrlock_line.specs.Begun.{by_device};
ghost use Rattle.pcrlock_line.specs.Causes.{HasCauses};
ghost use Rattle.pcrlock_line.specs.Machine.{Machine, Live, Tells, machine};
ghost use Rattle.pcrlock_line.specs.Outcome.{Gives};
ghost use Rattle.pcrlock_line.specs.Stopped.{StandsAmong};
ghost use Rattle.pcrlock_line.specs.Worlds.{IsTied};
ghost use Rattle.pcrlock_line.specs.declared.stop.Stop.TheVariants.{Memory as OutOfMemory};
ghost use Rattle.pcrlock_exec.specs.Exec.{events_of, exec_strings, exec_text, exec_world, executed_line, tpm_exec_line};
ghost use Rattle.pcrlock_exec.specs.Worlds.{tpm_exec_world};
ghost use Rattle.pcrlock_exec.specs.Sending.{IsPartWay};
ghost use Rattle.pcrlock_line.specs.Running.{Keeps, Runs};

use crate::{Input, find_commands};
use pcrlock_line::{Reply, Stop, ask, ready};
use pl_base::{Files, Name};
use std::alloc::Global;
use tpm_commands::write_response;
use tpm_device::Tpm;
use tpm_model::{Command, Response};

/// Puts the line of an answer at the end of a text.
fn tell(alloc: Global, text: &mut Vec<u8>, response: &Response) -> Result<(), Stop>
    ensures told { IfOk result (λ _. text.new.items ≡ text.old.items ++ response_text response.now) }
    ensures memory { IfErr result (λ stop. stop ≡ OutOfMemory) }
{
    match write_response(alloc, text, response) {
        Ok(()) => Ok(()),
        Err(_) => Err(Stop::Memory),
    }
}

/// Executes a command, and puts the line of its answer at the end of a text.
fn send<T: Tpm>(
    alloc: Global,
    tpm: &mut T,
    command: &Command,
    text: &mut Vec<u8>,
) -> Result<(), Stop>
    requires readiness { T.ready tpm.old ≡ true }
    ensures causes { HasCauses (0, 0, T.faults tpm.old, 0) (0, 0, T.faults tpm.new, 0) result }
    ensures readiness { IfOk result (λ _. T.ready tpm.new ≡ true) }
    ensures told { (s : Parts) → Runs (T.live tpm.old) (T.stored tpm.old) s
        → IfOk result (λ _. Runs (T.live tpm.new) (T.stored tpm.new) (respond command.now s).1 × (text.new.items ≡ text.old.items ++ response_text (respond command.now s).0)) }
    ensures stops { (s : Parts) → Runs (T.live tpm.old) (T.stored tpm.old) s
        → IfErr result (λ _. Keeps (T.stored tpm.new) s ⊎ Keeps (T.stored tpm.new) (respond command.now s).1) }
{
    match ask(alloc, tpm, command) {
        Ok(response) => tell(alloc, text, &response),
        Err(stop) => Err(stop),
    }
}

/// Executes the commands, one after the other, and gives the lines of all answers.
fn send_all<T: Tpm>(alloc: Global, tpm: &mut T, commands: &[Command]) -> Result<Vec<u8>, Stop>
    requires readiness { T.ready tpm.old ≡ true }
    ensures causes { HasCauses (0, 0, T.faults tpm.old, 0) (0, 0, T.faults tpm.new, 0) result }
    ensures told { (s : Parts) → Runs (T.live tpm.old) (T.stored tpm.old) s
        → IfOk result (λ text. Runs (T.live tpm.new) (T.stored tpm.new) (state_after commands.now s) × (text.items ≡ exec_text commands.now s)) }
    ensures stops { (s : Parts) → Runs (T.live tpm.old) (T.stored tpm.old) s → IfErr result (λ _. IsPartWay (T.stored tpm.new) commands.now s) }
{
    let mut text = Vec::new(alloc);
    for command in commands {
        match send(alloc, tpm, command, &mut text) {
            Ok(()) => {}
            Err(stop) => return Err(stop),
        }
    }
    Ok(text)
}

/// What `tpm-exec` does on the ready device.
fn exec_ready<T: Tpm>(alloc: Global, tpm: &mut T, commands: &[Command]) -> Result<Reply, Stop>
    requires readiness { T.ready tpm.old ≡ true }
    ensures causes { HasCauses (0, 0, T.faults tpm.old, 0) (0, 0, T.faults tpm.new, 0) result }
    ensures told { (held : Maybe FileMap) (words : Maybe (Sequence (Sequence ℕ))) (m : Live) → Tells held (T.stored tpm.old) words (machine m) → T.live tpm.old ≡ Some m.state
        → IfOk result (λ reply. Gives held (T.stored tpm.new) words reply (executed_line commands.now m)) }
    ensures stops { (held : Maybe FileMap) (words : Maybe (Sequence (Sequence ℕ))) (m : Live) → Tells held (T.stored tpm.old) words (machine m) → T.live tpm.old ≡ Some m.state
        → IfErr result (λ _. StandsAmong held (T.stored tpm.new) (executed_line commands.now m).stops) }
{
    match send_all(alloc, tpm, commands) {
        Ok(text) => Ok(Reply::Fine(text)),
        Err(stop) => Err(stop),
    }
}

/// What `tpm-exec` does once the commands are read.
fn exec<T: Tpm>(
    alloc: Global,
    tpm: &mut T,
    path: &Name,
    commands: &[Command],
) -> Result<Reply, Stop>
    ensures causes { HasCauses (0, 0, T.faults tpm.old, 0) (0, 0, T.faults tpm.new, 0) result }
    ensures told { (held : Maybe FileMap) (words : Maybe (Sequence (Sequence ℕ))) (m : Machine) → Tells held (T.stored tpm.old) words m
        → IfOk result (λ reply. Gives held (T.stored tpm.new) words reply (by_device m.device path.now m (executed_line commands.now))) }
    ensures stops { (held : Maybe FileMap) (words : Maybe (Sequence (Sequence ℕ))) (m : Machine) → Tells held (T.stored tpm.old) words m
        → IfErr result (λ _. StandsAmong held (T.stored tpm.new) (by_device m.device path.now m (executed_line commands.now)).stops) }
{
    match ready(alloc, tpm, path) {
        Ok(None) => exec_ready(alloc, tpm, commands),
        Ok(Some(answer)) => Ok(Reply::Refused(answer)),
        Err(stop) => Err(stop),
    }
}

/// Executes the commands of a file on the TPM, one after the other, and prints the line of each answer.
/// A refusal is an answer, and doesn't end it.
///
/// The answers for which it does nothing, the first whose cause holds:
///
/// | Answer | Cause |
/// |---|---|
/// | `NoSuchFile` | the file of commands isn't there |
/// | `Limit`, `commands-bytes` | it has this many bytes, more than 4,194,304 |
/// | `Malformed` | this line of it, counted from 0, spells no command |
/// | `Limit`, `lines` | it has more than 65,536 lines |
/// | `Limit`, `state-bytes`; `Malformed` | the state file at `path` gives no state |
///
/// The files stay as they are. It stops with `ReadFault`, `TpmFault` or `Memory`; then some of the
/// commands, the first ones, may be executed.
pub fn tpm_exec<F: Files, T: Tpm>(
    alloc: Global,
    files: &mut F,
    tpm: &mut T,
    path: &Name,
    commands: &Name,
) -> Result<Reply, Stop>
    ensures causes { HasCauses (F.faults files.old, 0, T.faults tpm.old, 0) (F.faults files.new, 0, T.faults tpm.new, 0) result }
    ensures told { (words : Maybe (Sequence (Sequence ℕ))) (m : Machine) → Tells (F.held files.old) (T.stored tpm.old) words m
        → IfOk result (λ reply. Gives (F.held files.new) (T.stored tpm.new) words reply (tpm_exec_line path.now commands.now m)) }
    ensures stops { (words : Maybe (Sequence (Sequence ℕ))) (m : Machine) → Tells (F.held files.old) (T.stored tpm.old) words m
        → IfErr result (λ _. StandsAmong (F.held files.new) (T.stored tpm.new) (tpm_exec_line path.now commands.now m).stops) }
    // A world that is tied to what is stored follows the commands, and stays tied.
    ensures tied { (m : Machine) (w : World) → IsTied m.device w → IsTied (tpm_exec_line path.now commands.now m).after.device (tpm_exec_world commands.now m w) }
    // It has the strings of the commands behind those before.
    ensures hashed { (list : Sequence TheCommand) (s : Parts) (w : World) → (exec_world list s w).hashed ≡ w.hashed ++ exec_strings list s }
    // So does one that is tied with the trails of sessions.
    ensures sealed { (list : Sequence TheCommand) (s : Parts) (w : World) → HasRules s → SealedTie s w → SealedTie (state_after list s) (exec_world list s w) }
    // Each Unseal of an object that is bound to one value of one PCR opens by that value alone.
    ensures unseals { (list : Sequence TheCommand) (s : Parts) (w : World) → HasRules s → SealedTie s w → Safe (exec_world list s w) → EachOpensByValue (events_of list) s w }
    // And each Unseal of any object of the program opens by what it is bound to: a value, or a table of the program that is open.
    ensures opens { (list : Sequence TheCommand) (s : Parts) (w : World) → Orderly s → OwnTie s w → SteadySessions s w
        → Clean (exec_world list s w) → Safe (exec_world list s w) → EachOpens (events_of list) s w }
{
    match find_commands(alloc, files, commands) {
        Ok(Input::Commands(list)) => exec(alloc, tpm, path, list.as_slice()),
        Ok(Input::Refused(answer)) => Ok(Reply::Refused(answer)),
        Err(stop) => Err(stop),
    }
}
