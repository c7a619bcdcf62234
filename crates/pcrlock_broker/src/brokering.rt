//! `broker`: the commands of several clients.
ghost use Rattle.std.specs.Prelude.{◌≡◌, ℕ, ◌+◌, ◌*◌, ◌<◌, ◌≤◌, true, All, List as Sequence, Option as Maybe, Some, Ok, length, replicate, IfOk, IfErr};
ghost use Rattle.pl_base.specs.FileMap.{FileMap};
ghost use Rattle.tpm_model.specs.declared.command.Command.{Command as TheCommand};
ghost use Rattle.tpm_model.specs.declared.parts.Parts.{Parts};
ghost use Rattle.tpm_model.specs.Rules.{HasRules};
ghost use Rattle.tpm_worlds.specs.CommandLists.{state_after};
ghost use Rattle.tpm_broker.specs.Alone.{alone, at_places, sessions_started, without_sessions};
ghost use Rattle.tpm_broker.specs.Clients.{new_client};
ghost use Rattle.tpm_broker.specs.Lists.{answers_to};
ghost use Rattle.pcrlock_line.specs.Begun.{by_device};
ghost use Rattle.pcrlock_line.specs.Causes.{HasCauses};
ghost use Rattle.pcrlock_line.specs.Machine.{Live, Machine, Tells, machine};
ghost use Rattle.pcrlock_line.specs.Outcome.{Gives};
ghost use Rattle.pcrlock_line.specs.Running.{Runs};
ghost use Rattle.pcrlock_line.specs.Stopped.{StandsAmong};
ghost use Rattle.pcrlock_exec.specs.Sending.{IsPartWay};
ghost use Rattle.pcrlock_broker.specs.Broker.{answers_text, broker_line, brokered, brokered_line, new_clients};
ghost use Rattle.pcrlock_broker.specs.Input.{asked_at};

use crate::serving::{answer_all, leave_all};
use crate::{Asked, find_asked};
use pcrlock_line::{Reply, Stop, ready};
use pl_base::{Files, Name};
use std::alloc::Global;
use tpm_broker::Broker;
use tpm_device::Tpm;
use tpm_model::Command;

/// Serves the clients by a new broker, and ends their sessions; gives the lines of all answers.
fn serve_all<T: Tpm>(
    alloc: Global,
    tpm: &mut T,
    clients: u32,
    asked: &[(u32, Command)],
) -> Result<Vec<u8>, Stop>
    requires clients { (1 ≤ clients) × (clients ≤ 16) }
    requires numbers { All (λ (one : ℕ × TheCommand). one.0 < clients) asked.now }
    requires readiness { T.ready tpm.old ≡ true }
    ensures causes { HasCauses (0, 0, T.faults tpm.old, 0) (0, 0, T.faults tpm.new, 0) result }
    ensures told { (s : Parts) → Runs (T.live tpm.old) (T.stored tpm.old) s
        → IfOk result (λ text. Runs (T.live tpm.new) (T.stored tpm.new) (state_after (brokered clients asked.now s) s) × (text.items ≡ answers_text asked.now (new_clients clients) s)) }
    ensures stops { (s : Parts) → Runs (T.live tpm.old) (T.stored tpm.old) s → IfErr result (λ _. IsPartWay (T.stored tpm.new) (brokered clients asked.now s) s) }
{
    let mut broker = Broker::new(alloc, clients)?;
    match answer_all(alloc, &mut broker, tpm, asked) {
        Ok(text) => match leave_all(alloc, &mut broker, tpm) {
            Ok(()) => Ok(text),
            Err(stop) => Err(stop),
        },
        Err(stop) => Err(stop),
    }
}

/// What `broker` does on the ready device.
fn broker_ready<T: Tpm>(
    alloc: Global,
    tpm: &mut T,
    clients: u32,
    asked: &[(u32, Command)],
) -> Result<Reply, Stop>
    requires clients { (1 ≤ clients) × (clients ≤ 16) }
    requires numbers { All (λ (one : ℕ × TheCommand). one.0 < clients) asked.now }
    requires readiness { T.ready tpm.old ≡ true }
    ensures causes { HasCauses (0, 0, T.faults tpm.old, 0) (0, 0, T.faults tpm.new, 0) result }
    ensures told { (held : Maybe FileMap) (words : Maybe (Sequence (Sequence ℕ))) (m : Live) → Tells held (T.stored tpm.old) words (machine m) → T.live tpm.old ≡ Some m.state
        → IfOk result (λ reply. Gives held (T.stored tpm.new) words reply (brokered_line clients asked.now m)) }
    ensures stops { (held : Maybe FileMap) (words : Maybe (Sequence (Sequence ℕ))) (m : Live) → Tells held (T.stored tpm.old) words (machine m) → T.live tpm.old ≡ Some m.state
        → IfErr result (λ _. StandsAmong held (T.stored tpm.new) (brokered_line clients asked.now m).stops) }
{
    match serve_all(alloc, tpm, clients, asked) {
        Ok(text) => Ok(Reply::Fine(text)),
        Err(stop) => Err(stop),
    }
}

/// What `broker` does once the commands are read.
fn broker_on<T: Tpm>(
    alloc: Global,
    tpm: &mut T,
    path: &Name,
    clients: u32,
    asked: &[(u32, Command)],
) -> Result<Reply, Stop>
    requires clients { (1 ≤ clients) × (clients ≤ 16) }
    requires numbers { All (λ (one : ℕ × TheCommand). one.0 < clients) asked.now }
    ensures causes { HasCauses (0, 0, T.faults tpm.old, 0) (0, 0, T.faults tpm.new, 0) result }
    ensures told { (held : Maybe FileMap) (words : Maybe (Sequence (Sequence ℕ))) (m : Machine) → Tells held (T.stored tpm.old) words m
        → IfOk result (λ reply. Gives held (T.stored tpm.new) words reply (by_device m.device path.now m (brokered_line clients asked.now))) }
    ensures stops { (held : Maybe FileMap) (words : Maybe (Sequence (Sequence ℕ))) (m : Machine) → Tells held (T.stored tpm.old) words m
        → IfErr result (λ _. StandsAmong held (T.stored tpm.new) (by_device m.device path.now m (brokered_line clients asked.now)).stops) }
{
    match ready(alloc, tpm, path) {
        Ok(None) => broker_ready(alloc, tpm, clients, asked),
        Ok(Some(answer)) => Ok(Reply::Refused(answer)),
        Err(stop) => Err(stop),
    }
}

/// Serves the commands of a file by a new broker of so many clients, and prints for each the number of its client and
/// the line of the answer. The broker gives each client session handles of its own, from `03000000` on, and at most four
/// open sessions; a handle that isn't one of the client's is refused. A refusal is an answer, and doesn't end it. After
/// the last command each client's sessions are flushed (TPM 2.0 Library Part 3, TPM2_FlushContext).
///
/// The answers for which it does nothing, the first whose cause holds:
///
/// | Answer | Cause |
/// |---|---|
/// | `NoSuchFile` | the file of commands isn't there |
/// | `Limit`, `commands-bytes` | it has this many bytes, more than 4,194,304 |
/// | `Malformed` | this line of it, counted from 0, spells no command of one of the clients |
/// | `Limit`, `lines` | it has more than 65,536 lines |
/// | `Limit`, `state-bytes`; `Malformed` | the state file at `path` gives no state |
///
/// The files stay as they are. It stops with `ReadFault`, `TpmFault` or `Memory`; then some of the commands, the first
/// ones, may be executed, and sessions of the clients may be left open.
pub fn broker<F: Files, T: Tpm>(
    alloc: Global,
    files: &mut F,
    tpm: &mut T,
    path: &Name,
    commands: &Name,
    clients: u32,
) -> Result<Reply, Stop>
    requires { (1 ≤ clients) × (clients ≤ 16) }
    ensures causes { HasCauses (F.faults files.old, 0, T.faults tpm.old, 0) (F.faults files.new, 0, T.faults tpm.new, 0) result }
    ensures told { (words : Maybe (Sequence (Sequence ℕ))) (m : Machine) → Tells (F.held files.old) (T.stored tpm.old) words m
        → IfOk result (λ reply. Gives (F.held files.new) (T.stored tpm.new) words reply (broker_line path.now commands.now clients m)) }
    ensures stops { (words : Maybe (Sequence (Sequence ℕ))) (m : Machine) → Tells (F.held files.old) (T.stored tpm.old) words m
        → IfErr result (λ _. StandsAmong (F.held files.new) (T.stored tpm.new) (broker_line path.now commands.now clients m).stops) }
{
    match find_asked(alloc, files, commands, clients) {
        Ok(Asked::Commands(list)) => broker_on(alloc, tpm, path, clients, list.as_slice()),
        Ok(Asked::Refused(answer)) => Ok(Reply::Refused(answer)),
        Err(stop) => Err(stop),
    }
}

/// The law of `broker`: where the TPM has room for four sessions more of each client, and numbers for all that are
/// started, the answers at a client's lines are those that it would get if it alone had sessions, on a TPM that has room
/// for four: the others' commands on sessions are left out, no session is open and none was started.
pub fn clients_are_alone()
    ensures { (clients k : ℕ) (list : Sequence (ℕ × TheCommand)) (files : FileMap) (path : Sequence ℕ) (s : Parts)
        → HasRules s → k < clients → asked_at files path clients ≡ Ok list
        → length s.sessions + 4 * clients ≤ 64 → s.next_session + sessions_started list (new_clients clients) s ≤ 0x01000000
        → at_places k list (answers_to list (new_clients clients) s) ≡ alone k list (without_sessions s) }
{}
