//! Clients that are served, one command after the other, and leave at the end.
ghost use Rattle.std.specs.Prelude.{◌≡◌, ◌⊎◌, ◌++◌, ℕ, ◌<◌, ◌≤◌, true, All, length, take, IfOk, IfErr, OnOk};
ghost use Rattle.tpm_model.specs.declared.command.Command.{Command as TheCommand};
ghost use Rattle.tpm_model.specs.declared.parts.Parts.{Parts};
ghost use Rattle.tpm_broker.specs.Clients.{changed, client_at, without_all};
ghost use Rattle.tpm_broker.specs.Leaving.{after_flushes};
ghost use Rattle.tpm_broker.specs.Lists.{clients_left, state_left};
ghost use Rattle.tpm_broker.specs.Served.{served};
ghost use Rattle.tpm_worlds.specs.CommandLists.{state_after};
ghost use Rattle.pcrlock_line.specs.Causes.{HasCauses};
ghost use Rattle.pcrlock_line.specs.Running.{Keeps, Runs};
ghost use Rattle.pcrlock_line.specs.declared.stop.Stop.TheVariants.{Memory as OutOfMemory};
ghost use Rattle.pcrlock_exec.specs.Sending.{IsPartWay};
ghost use Rattle.pcrlock_broker.specs.Broker.{answer_line, answers_text, flushes};
ghost use Rattle.pcrlock_broker.specs.Serving.{IsServed, IsServedPartWay};

use pcrlock_line::Stop;
use pl_base::Memory;
use pl_text::{push, push_number};
use std::alloc::Global;
use tpm_broker::Broker;
use tpm_commands::write_response;
use tpm_device::{ExecError, Tpm};
use tpm_model::{Command, Response};

/// Puts the line of an answer to a client at the end of a text.
fn write_answer(
    alloc: Global,
    text: &mut Vec<u8>,
    client: u32,
    response: &Response,
) -> Result<(), Memory>
    ensures { OnOk result (text.new.items ≡ text.old.items ++ answer_line client response.now) }
{
    push_number(alloc, text, client)?;
    push(text, b" ")?;
    write_response(alloc, text, response)
}

/// The same as a part of the command.
fn tell(alloc: Global, text: &mut Vec<u8>, client: u32, response: &Response) -> Result<(), Stop>
    ensures told { IfOk result (λ _. text.new.items ≡ text.old.items ++ answer_line client response.now) }
    ensures memory { IfErr result (λ stop. stop ≡ OutOfMemory) }
{
    match write_answer(alloc, text, client, response) {
        Ok(()) => Ok(()),
        Err(_) => Err(Stop::Memory),
    }
}

/// Executes a client's command.
fn serve_one<T: Tpm>(
    alloc: Global,
    broker: &mut Broker,
    tpm: &mut T,
    asked: &(u32, Command),
) -> Result<Response, Stop>
    requires client { asked.now.0 < length broker.old }
    requires readiness { T.ready tpm.old ≡ true }
    ensures causes { HasCauses (0, 0, T.faults tpm.old, 0) (0, 0, T.faults tpm.new, 0) result }
    ensures readiness { IfOk result (λ _. T.ready tpm.new ≡ true) }
    ensures count { length broker.new ≡ length broker.old }
    ensures told { (s : Parts) → Runs (T.live tpm.old) (T.stored tpm.old) s
        → IfOk result (λ response. IsServed (served asked.now.0 asked.now.1 broker.old s) response broker.new (T.live tpm.new) (T.stored tpm.new)) }
    ensures stops { (s : Parts) → Runs (T.live tpm.old) (T.stored tpm.old) s
        → IfErr result (λ _. Keeps (T.stored tpm.new) s ⊎ Keeps (T.stored tpm.new) (served asked.now.0 asked.now.1 broker.old s).state) }
{
    match broker.execute(alloc, asked.0, &asked.1, tpm) {
        Ok(response) => Ok(response),
        Err(ExecError::Failed) => Err(Stop::TpmFault),
        Err(ExecError::Memory) => Err(Stop::Memory),
    }
}

/// Executes a client's command, and puts the line of its answer at the end of a text.
fn answer_one<T: Tpm>(
    alloc: Global,
    broker: &mut Broker,
    tpm: &mut T,
    asked: &(u32, Command),
    text: &mut Vec<u8>,
) -> Result<(), Stop>
    requires client { asked.now.0 < length broker.old }
    requires readiness { T.ready tpm.old ≡ true }
    ensures causes { HasCauses (0, 0, T.faults tpm.old, 0) (0, 0, T.faults tpm.new, 0) result }
    ensures readiness { IfOk result (λ _. T.ready tpm.new ≡ true) }
    ensures count { length broker.new ≡ length broker.old }
    ensures told { (s : Parts) → Runs (T.live tpm.old) (T.stored tpm.old) s
        → IfOk result (λ _. let out = served asked.now.0 asked.now.1 broker.old s in
        Runs (T.live tpm.new) (T.stored tpm.new) out.state × (broker.new ≡ out.clients) × (text.new.items ≡ text.old.items ++ answer_line asked.now.0 out.answer)) }
    ensures stops { (s : Parts) → Runs (T.live tpm.old) (T.stored tpm.old) s
        → IfErr result (λ _. Keeps (T.stored tpm.new) s ⊎ Keeps (T.stored tpm.new) (served asked.now.0 asked.now.1 broker.old s).state) }
{
    match serve_one(alloc, broker, tpm, asked) {
        Ok(response) => tell(alloc, text, asked.0, &response),
        Err(stop) => Err(stop),
    }
}

/// Executes the commands, one after the other, and gives the lines of all answers.
pub(crate) fn answer_all<T: Tpm>(
    alloc: Global,
    broker: &mut Broker,
    tpm: &mut T,
    asked: &[(u32, Command)],
) -> Result<Vec<u8>, Stop>
    requires clients { All (λ (one : ℕ × TheCommand). one.0 < length broker.old) asked.now }
    requires readiness { T.ready tpm.old ≡ true }
    ensures causes { HasCauses (0, 0, T.faults tpm.old, 0) (0, 0, T.faults tpm.new, 0) result }
    ensures readiness { IfOk result (λ _. T.ready tpm.new ≡ true) }
    ensures count { length broker.new ≡ length broker.old }
    ensures told { (s : Parts) → Runs (T.live tpm.old) (T.stored tpm.old) s
        → IfOk result (λ text. Runs (T.live tpm.new) (T.stored tpm.new) (state_left asked.now broker.old s)
        × (broker.new ≡ clients_left asked.now broker.old s) × (text.items ≡ answers_text asked.now broker.old s)) }
    ensures stops { (s : Parts) → Runs (T.live tpm.old) (T.stored tpm.old) s → IfErr result (λ _. IsServedPartWay (T.stored tpm.new) asked.now broker.old s) }
{
    let mut text = Vec::new(alloc);
    for one in asked {
        match answer_one(alloc, broker, tpm, one, &mut text) {
            Ok(()) => {}
            Err(stop) => return Err(stop),
        }
    }
    Ok(text)
}

/// Ends a client's sessions.
fn leave_one<T: Tpm>(
    alloc: Global,
    broker: &mut Broker,
    tpm: &mut T,
    client: u32,
) -> Result<(), Stop>
    requires client { client < length broker.old }
    requires readiness { T.ready tpm.old ≡ true }
    ensures causes { HasCauses (0, 0, T.faults tpm.old, 0) (0, 0, T.faults tpm.new, 0) result }
    ensures readiness { IfOk result (λ _. T.ready tpm.new ≡ true) }
    ensures count { length broker.new ≡ length broker.old }
    ensures left { IfOk result (λ _. broker.new ≡ changed client without_all broker.old) }
    ensures told { (s : Parts) → Runs (T.live tpm.old) (T.stored tpm.old) s
        → IfOk result (λ _. Runs (T.live tpm.new) (T.stored tpm.new) (after_flushes (client_at client broker.old).sessions s)) }
    ensures stops { (s : Parts) → Runs (T.live tpm.old) (T.stored tpm.old) s
        → IfErr result (λ _. let sessions = (client_at client broker.old).sessions in (n : ℕ) × (n ≤ length sessions) × Keeps (T.stored tpm.new) (after_flushes (take n sessions) s)) }
{
    match broker.leave(alloc, client, tpm) {
        Ok(_) => Ok(()),
        Err(ExecError::Failed) => Err(Stop::TpmFault),
        Err(ExecError::Memory) => Err(Stop::Memory),
    }
}

/// Ends the sessions of all clients, one client after the other.
pub(crate) fn leave_all<T: Tpm>(alloc: Global, broker: &mut Broker, tpm: &mut T) -> Result<(), Stop>
    requires readiness { T.ready tpm.old ≡ true }
    ensures causes { HasCauses (0, 0, T.faults tpm.old, 0) (0, 0, T.faults tpm.new, 0) result }
    ensures told { (s : Parts) → Runs (T.live tpm.old) (T.stored tpm.old) s
        → IfOk result (λ _. Runs (T.live tpm.new) (T.stored tpm.new) (state_after (flushes broker.old) s)) }
    ensures stops { (s : Parts) → Runs (T.live tpm.old) (T.stored tpm.old) s → IfErr result (λ _. IsPartWay (T.stored tpm.new) (flushes broker.old) s) }
{
    let clients = broker.clients();
    for client in 0..clients {
        match leave_one(alloc, broker, tpm, client) {
            Ok(()) => {}
            Err(stop) => return Err(stop),
        }
    }
    Ok(())
}
