//! Commands of clients that come one after the other.
ghost use Rattle.std.specs.Prelude.{◌≡◌, ◌⊎◌, ℕ, ◌+◌, ◌*◌, ◌<◌, ◌≤◌, true, All, List as Sequence, ◌∷◌, [], ◌++◌, length, replicate, take, Some, Err, IfOk, IfErr, IfSome, MatchResult};
ghost use Rattle.pl_base.specs.Faults.{HasCause};
ghost use Rattle.tpm_model.specs.declared.command.Command.{Command as Asked};
ghost use Rattle.tpm_model.specs.declared.parts.Parts.{Parts};
ghost use Rattle.tpm_model.specs.Rules.{HasRules};
ghost use Rattle.tpm_device.specs.Stored.{Holds};
ghost use Rattle.tpm_broker.specs.Alone.{alone, at_places, sessions_started, without_sessions};
ghost use Rattle.tpm_broker.specs.Clients.{new_client};
ghost use Rattle.tpm_broker.specs.Lists.{ListStores, answers_to, clients_left, state_left};
ghost use Rattle.tpm_broker.specs.Served.{served, still_ready};

use crate::Broker;
use pl_base::{List, Memory};
use std::alloc::Global;
use tpm_device::{ExecError, Tpm};
use tpm_model::{Command, Response};

/// Puts an answer behind the others.
fn push_answer(responses: &mut List<Response>, response: &Response) -> Result<(), Memory>
    ensures { IfOk result (λ _. responses.new ≡ responses.old ++ response.now ∷ []) }
{
    match response {
        Response::Refused(why) => responses.push(Response::Refused(*why)),
        accepted => responses.push(*accepted),
    }
}

/// Executes one more command, whose answer stands behind the others.
fn serve_next<T: Tpm>(
    alloc: Global,
    broker: &mut Broker,
    asked: &(u32, Command),
    tpm: &mut T,
    responses: &mut List<Response>,
) -> Result<(), ExecError>
    requires client { asked.now.0 < length broker.old }
    requires readiness { T.ready tpm.old ≡ true }
    ensures cause { HasCause (T.faults tpm.old) (T.faults tpm.new) (result ≡ Err ExecError.Failed) }
    ensures readiness { T.ready tpm.new ≡ still_ready result }
    ensures count { length broker.new ≡ length broker.old }
    ensures told { (s : Parts) → T.live tpm.old ≡ Some s → IfOk result (λ _. let out = served asked.now.0 asked.now.1 broker.old s in
        (responses.new ≡ responses.old ++ out.answer ∷ []) × (broker.new ≡ out.clients) × (T.live tpm.new ≡ Some out.state)) }
    ensures stopped { (s : Parts) → T.live tpm.old ≡ Some s → IfErr result (λ stop. let out = served asked.now.0 asked.now.1 broker.old s in
        ((broker.new ≡ broker.old) × (stop ≡ ExecError.Memory → T.live tpm.new ≡ Some s)) ⊎ ((broker.new ≡ out.clients) × (T.live tpm.new ≡ Some out.state))) }
    ensures rules { (s : Parts) → T.live tpm.old ≡ Some s → HasRules s → IfSome (T.live tpm.new) HasRules }
    ensures stored { (s : Parts) → T.live tpm.old ≡ Some s → T.stored tpm.old ≡ Some (Holds s) → let out = served asked.now.0 asked.now.1 broker.old s in
        MatchResult result (λ _. T.stored tpm.new ≡ Some (Holds out.state)) (λ _. (T.stored tpm.new ≡ Some (Holds s)) ⊎ (T.stored tpm.new ≡ Some (Holds out.state))) }
{
    match broker.execute(alloc, asked.0, &asked.1, tpm) {
        Ok(response) => match push_answer(responses, &response) {
            Ok(()) => Ok(()),
            Err(_) => Err(ExecError::Memory),
        },
        Err(stop) => Err(stop),
    }
}

/// Executes the commands in order, each of the client before it, and gives the answers.
///
/// From a new broker each client is answered as if it were alone on a TPM that has room for four sessions,
/// where the others' commands on sessions are left out, no session is open and none was started: where
/// the TPM has room for four sessions more of each client, and numbers for all that are started.
///
/// # Errors
///
/// Those of the device, and want of memory. The commands before were done, the one at which it stopped
/// perhaps too.
pub fn serve<T: Tpm>(
    alloc: Global,
    broker: &mut Broker,
    asked: &[(u32, Command)],
    tpm: &mut T,
) -> Result<List<Response>, ExecError>
    requires clients { All (λ (one : ℕ × Asked). one.0 < length broker.old) asked.now }
    requires readiness { T.ready tpm.old ≡ true }
    ensures cause { HasCause (T.faults tpm.old) (T.faults tpm.new) (result ≡ Err ExecError.Failed) }
    ensures readiness { T.ready tpm.new ≡ still_ready result }
    ensures told { (s : Parts) → T.live tpm.old ≡ Some s → IfOk result (λ responses.
        (responses ≡ answers_to asked.now broker.old s) × (broker.new ≡ clients_left asked.now broker.old s) × (T.live tpm.new ≡ Some (state_left asked.now broker.old s))) }
    ensures stopped { (s : Parts) → T.live tpm.old ≡ Some s → IfErr result (λ stop.
        (n : ℕ) × (n ≤ length asked.now) × (broker.new ≡ clients_left (take n asked.now) broker.old s)
        × (stop ≡ ExecError.Memory → T.live tpm.new ≡ Some (state_left (take n asked.now) broker.old s))) }
    ensures rules { (s : Parts) → T.live tpm.old ≡ Some s → IfSome (T.live tpm.new) HasRules }
    ensures stored { (s : Parts) → T.live tpm.old ≡ Some s → T.stored tpm.old ≡ Some (Holds s) → ListStores asked.now broker.old s result (T.stored tpm.new) }
    ensures count { length broker.new ≡ length broker.old }
    ensures as_alone { (s : Parts) → T.live tpm.old ≡ Some s → broker.old ≡ replicate (length broker.old) new_client
        → length s.sessions + 4 * length broker.old ≤ 64 → s.next_session + sessions_started asked.now broker.old s ≤ 0x01000000
        → IfOk result (λ responses. (k : ℕ) → k < length broker.old → at_places k asked.now responses ≡ alone k asked.now (without_sessions s)) }
{
    let ready = tpm.is_ready();
    prove!(ready);
    let mut responses = List::new(alloc);
    for one in asked {
        match serve_next(alloc, broker, one, tpm, &mut responses) {
            Ok(()) => {}
            Err(stop) => return Err(stop),
        }
    }
    Ok(responses)
}

/// The law of every list of commands that come through a new broker of n clients, whichever calls bring
/// them: each client is answered as if it were alone. The call does nothing; it tells the law.
pub fn each_is_answered_alone()
    ensures { (n k : ℕ) (asked : Sequence (ℕ × Asked)) (s : Parts) → HasRules s → k < n → All (λ (one : ℕ × Asked). one.0 < n) asked
        → length s.sessions + 4 * n ≤ 64 → s.next_session + sessions_started asked (replicate n new_client) s ≤ 0x01000000
        → at_places k asked (answers_to asked (replicate n new_client) s) ≡ alone k asked (without_sessions s) }
{}
