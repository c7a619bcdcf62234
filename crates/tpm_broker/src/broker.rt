//! The broker.
ghost use Rattle.std.specs.Prelude.{◌≡◌, ℕ, ◌<◌, ◌≤◌, true, [], length, map, replicate, Some, Ok, Err, IfOk, IfErr, IfSome, OnErr};
ghost use Rattle.pl_base.specs.Faults.{HasCause};
ghost use Rattle.tpm_model.specs.declared.parts.Parts.{Parts};
ghost use Rattle.tpm_model.specs.declared.response.Response.{Response as Answer};
ghost use Rattle.tpm_model.specs.Fits.{fits};
ghost use Rattle.tpm_model.specs.Respond.{respond};
ghost use Rattle.tpm_model.specs.Rules.{HasRules};
ghost use Rattle.tpm_device.specs.Stored.{Holds};
ghost use Rattle.tpm_broker.specs.Clients.{HasRoomFor, IsClient, changed, client_at, new_client, without_all, without_first};
ghost use Rattle.tpm_broker.specs.Leaving.{LeaveGives, LeaveStores};
ghost use Rattle.tpm_broker.specs.Served.{RefusesItself, ServeGives, ServeStores, clients_after, clients_done, plan_of, own_refusal, served, settled, still_ready, told as told_of};

use crate::commands::{on_session, told};
use crate::leaving::flush_all;
use crate::plan::{Plan, plan_command};
use crate::rows::Rows;
use pl_base::Memory;
use std::alloc::Global;
use std::marker::Model;
use tpm_device::{ExecError, Tpm};
use tpm_model::{Command, Refusal, Response};

/// Stands between 1 to 16 clients and one TPM. Each client has session handles of its own and at most
/// four open sessions. Contracts see the clients, from client 0 on.
#[derive(Debug, Drop)]
pub struct Broker {
    rows: Vec<Rows>,
}

impl Model for Broker {
    ghost use Rattle.std.specs.Prelude.{◌≤◌, List, length};
    ghost use Rattle.tpm_broker.specs.Clients.{Client};

    ghost Value = { List Client };

    ghost view = { λ a. a.rows.items };

    ghost invariant = { λ a. length a.rows.items ≤ 16 };
}

/// Ends all sessions of all clients.
fn end_all(rows: &mut [Rows])
    ensures { rows.new ≡ map without_all rows.old }
{
    for client in rows.iter_mut() {
        client.end_all();
    }
}

/// The clients after a command of this client that is done.
fn settle_done(rows: &mut [Rows], client: usize, command: &Command)
    requires { client < length rows.old }
    ensures { rows.new ≡ clients_done client command.now rows.old }
{
    match command {
        Command::Restart { .. } => end_all(rows),
        Command::FlushSession { session } => rows[client].end(*session),
        Command::PcrExtend { .. }
        | Command::PcrRead { .. }
        | Command::StartSession { .. }
        | Command::PolicyPcr { .. }
        | Command::PolicyOr { .. }
        | Command::PolicyAuthorizeNv { .. }
        | Command::PolicyGetDigest { .. }
        | Command::NvDefine { .. }
        | Command::NvUndefine { .. }
        | Command::NvWrite { .. }
        | Command::NvRead { .. }
        | Command::NvReadPublic { .. }
        | Command::Seal { .. }
        | Command::Evict { .. }
        | Command::Unseal { .. } => {}
    }
}

/// The clients after the TPM's answer to a command of this client.
fn settle(rows: &mut [Rows], client: usize, command: &Command, response: &Response)
    requires client { client < length rows.old }
    requires room { HasRoomFor response.now (client_at client rows.old) }
    ensures { rows.new ≡ clients_after client command.now response.now rows.old }
{
    match response {
        Response::Done => settle_done(rows, client, command),
        Response::Session(handle) => rows[client].start(*handle),
        Response::Pcr(_)
        | Response::PolicyDigest(_)
        | Response::Content(_)
        | Response::Public(_)
        | Response::Object(_)
        | Response::Secret(_)
        | Response::Refused(_) => {}
    }
}

impl Broker {
    /// A broker for so many clients, none of which has had a session. It takes all memory that the
    /// broker needs.
    pub fn new(alloc: Global, clients: u32) -> Result<Broker, Memory>
        requires { (1 ≤ clients) × (clients ≤ 16) }
        ensures { IfOk result (λ broker. broker ≡ replicate clients new_client) }
    {
        let mut rows = Vec::new(alloc);
        for _ in 0..clients {
            rows.push(Rows::new(alloc)?)?;
        }
        Ok(Broker { rows })
    }

    /// How many clients there are.
    pub fn clients(&self) -> u32
        ensures value { result ≡ length self.now }
        ensures bound { result ≤ 16 }
    {
        self.rows.len() as u32
    }

    /// How many sessions the client has open: at most four.
    pub fn sessions(&self, client: u32) -> u32
        requires { client < length self.now }
        ensures value { result ≡ length (client_at client self.now).sessions }
        ensures kept { IsClient (client_at client self.now) }
    {
        self.rows[client as usize].count() as u32
    }

    /// What is done with a client's command.
    fn plan_for(&self, client: usize, command: &Command) -> Plan
        requires { client < length self.now }
        ensures { result ≡ plan_of command.now (client_at client self.now) }
    {
        plan_command(&self.rows[client], command)
    }

    /// The answer that the client is told, after the TPM answered.
    fn answered(&mut self, client: usize, command: &Command, response: &Response) -> Response
        requires client { client < length self.old }
        requires room { HasRoomFor response.now (client_at client self.old) }
        ensures value { result ≡ told_of command.now (client_at client self.old) response.now }
        ensures left { self.new ≡ clients_after client command.now response.now self.old }
        ensures count { length self.new ≡ length self.old }
    {
        let answer = told(&self.rows[client], command, response);
        settle(&mut self.rows, client, command, response);
        answer
    }

    /// Hands the TPM a command in place of the client's.
    fn pass<T: Tpm>(
        &mut self,
        alloc: Global,
        client: usize,
        command: &Command,
        passed: &Command,
        tpm: &mut T,
    ) -> Result<Response, ExecError>
        requires client { client < length self.old }
        requires readiness { T.ready tpm.old ≡ true }
        requires room { (answer : Answer) → fits passed.now answer ≡ true → HasRoomFor answer (client_at client self.old) }
        requires fitting { (answer : Answer) → fits passed.now answer ≡ true → fits command.now (told_of command.now (client_at client self.old) answer) ≡ true }
        ensures cause { HasCause (T.faults tpm.old) (T.faults tpm.new) (result ≡ Err ExecError.Failed) }
        ensures fitting { IfOk result (λ answer. fits command.now answer ≡ true) }
        ensures readiness { T.ready tpm.new ≡ still_ready result }
        ensures count { length self.new ≡ length self.old }
        ensures stopped { OnErr result (self.new ≡ self.old) }
        ensures told { (s : Parts) → T.live tpm.old ≡ Some s → ServeGives (settled client command.now (respond passed.now s) self.old) s result self.new (T.live tpm.new) }
        ensures rules { (s : Parts) → T.live tpm.old ≡ Some s → HasRules s → IfSome (T.live tpm.new) HasRules }
        ensures stored { (s : Parts) → T.live tpm.old ≡ Some s → T.stored tpm.old ≡ Some (Holds s)
            → ServeStores (settled client command.now (respond passed.now s) self.old) s result (T.stored tpm.new) }
    {
        match tpm.execute(alloc, passed) {
            Ok(response) => Ok(self.answered(client, command, &response)),
            Err(stop) => Err(stop),
        }
    }

    /// Executes a client's command.
    ///
    /// A session that it names is one of the client's own; the TPM gets the command with its handle of that
    /// session, and the answer names the client's. A handle that isn't one of the client's open sessions is
    /// refused, without a call on the device; so is a start whose hash no session may have, then one by a
    /// client with four open sessions, then one by a client that has had 16,777,216. A restart ends the
    /// sessions of all clients.
    ///
    /// # Errors
    ///
    /// Those of the device. The clients are then as before.
    pub fn execute<T: Tpm>(
        &mut self,
        alloc: Global,
        client: u32,
        command: &Command,
        tpm: &mut T,
    ) -> Result<Response, ExecError>
        requires client { client < length self.old }
        requires readiness { T.ready tpm.old ≡ true }
        ensures cause { HasCause (T.faults tpm.old) (T.faults tpm.new) (result ≡ Err ExecError.Failed) }
        ensures fitting { IfOk result (λ answer. fits command.now answer ≡ true) }
        ensures readiness { T.ready tpm.new ≡ still_ready result }
        ensures unasked { RefusesItself (own_refusal (plan_of command.now (client_at client self.old))) result (self.new ≡ self.old) (tpm.new ≡ tpm.old) }
        ensures count { length self.new ≡ length self.old }
        ensures stopped { OnErr result (self.new ≡ self.old) }
        ensures told { (s : Parts) → T.live tpm.old ≡ Some s → ServeGives (served client command.now self.old s) s result self.new (T.live tpm.new) }
        ensures rules { (s : Parts) → T.live tpm.old ≡ Some s → HasRules s → IfSome (T.live tpm.new) HasRules }
        ensures stored { (s : Parts) → T.live tpm.old ≡ Some s → T.stored tpm.old ≡ Some (Holds s) → ServeStores (served client command.now self.old s) s result (T.stored tpm.new) }
    {
        let place = client as usize;
        match self.plan_for(place, command) {
            Plan::Pass => self.pass(alloc, place, command, command, tpm),
            Plan::PassOn(session) => {
                let passed = on_session(command, session);
                self.pass(alloc, place, command, &passed, tpm)
            }
            Plan::NoSession(own) => Ok(Response::Refused(Refusal::Handle(own))),
            Plan::WrongHash => Ok(Response::Refused(Refusal::Value)),
            Plan::Full => Ok(Response::Refused(Refusal::SessionsFull)),
            Plan::End => Ok(Response::Refused(Refusal::HandlesEnd)),
        }
    }

    /// Ends the client's sessions in order of their handles, and gives their number. Where there is none, it
    /// makes no call on the device.
    ///
    /// # Errors
    ///
    /// Those of the device. The first of the sessions, those before the error, are gone.
    pub fn leave<T: Tpm>(
        &mut self,
        alloc: Global,
        client: u32,
        tpm: &mut T,
    ) -> Result<u32, ExecError>
        requires client { client < length self.old }
        requires readiness { T.ready tpm.old ≡ true }
        ensures cause { HasCause (T.faults tpm.old) (T.faults tpm.new) (result ≡ Err ExecError.Failed) }
        ensures readiness { T.ready tpm.new ≡ still_ready result }
        ensures count { IfOk result (λ count. count ≡ length (client_at client self.old).sessions) }
        ensures left { IfOk result (λ _. self.new ≡ changed client without_all self.old) }
        ensures untouched { (client_at client self.old).sessions ≡ [] → (result ≡ Ok 0) × (tpm.new ≡ tpm.old) }
        ensures told { let sessions = (client_at client self.old).sessions in
            (n : ℕ) × (n ≤ length sessions) × (self.new ≡ changed client (without_first n) self.old)
            × ((s : Parts) → T.live tpm.old ≡ Some s → LeaveGives sessions n s result (T.live tpm.new)) }
        ensures rules { (s : Parts) → T.live tpm.old ≡ Some s → HasRules s → IfSome (T.live tpm.new) HasRules }
        ensures stored { (s : Parts) → T.live tpm.old ≡ Some s → T.stored tpm.old ≡ Some (Holds s) → LeaveStores (client_at client self.old).sessions s result (T.stored tpm.new) }
        ensures clients { length self.new ≡ length self.old }
    {
        flush_all(alloc, &mut self.rows[client as usize], tpm)
    }
}
