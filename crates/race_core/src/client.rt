//! One client of a race.
ghost use Rattle.std.specs.Prelude.{◌≡◌, ◌≤◌, true, None, Some, length, map, IfOk, IfErr};
ghost use Rattle.std.specs.List.{AllByRecursion};
ghost use Rattle.policy_digest.specs.Plain.{plain_table};
ghost use Rattle.policy_walk.specs.Walking.{authorised_by, secret_in, started_by, walk_command, walked_by, why_in};
ghost use Rattle.hash_bank.specs.declared.bank.Bank.TheVariants.{Sha256};
ghost use Rattle.tpm_model.specs.declared.response.Response.TheVariants as answer;
ghost use Rattle.tpm_model.specs.declared.command.Command.TheVariants as command;
ghost use Rattle.tpm_model.specs.Fits.{fits};
ghost use Rattle.race_core.specs.Clients.{behind_authorisation, behind_choice, behind_read, behind_rows, behind_start, came_to as came_to_of, chooses, client_after, client_command, closing_of, is_content, outcome_of};
ghost use Rattle.race_core.specs.Racing.{ArePublished, IsAnswer};
ghost use Rattle.race_core.specs.declared.client.Client.TheVariants as client;

use crate::outcome::Outcome;
use pl_base::{Memory, Small};
use policy_digest::Table;
use policy_walk::{
    Authorised, Branched, Finished, PrepareError, Prepared, StartRefusal, Started, Stopped, Walk,
    Why, prepare,
};
use std::alloc::Global;
use std::mem;
use tpm_model::{Command, Refusal, Response};

/// Where a client stands.
#[derive(Debug, Drop)]
pub(crate) enum Client {
    /// Before it reads the index.
    Fresh,
    /// Before it starts its session.
    Prepared(Prepared),
    /// On the rows of its table.
    Started(Started),
    /// Before the index authorises its session.
    Branched(Branched),
    /// Before Unseal.
    Authorised(Authorised),
    /// Before it ends its session, with what it came to.
    Closing {
        /// The session.
        session: u32,
        /// What it came to.
        outcome: Outcome,
    },
    /// It has finished.
    Ended(Outcome),
}

/// What a client came to: its key, or the reason.
fn came_to(secret: &Option<Small>, why: &Option<Why>) -> Outcome
    ensures { result ≡ came_to_of secret.now why.now }
{
    match secret {
        Some(secret) => Outcome::Key(*secret),
        None => match why {
            Some(why) => Outcome::Stopped(*why),
            None => Outcome::Unfinished,
        },
    }
}

/// The session of a walk that is at its end.
fn session_of(stopped: &Stopped) -> u32
    ensures { result ≡ stopped.now.session }
{
    match stopped.command() {
        Command::FlushSession { session } => session,
        _ => unreachable!(),
    }
}

/// A client whose session is at its end, with the secret that it was given.
fn closing_with(secret: &Option<Small>, stopped: Stopped) -> Client
    ensures { result ≡ client.Closing stopped.session (came_to_of secret.now stopped.why) }
{
    let session = session_of(&stopped);
    let why = stopped.why();
    stopped.give_up();
    Client::Closing {
        session,
        outcome: came_to(secret, &why),
    }
}

/// A client whose session is at its end.
fn closing(stopped: Stopped) -> Client
    ensures { result ≡ closing_of stopped }
{
    closing_with(&None, stopped)
}

/// Behind the index's content.
fn choose(alloc: Global, tables: &[Table], index: u32, content: &Small) -> Result<Client, Memory>
    requires { ArePublished tables.now }
    ensures { IfOk result (λ next. next ≡ behind_read index (map plain_table tables.now) (answer.Content content.now)) }
{
    match prepare(alloc, tables, index, content) {
        Ok(prepared) => Ok(Client::Prepared(prepared)),
        Err(PrepareError::Outdated { .. }) => Ok(Client::Ended(Outcome::Outdated)),
        Err(PrepareError::Memory) => Err(Memory),
    }
}

/// Behind the read of the index.
fn read(alloc: Global, tables: &[Table], index: u32, response: &Response) -> Result<Client, Memory>
    requires { ArePublished tables.now }
    ensures after { IfOk result (λ next. next ≡ behind_read index (map plain_table tables.now) response.now) }
    ensures memory { IfErr result (λ _. is_content response.now ≡ true) }
{
    match response {
        Response::Content(content) => choose(alloc, tables, index, content),
        Response::Refused(Refusal::Uninitialized) => {
            Ok(Client::Ended(Outcome::Stopped(Why::Unwritten)))
        }
        _ => Ok(Client::Ended(Outcome::Stopped(Why::NoIndex))),
    }
}

/// Behind the start of a session.
fn start(prepared: Prepared, response: &Response) -> Client
    requires { fits (command.StartSession Sha256) response.now ≡ true }
    ensures { result ≡ behind_start (started_by prepared response.now) }
{
    match prepared.take(response) {
        Ok(started) => Client::Started(started),
        Err(StartRefusal::SessionsFull) => Client::Ended(Outcome::SessionsFull),
        Err(StartRefusal::HandlesEnd) => Client::Ended(Outcome::HandlesEnd),
    }
}

/// Behind a command on the rows.
fn walk(started: Started, response: &Response) -> Client
    requires { fits (walk_command started) response.now ≡ true }
    ensures { result ≡ behind_rows (walked_by started response.now) }
{
    match started.take(response) {
        Ok(Walk::Started(started)) => Client::Started(started),
        Ok(Walk::Branched(branched)) => Client::Branched(branched),
        Err(stopped) => closing(stopped),
    }
}

/// Behind the index's authorisation.
fn authorise(branched: Branched, response: &Response) -> Client
    requires { fits (command.PolicyAuthorizeNv branched.session branched.index) response.now ≡ true }
    ensures { result ≡ behind_authorisation (authorised_by branched response.now) }
{
    match branched.take(response) {
        Ok(authorised) => Client::Authorised(authorised),
        Err(stopped) => closing(stopped),
    }
}

/// Behind Unseal.
fn unseal(authorised: Authorised, object: u32, response: &Response) -> Client
    requires { fits (command.Unseal authorised.session object) response.now ≡ true }
    ensures { result ≡ client.Closing authorised.session (came_to_of (secret_in response.now) (why_in authorised.session object response.now)) }
{
    let Finished { secret, stopped } = authorised.take(object, response);
    closing_with(&secret, stopped)
}

impl Client {
    /// Its next command, where it hasn't finished.
    pub(crate) fn command(&self, index: u32, object: u32) -> Option<Command>
        ensures { result ≡ client_command index object self.now }
    {
        match self {
            Client::Fresh => Some(Command::NvRead { index }),
            Client::Prepared(prepared) => Some(prepared.command()),
            Client::Started(started) => Some(started.command()),
            Client::Branched(branched) => Some(branched.command()),
            Client::Authorised(authorised) => Some(authorised.command(object)),
            Client::Closing { session, .. } => Some(Command::FlushSession { session: *session }),
            Client::Ended(_) => None,
        }
    }

    /// What it came to, once it has finished.
    pub(crate) fn outcome(&self) -> Outcome
        ensures { result ≡ outcome_of self.now }
    {
        match self {
            Client::Ended(outcome) => *outcome,
            _ => Outcome::Unfinished,
        }
    }

    /// The client behind the answer to its command.
    fn behind(
        self,
        alloc: Global,
        tables: &[Table],
        index: u32,
        object: u32,
        response: &Response,
    ) -> Result<Client, Memory>
        requires published { ArePublished tables.now }
        requires answer { IsAnswer (client_command index object self) response.now }
        ensures after { IfOk result (λ next. next ≡ client_after index object (map plain_table tables.now) self response.now) }
        ensures first { IfErr result (λ _. self ≡ client.Fresh) }
        ensures memory { IfErr result (λ _. chooses self response.now ≡ true) }
    {
        match self {
            Client::Fresh => read(alloc, tables, index, response),
            Client::Prepared(prepared) => Ok(start(prepared, response)),
            Client::Started(started) => Ok(walk(started, response)),
            Client::Branched(branched) => Ok(authorise(branched, response)),
            Client::Authorised(authorised) => Ok(unseal(authorised, object, response)),
            Client::Closing { outcome, .. } => Ok(Client::Ended(outcome)),
            Client::Ended(outcome) => Ok(Client::Ended(outcome)),
        }
    }

    /// Takes the answer to its command. Only the choice of its table takes memory; for want of it the client is as
    /// before.
    pub(crate) fn take(
        &mut self,
        alloc: Global,
        tables: &[Table],
        index: u32,
        object: u32,
        response: &Response,
    ) -> Result<(), Memory>
        requires published { ArePublished tables.now }
        requires answer { IsAnswer (client_command index object self.old) response.now }
        ensures after { IfOk result (λ _. self.new ≡ client_after index object (map plain_table tables.now) self.old response.now) }
        ensures same { IfErr result (λ _. self.new ≡ self.old) }
        ensures memory { IfErr result (λ _. chooses self.old response.now ≡ true) }
    {
        match mem::replace(self, Client::Fresh).behind(alloc, tables, index, object, response) {
            Ok(next) => {
                *self = next;
                Ok(())
            }
            Err(memory) => Err(memory),
        }
    }
}
