//! A race.
ghost use Rattle.std.specs.Prelude.{◌≡◌, ◌<◌, ◌≤◌, true, [], ◌∷◌, length, map, replicate, IfOk, IfErr};
ghost use Rattle.std.specs.List.{AllByRecursion};
ghost use Rattle.policy_digest.specs.declared.table.Table.{Table as TableValue};
ghost use Rattle.policy_digest.specs.Plain.{plain_table};
ghost use Rattle.policy_digest.specs.Table.{valid_table};
ghost use Rattle.race_core.specs.Racing.{ArePublished, IsAnswer, IsEvent, race_after, race_command, publishes, race_outcome, tables_after, takes_memory};
ghost use Rattle.race_core.specs.declared.event.Event.TheVariants as event;
ghost use Rattle.race_core.specs.declared.client.Client.TheVariants as client;

use crate::client::Client;
use crate::content::content;
use crate::event::Event;
use crate::outcome::Outcome;
use pl_base::{List, Memory};
use policy_digest::Table;
use std::alloc::Global;
use std::marker::Model;
use tpm_model::{Command, Response};

/// Some clients that race for one object, which is bound to one index, beside anyone's commands and updates of the
/// index. Contracts see the published tables as plain data, and where each client stands.
#[derive(Debug, Drop)]
pub struct Race {
    index: u32,
    object: u32,
    tables: List<Table>,
    clients: Vec<Client>,
}

impl Model for Race {
    ghost use Rattle.std.specs.Prelude.{map};
    ghost use Rattle.policy_digest.specs.Plain.{plain_table};
    ghost use Rattle.race_core.specs.Racing.{ArePublished, Racing};

    ghost Value = { Racing };

    ghost view = { λ r. record {
      index = r.index;
      object = r.object;
      tables = map plain_table r.tables;
      clients = r.clients.items;
    } };

    ghost invariant = { λ r. ArePublished r.tables };
}

/// Equal tables with memory of their own.
fn copies(alloc: Global, tables: &[Table]) -> Result<List<Table>, Memory>
    ensures { IfOk result (λ list. list ≡ tables.now) }
{
    let mut list = List::new(alloc);
    for table in tables {
        list.push(table.copy(alloc)?)?;
    }
    Ok(list)
}

/// So many clients before their first step.
fn fresh(alloc: Global, count: u32) -> Result<Vec<Client>, Memory>
    ensures { IfOk result (λ clients. clients.items ≡ replicate count client.Fresh) }
{
    let mut clients = Vec::new(alloc);
    for _place in 0..count {
        clients.push(Client::Fresh)?;
    }
    Ok(clients)
}

/// A list of one table: an equal one with memory of its own.
fn alone(alloc: Global, table: &Table) -> Result<List<Table>, Memory>
    ensures { IfOk result (λ list. list ≡ table.now ∷ []) }
{
    let mut list = List::new(alloc);
    list.push(table.copy(alloc)?)?;
    Ok(list)
}

impl Race {
    /// A race of so many clients, none of which has taken a step, for the object; these tables are published.
    pub fn new(
        alloc: Global,
        clients: u32,
        index: u32,
        object: u32,
        tables: &[Table],
    ) -> Result<Race, Memory>
        requires some { 1 ≤ length tables.now }
        requires few { length tables.now ≤ 2 }
        requires valid { AllByRecursion (λ (t : TableValue). valid_table t ≡ true) tables.now }
        ensures { IfOk result (λ race. race ≡ record { index = index; object = object; tables = map plain_table tables.now; clients = replicate clients client.Fresh }) }
    {
        let tables = copies(alloc, tables)?;
        let clients = fresh(alloc, clients)?;
        Ok(Race {
            index,
            object,
            tables,
            clients,
        })
    }

    /// The event's command: the client's next, anyone's own, or the write of the table's root. None where a client
    /// is to take a step that has finished.
    pub fn command(&self, event: &Event) -> Option<Command>
        requires { IsEvent (length self.now.clients) event.now }
        ensures { result ≡ race_command self.now event.now }
    {
        match event {
            Event::Step(client) => self.clients[*client as usize].command(self.index, self.object),
            Event::Stranger(command) => Some(*command),
            Event::Update { pin, root, .. } => Some(Command::NvWrite {
                index: self.index,
                pin: *pin,
                value: content(root),
            }),
        }
    }

    /// Publishes the table alone, where its root was written.
    fn publish(&mut self, alloc: Global, table: &Table, response: &Response) -> Result<(), Memory>
        requires { valid_table table.now ≡ true }
        ensures after { IfOk result (λ _. self.new ≡ record self.old { tables = tables_after self.old.tables (plain_table table.now) response.now }) }
        ensures same { IfErr result (λ _. self.new ≡ self.old) }
        ensures memory { IfErr result (λ _. publishes response.now ≡ true) }
    {
        match response {
            Response::Done => match alone(alloc, table) {
                Ok(tables) => {
                    self.tables = tables;
                    Ok(())
                }
                Err(memory) => Err(memory),
            },
            _ => Ok(()),
        }
    }

    /// Takes the answer to a client's command.
    fn step(&mut self, alloc: Global, client: u32, response: &Response) -> Result<(), Memory>
        requires client { client < length self.old.clients }
        requires answer { IsAnswer (race_command self.old (event.Step client)) response.now }
        ensures after { IfOk result (λ _. self.new ≡ race_after self.old (event.Step client) response.now) }
        ensures same { IfErr result (λ _. self.new ≡ self.old) }
        ensures memory { IfErr result (λ _. takes_memory self.old (event.Step client) response.now ≡ true) }
    {
        self.clients[client as usize].take(
            alloc,
            self.tables.as_slice(),
            self.index,
            self.object,
            response,
        )
    }

    /// Takes the answer to an event's command. Memory is taken where a client chooses its table, and where a table is
    /// published; for want of it the race is as before.
    pub fn take(&mut self, alloc: Global, event: &Event, response: &Response) -> Result<(), Memory>
        requires event { IsEvent (length self.old.clients) event.now }
        requires answer { IsAnswer (race_command self.old event.now) response.now }
        ensures after { IfOk result (λ _. self.new ≡ race_after self.old event.now response.now) }
        ensures same { IfErr result (λ _. self.new ≡ self.old) }
        ensures memory { IfErr result (λ _. takes_memory self.old event.now response.now ≡ true) }
        ensures clients { length self.new.clients ≡ length self.old.clients }
    {
        match event {
            Event::Step(client) => self.step(alloc, *client, response),
            Event::Stranger(_) => Ok(()),
            Event::Update { table, .. } => self.publish(alloc, table, response),
        }
    }

    /// What a client came to: `Unfinished` until it has ended its session or was refused one.
    pub fn outcome(&self, client: u32) -> Outcome
        requires { client < length self.now.clients }
        ensures { result ≡ race_outcome self.now client }
    {
        self.clients[client as usize].outcome()
    }
}
