//! What the broker keeps of one client.
ghost use Rattle.std.specs.Prelude.{◌≡◌, ◌<◌, ◌≤◌, length, find, position, slice_get, IfOk};
ghost use Rattle.std.specs.Option.{option_map};
ghost use Rattle.tpm_model.specs.SessionCommands.{session_handle};
ghost use Rattle.tpm_broker.specs.Clients.{HasRoom, IsClient, is_own, new_client, tpm_handle as tpm_handle_of, with_started, without, without_all, without_first};
ghost use Rattle.tpm_broker.specs.declared.rows.Handles.{Handles as Both};

use pl_base::Memory;
use std::alloc::Global;
use std::marker::Model;

/// The two handles of a session: the client's and the TPM's. Definitions speak of it.
#[derive(Clone, Copy, Debug)]
pub struct Handles {
    /// As the client calls it.
    pub(crate) own: u32,
    /// As the TPM calls it.
    pub(crate) tpm: u32,
}

/// The sessions of a client, with room for four. Contracts see the client.
#[derive(Debug, Drop)]
pub(crate) struct Rows {
    had: u32,
    sessions: Vec<Handles>,
}

impl Model for Rows {
    ghost use Rattle.std.specs.Prelude.{◌≤◌};
    ghost use Rattle.std.specs.Vec.{vec_capacity};
    ghost use Rattle.tpm_broker.specs.Clients.{Client, IsClient};

    ghost Value = { Client };

    ghost view = { λ a. record { had = a.had; sessions = a.sessions.items } };

    ghost invariant = { λ a. IsClient (record { had = a.had; sessions = a.sessions.items }) × (4 ≤ vec_capacity a.sessions) };
}

/// The most open sessions of a client.
pub(crate) const SESSIONS: usize = 4;

/// The handle of the session with number 0.
const FIRST_SESSION: u32 = 0x0300_0000;

/// The TPM's handle of the session that the client calls by this one.
fn find_tpm(sessions: &[Handles], own: u32) -> Option<u32>
    ensures { result ≡ option_map (λ (handles : Both). handles.tpm) (find (is_own own) sessions.now) }
{
    match sessions.iter().find(|handles| handles.own == own) {
        Some(handles) => Some(handles.tpm),
        None => None,
    }
}

/// The place of the session that the client calls by this handle.
fn find_place(sessions: &[Handles], own: u32) -> Option<usize>
    ensures { result ≡ position (is_own own) sessions.now }
{
    sessions.iter().position(|handles| handles.own == own)
}

impl Rows {
    /// Those of a client that has had no session.
    pub(crate) fn new(alloc: Global) -> Result<Rows, Memory>
        ensures { IfOk result (λ rows. rows ≡ new_client) }
    {
        Ok(Rows {
            had: 0,
            sessions: Vec::with_capacity(alloc, SESSIONS)?,
        })
    }

    /// How many are open.
    pub(crate) fn count(&self) -> usize
        ensures value { result ≡ length self.now.sessions }
        ensures kept { IsClient self.now }
    {
        self.sessions.len()
    }

    /// How many the client has had.
    pub(crate) fn had(&self) -> u32
        ensures { result ≡ self.now.had }
    {
        self.had
    }

    /// The client's handle of its next session.
    pub(crate) fn next_handle(&self) -> u32
        ensures { result ≡ session_handle self.now.had }
    {
        FIRST_SESSION + self.had
    }

    /// The TPM's handle of the session that the client calls by this one.
    pub(crate) fn tpm_handle(&self, own: u32) -> Option<u32>
        ensures { result ≡ tpm_handle_of own self.now }
    {
        find_tpm(self.sessions.as_slice(), own)
    }

    /// The TPM's handle of the first session.
    pub(crate) fn first(&self) -> Option<u32>
        ensures { result ≡ option_map (λ (handles : Both). handles.tpm) (slice_get self.now.sessions 0) }
    {
        match self.sessions.first() {
            Some(handles) => Some(handles.tpm),
            None => None,
        }
    }

    /// One more session, which the TPM calls by this handle. It takes no memory.
    pub(crate) fn start(&mut self, tpm: u32)
        requires { HasRoom self.old }
        ensures { self.new ≡ with_started tpm self.old }
    {
        let own = FIRST_SESSION + self.had;
        self.sessions.push(Handles { own, tpm }).unwrap();
        self.had += 1;
    }

    /// Ends the session that the client calls by this handle.
    pub(crate) fn end(&mut self, own: u32)
        ensures { self.new ≡ without own self.old }
    {
        match find_place(self.sessions.as_slice(), own) {
            Some(place) => {
                let _ended = self.sessions.remove(place);
            }
            None => {}
        }
    }

    /// Ends the first session.
    pub(crate) fn end_first(&mut self)
        requires { 0 < length self.old.sessions }
        ensures { self.new ≡ without_first 1 self.old }
    {
        let _ended = self.sessions.remove(0);
    }

    /// Ends all sessions.
    pub(crate) fn end_all(&mut self)
        ensures { self.new ≡ without_all self.old }
    {
        self.sessions.clear();
    }
}
