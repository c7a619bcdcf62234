//! The state of a TPM, which keeps its rules.
ghost use Rattle.std.specs.Prelude.{◌≡◌, ◌≤◌, true, None, Some, IfOk, IfErr, OnErr};
ghost use Rattle.tpm_model.specs.Fits.{fits};
ghost use Rattle.tpm_model.specs.Held.{parts_of};
ghost use Rattle.tpm_model.specs.Pcrs.{bank_count, pcr_of};
ghost use Rattle.tpm_model.specs.Respond.{respond};
ghost use Rattle.tpm_model.specs.Fresh.{fresh_parts};
ghost use Rattle.tpm_model.specs.Rules.{HasRules, broken_rule as broken_rule_of};
ghost use Rattle.tpm_model.specs.Shape.{HasShape};
ghost use Rattle.tpm_model.specs.Taking.{takes_memory};
ghost use Rattle.tpm_model.specs.Tied.{Tied};
ghost use Rattle.tpm_model.specs.World.{unused_world};

use crate::held::Held;
use crate::index_commands::{
    content_answer, index_defined, index_undefined, index_written, public_answer,
};
use crate::object::{evicted, sealed, unsealed};
use crate::pcr_values::PcrValues;
use crate::pcrs::{pcr_answer, pcr_extended, pcr_value, restarted, started};
use crate::rules::broken_rule;
use crate::sessions::{
    branch_joined, copied_sessions, digest_answer, index_authorized, pcrs_bound, session_flushed,
    session_started,
};
use crate::{Command, Object, Parts, Response, Session, StateRule};
use hash_bank::{Bank, Banks, Digest};
use nv_index::{Index, IndexTable};
use pl_base::{List, Memory};
use std::alloc::Global;
use std::marker::Model;

/// The state of a TPM. Contracts see its parts, which keep the rules.
#[derive(Debug, Drop)]
pub struct State {
    held: Held,
}

impl Model for State {
    ghost use Rattle.tpm_model.specs.declared.parts.Parts.{Parts as PartsValue};
    ghost use Rattle.tpm_model.specs.Held.{parts_of};
    ghost use Rattle.tpm_model.specs.Rules.{HasRules};

    ghost Value = { PartsValue };

    ghost view = { λ a. parts_of a.held };

    ghost invariant = { λ a. HasRules (parts_of a.held) };
}

impl State {
    /// A TPM that was never used: the given banks, at least one, after a start at locality 0. It
    /// takes no memory.
    pub fn fresh(alloc: Global, banks: Banks) -> State
        requires { 1 ≤ bank_count banks }
        ensures value { result ≡ fresh_parts banks }
        // The world in which nothing was done is tied to it.
        ensures tied { Tied result (unused_world banks (fresh_parts banks).pcrs) }
    {
        State {
            held: Held {
                banks,
                pcrs: started(banks, 0),
                update_counter: 0,
                next_session: 0,
                write_counter: 0,
                next_object: 0,
                sessions: List::new(alloc),
                indices: IndexTable::new(alloc),
                objects: List::new(alloc),
            },
        }
    }

    /// The state with these parts. It takes no memory.
    ///
    /// # Errors
    ///
    /// The first rule that the parts break.
    pub fn from_parts(parts: Parts) -> Result<State, StateRule>
        requires { HasShape parts }
        ensures ok { IfOk result (λ state. (state ≡ parts) × (broken_rule_of parts ≡ None)) }
        ensures err { IfErr result (λ rule. broken_rule_of parts ≡ Some rule) }
    {
        if let Some(rule) = broken_rule(&parts) {
            return Err(rule);
        }
        Ok(State {
            held: Held {
                banks: parts.banks,
                pcrs: PcrValues::from_slice(parts.pcrs.as_slice()),
                update_counter: parts.update_counter,
                next_session: parts.next_session,
                write_counter: parts.write_counter,
                next_object: parts.next_object,
                sessions: parts.sessions,
                indices: IndexTable::from_entries(parts.indices),
                objects: parts.objects,
            },
        })
    }

    /// An equal state.
    pub fn copy(&self, alloc: Global) -> Result<State, Memory>
        ensures { IfOk result (λ state. state ≡ self.now) }
    {
        Ok(State {
            held: Held {
                banks: self.held.banks,
                pcrs: PcrValues::from_slice(self.held.pcrs.as_slice()),
                update_counter: self.held.update_counter,
                next_session: self.held.next_session,
                write_counter: self.held.write_counter,
                next_object: self.held.next_object,
                sessions: copied_sessions(alloc, self.held.sessions.as_slice())?,
                indices: copied_indices(alloc, &self.held.indices)?,
                objects: List::from_vec(Vec::from_slice(alloc, self.held.objects.as_slice())?),
            },
        })
    }

    /// Makes the state equal to another, in its place. Where memory runs out it stays as it is.
    pub fn copy_from(&mut self, alloc: Global, other: &State) -> Result<(), Memory>
        ensures ok { IfOk result (λ _. self.new ≡ other.now) }
        ensures err { OnErr result (self.new ≡ self.old) }
    {
        let Ok(sessions) = copied_sessions(alloc, other.held.sessions.as_slice()) else {
            return Err(Memory);
        };
        let Ok(indices) = copied_indices(alloc, &other.held.indices) else {
            return Err(Memory);
        };
        let Ok(objects) = Vec::from_slice(alloc, other.held.objects.as_slice()) else {
            return Err(Memory);
        };
        self.held.banks = other.held.banks;
        self.held.pcrs.copy_from(&other.held.pcrs);
        self.held.update_counter = other.held.update_counter;
        self.held.next_session = other.held.next_session;
        self.held.write_counter = other.held.write_counter;
        self.held.next_object = other.held.next_object;
        self.held.sessions = sessions;
        self.held.indices = indices;
        self.held.objects = List::from_vec(objects);
        Ok(())
    }

    /// The present banks.
    pub fn banks(&self) -> Banks
        ensures { result ≡ self.now.banks }
    {
        self.held.banks
    }

    /// The value of a PCR, or None where its bank isn't present or the PCR is above 23.
    pub fn pcr(&self, bank: Bank, pcr: u8) -> Option<Digest>
        ensures { result ≡ pcr_of self.now.banks self.now.pcrs bank pcr }
    {
        pcr_value(self.held.banks, self.held.pcrs.as_slice(), bank, pcr)
    }

    /// For each present bank, in the order SHA-1, SHA-256, SHA-384, SHA-512, its 24 PCR values.
    pub fn pcrs(&self) -> &[Digest]
        ensures value { result.now ≡ self.now.pcrs }
        ensures rules { HasRules self.now }
    {
        self.held.pcrs.as_slice()
    }

    /// The extends since the restart.
    pub fn update_counter(&self) -> u32
        ensures { result ≡ self.now.update_counter }
    {
        self.held.update_counter
    }

    /// The writes of NV indices since the TPM was made.
    pub fn write_counter(&self) -> u32
        ensures { result ≡ self.now.write_counter }
    {
        self.held.write_counter
    }

    /// The number of the next session.
    pub fn next_session(&self) -> u32
        ensures { result ≡ self.now.next_session }
    {
        self.held.next_session
    }

    /// The number of the next object.
    pub fn next_object(&self) -> u32
        ensures { result ≡ self.now.next_object }
    {
        self.held.next_object
    }

    /// The open sessions, by rising handles.
    pub fn sessions(&self) -> &[Session]
        ensures { result.now ≡ self.now.sessions }
    {
        self.held.sessions.as_slice()
    }

    /// The NV indices, by rising handles.
    pub fn indices(&self) -> &[Index]
        ensures { result.now ≡ self.now.indices }
    {
        self.held.indices.entries()
    }

    /// The sealed objects, by rising handles.
    pub fn objects(&self) -> &[Object]
        ensures { result.now ≡ self.now.objects }
    {
        self.held.objects.as_slice()
    }
}

/// The same indices.
fn copied_indices(alloc: Global, indices: &IndexTable) -> Result<IndexTable, Memory>
    ensures { IfOk result (λ copies. copies ≡ indices.now) }
{
    let entries = List::from_vec(Vec::from_slice(alloc, indices.entries())?);
    Ok(IndexTable::from_entries(entries))
}

/// One command on plain parts, which keep their rules.
fn step_held(alloc: Global, held: &mut Held, command: &Command) -> Result<Response, Memory>
    requires { HasRules (parts_of held.old) }
    ensures ok { IfOk result (λ answer. (answer, parts_of held.new) ≡ respond command.now (parts_of held.old)) }
    ensures err { OnErr result (parts_of held.new ≡ parts_of held.old) }
    ensures rules { HasRules (parts_of held.new) }
    ensures memory { IfErr result (λ _. takes_memory command.now ≡ true) }
{
    match *command {
        Command::Restart { locality, banks } => Ok(restarted(alloc, held, locality, banks)),
        Command::PcrExtend { pcr, digests } => Ok(pcr_extended(held, pcr, &digests)),
        Command::PcrRead { bank, pcr } => Ok(pcr_answer(held, bank, pcr)),
        Command::StartSession { hash } => session_started(alloc, held, hash),
        Command::PolicyPcr {
            session,
            bank,
            pcrs,
        } => Ok(pcrs_bound(alloc, held, session, bank, pcrs)),
        Command::PolicyGetDigest { session } => Ok(digest_answer(held, session)),
        Command::FlushSession { session } => Ok(session_flushed(held, session)),
        Command::Seal { policy, secret } => sealed(held, &policy, &secret),
        Command::Unseal { session, handle } => Ok(unsealed(held, session, handle)),
        Command::PolicyOr { session, list } => Ok(branch_joined(alloc, held, session, &list)),
        Command::PolicyAuthorizeNv { session, index } => {
            Ok(index_authorized(alloc, held, session, index))
        }
        Command::NvDefine { public } => index_defined(held, &public),
        Command::NvUndefine { index } => Ok(index_undefined(held, index)),
        Command::NvWrite { index, pin, value } => Ok(index_written(held, index, &pin, &value)),
        Command::NvRead { index } => Ok(content_answer(held, index)),
        Command::NvReadPublic { index } => Ok(public_answer(held, index)),
        Command::Evict { handle } => Ok(evicted(held, handle)),
    }
}

/// Executes a command. The answer fits it. After a refusal or want of memory the state is as before;
/// only StartSession, NvDefine and Seal take memory.
pub fn step(alloc: Global, state: &mut State, command: &Command) -> Result<Response, Memory>
    ensures ok { IfOk result (λ answer. (answer, state.new) ≡ respond command.now state.old) }
    ensures err { OnErr result (state.new ≡ state.old) }
    ensures rules { HasRules state.old × HasRules state.new }
    ensures fitting { IfOk result (λ answer. fits command.now answer ≡ true) }
    ensures memory { IfErr result (λ _. takes_memory command.now ≡ true) }
{
    step_held(alloc, &mut state.held, command)
}
