//! A TPM in memory.
ghost use Rattle.std.specs.Prelude.{◌≡◌, ℕ, Bool, true, false, if◌then◌else◌, ◌≢◌, Option, Some, is_ok, is_some, IsOk, Err, IfOk, IfErr, IfSome};
ghost use Rattle.pl_base.specs.Calls.{FollowsPlan, planned};
ghost use Rattle.pl_base.specs.Faults.{HasCause};
ghost use Rattle.tpm_model.specs.declared.parts.Parts.{Parts};
ghost use Rattle.tpm_model.specs.Fits.{fits};
ghost use Rattle.tpm_model.specs.Respond.{respond};
ghost use Rattle.tpm_model.specs.Rules.{HasRules};
ghost use Rattle.tpm_model.specs.Taking.{takes_memory};
ghost use Rattle.tpm_device.specs.Stored.{Stored, Holds, BeginGives, ExecuteGives, ExecuteStores, stays_ready};

use crate::{BeginError, ExecError, Tpm};
use pl_base::{Fail, List, Schedule};
use std::alloc::Global;
use std::marker::Model;
use tpm_model::{Command, Response, State, step};

/// A TPM whose state is kept in memory: what is stored is always the live state. Its calls of
/// `begin` and `execute` are counted together, from 0; those of the given numbers fail, after they
/// took effect where `done` holds.
#[derive(Debug, Drop)]
pub struct SoftTpm {
    state: State,
    schedule: Schedule,
    ready: bool,
}

impl Model for SoftTpm {
    ghost use Rattle.tpm_model.specs.Rules.{HasRules};
    ghost use Rattle.tpm_device.specs.SoftDevice.{SoftDevice};

    ghost Value = { SoftDevice };

    ghost view = { λ a. record { state = a.state; calls = a.schedule; ready = a.ready } };

    ghost invariant = { λ a. HasRules a.state };
}

impl SoftTpm {
    /// A TPM with this state, which isn't ready yet, and fails at these calls.
    pub fn new(state: State, fails: List<Fail>) -> SoftTpm
        ensures { result ≡ record { state = state; calls = record { fails = fails; made = 0; faults = 0 }; ready = false } }
    {
        let _values = state.pcrs(); // tells that the state has its rules
        SoftTpm {
            state,
            schedule: Schedule::new(fails),
            ready: false,
        }
    }

    /// One step of the state.
    fn step(&mut self, alloc: Global, command: &Command) -> Result<Response, ExecError>
        requires { self.old.ready ≡ true }
        ensures told { ExecuteGives command.now self.old.state result self.old.ready (Some self.new.state) }
        ensures memory { result ≢ Err ExecError.Failed }
        ensures fitting { IfOk result (λ answer. fits command.now answer ≡ true) }
        ensures same { (self.new.calls ≡ self.old.calls) × (self.new.ready ≡ self.old.ready) }
        ensures rules { HasRules self.new.state }
        ensures taking { IfErr result (λ _. takes_memory command.now ≡ true) }
    {
        let Ok(response) = step(alloc, &mut self.state, command) else {
            return Err(ExecError::Memory);
        };
        Ok(response)
    }
}

impl Tpm for SoftTpm {
    ghost live = { λ tpm. Some tpm.state };

    ghost stored = { λ tpm. Some (Holds tpm.state) };

    ghost ready = { λ tpm. tpm.ready };

    ghost faults = { λ tpm. tpm.calls.faults };

    fn begin(&mut self, _alloc: Global) -> Result<(), BeginError>
        ensures cause { HasCause self.old.calls.faults self.new.calls.faults (result ≡ Err BeginError.Failed) }
        ensures readiness { self.new.ready ≡ is_ok result }
        ensures told { (kept : Stored) → Some (Holds self.old.state) ≡ Some kept → BeginGives kept result (Some self.new.state) }
        ensures same { Some (Holds self.new.state) ≡ Some (Holds self.old.state) }
        ensures live { IfOk result (λ _. is_some (Some self.new.state) ≡ true) }
        ensures rules { (s : Parts) → Some self.new.state ≡ Some s → HasRules s }
        ensures plan { FollowsPlan self.old.calls self.new.calls (result ≡ Err BeginError.Failed) (IsOk result) }
        // It has no other refusal than a planned failure.
        ensures refusal { IfErr result (λ error. error ≡ BeginError.Failed) }
    {
        match self.schedule.next_call() {
            None => {
                self.ready = true;
                Ok(())
            }
            Some(_) => {
                self.schedule.fault();
                self.ready = false;
                Err(BeginError::Failed)
            }
        }
    }

    fn is_ready(&self) -> bool {
        self.ready
    }

    fn execute(&mut self, alloc: Global, command: &Command) -> Result<Response, ExecError>
        requires { self.old.ready ≡ true }
        ensures cause { HasCause self.old.calls.faults self.new.calls.faults (result ≡ Err ExecError.Failed) }
        ensures fitting { IfOk result (λ answer. fits command.now answer ≡ true) }
        ensures readiness { self.new.ready ≡ stays_ready result }
        ensures told { (s : Parts) → Some self.old.state ≡ Some s → ExecuteGives command.now s result self.new.ready (Some self.new.state) }
        ensures live { is_some (Some self.old.state) ≡ true }
        ensures rules { (s : Parts) → Some self.old.state ≡ Some s → HasRules s }
        ensures next { (s : Parts) → Some self.new.state ≡ Some s → HasRules s }
        ensures stored { (s : Parts) → Some self.old.state ≡ Some s → Some (Holds self.old.state) ≡ Some (Holds s) → ExecuteStores command.now s result (Some (Holds self.new.state)) }
        ensures plan { FollowsPlan self.old.calls self.new.calls (result ≡ Err ExecError.Failed) (IsOk result) }
        // Memory runs out only for a command that takes some.
        ensures taking { result ≡ Err ExecError.Memory → takes_memory command.now ≡ true }
        // A planned failure comes after the command took effect where `done` holds, and else before.
        ensures done { IfSome (planned self.old.calls) (λ fail. result ≡ Err ExecError.Failed → self.new.state ≡ (if fail.done then (respond command.now self.old.state).1 else self.old.state)) }
    {
        match self.schedule.next_call() {
            None => self.step(alloc, command),
            Some(fail) => {
                if fail.done && self.step(alloc, command).is_err() {
                    return Err(ExecError::Memory);
                }
                self.schedule.fault();
                self.ready = false;
                Err(ExecError::Failed)
            }
        }
    }
}
