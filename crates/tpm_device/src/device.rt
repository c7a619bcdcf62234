//! The trait of the device.
ghost use Rattle.std.specs.Prelude.{◌≡◌, ℕ, Bool, true, false, Option, Some, is_ok, is_some, Err, IfOk};
ghost use Rattle.pl_base.specs.Faults.{HasCause};
ghost use Rattle.tpm_model.specs.declared.parts.Parts.{Parts};
ghost use Rattle.tpm_model.specs.Fits.{fits};
ghost use Rattle.tpm_model.specs.Rules.{HasRules};
ghost use Rattle.tpm_device.specs.Stored.{Stored, Holds, BeginGives, ExecuteGives, ExecuteStores, stays_ready};

use std::alloc::Global;
use tpm_model::{Command, Response, StateRule};

/// Why a device isn't ready.
#[derive(Clone, Copy, Debug, PartialEq, Eq)]
pub enum BeginError {
    /// What is stored has this many bytes, more than a state may have.
    TooLarge(u64),
    /// What is stored is no state: the offset of the first field that is cut or not allowed.
    Malformed(u32),
    /// What is stored breaks this rule of a state.
    BadRule(StateRule),
    /// The outside refused, and the count of faults rose.
    Failed,
    /// Memory ran out.
    Memory,
}

/// Why a command has no answer.
#[derive(Clone, Copy, Debug, PartialEq, Eq)]
pub enum ExecError {
    /// The outside refused, and the count of faults rose. The device isn't ready any more.
    Failed,
    /// Memory ran out, and nothing changed.
    Memory,
}

/// A TPM that executes commands.
pub trait Tpm {
    /// The state that the commands meet, which is told while the device is ready: from an accepted
    /// `begin` until a failure. It has the rules of a state.
    ghost live: { Self → Option Parts };

    /// What is stored, where it is told.
    ghost stored: { Self → Option Stored };

    /// Whether commands may be executed.
    ghost ready: { Self → Bool };

    /// How often the device failed.
    ghost faults: { Self → ℕ };

    /// Makes the device ready with the state that is stored. After a refusal it isn't ready.
    fn begin(&mut self, alloc: Global) -> Result<(), BeginError>
        ensures cause { HasCause (faults self.old) (faults self.new) (result ≡ Err BeginError.Failed) }
        ensures readiness { ready self.new ≡ is_ok result }
        ensures told { (kept : Stored) → stored self.old ≡ Some kept → BeginGives kept result (live self.new) }
        ensures same { stored self.new ≡ stored self.old }
        ensures live { IfOk result (λ _. is_some (live self.new) ≡ true) }
        ensures rules { (s : Parts) → live self.new ≡ Some s → HasRules s };

    /// Whether commands may be executed.
    fn is_ready(&self) -> bool
        ensures value { result ≡ ready self.now }
        ensures live { ready self.now ≡ true → is_some (live self.now) ≡ true }
        ensures rules { (s : Parts) → live self.now ≡ Some s → HasRules s };

    /// Executes a command on the live state. An answer fits the command. After a failure the device
    /// isn't ready, and what is stored is the state before or the next one; else it stays ready.
    fn execute(&mut self, alloc: Global, command: &Command) -> Result<Response, ExecError>
        requires { ready self.old ≡ true }
        ensures cause { HasCause (faults self.old) (faults self.new) (result ≡ Err ExecError.Failed) }
        ensures fitting { IfOk result (λ answer. fits command.now answer ≡ true) }
        ensures readiness { ready self.new ≡ stays_ready result }
        ensures told { (s : Parts) → live self.old ≡ Some s → ExecuteGives command.now s result (ready self.new) (live self.new) }
        ensures live { is_some (live self.old) ≡ true }
        ensures rules { (s : Parts) → live self.old ≡ Some s → HasRules s }
        ensures next { (s : Parts) → live self.new ≡ Some s → HasRules s }
        ensures stored { (s : Parts) → live self.old ≡ Some s → stored self.old ≡ Some (Holds s) → ExecuteStores command.now s result (stored self.new) };
}
