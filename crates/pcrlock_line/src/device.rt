//! The device that a command uses.
ghost use Rattle.std.specs.Prelude.{is_none, ◌≡◌, ℕ, true, None, Option, Some, IfOk, IfErr, Result, Ok, Err};
ghost use Rattle.tpm_model.specs.declared.parts.Parts.{Parts};
ghost use Rattle.tpm_device.specs.Stored.{Stored, Holds, BadRule};
ghost use Rattle.tpm_model.specs.Rules.{HasRules};
ghost use Rattle.pcrlock_line.specs.Asked.{IsAnswered, IsStopped};
ghost use Rattle.pcrlock_line.specs.Begun.{rule_name as name_of_rule, state_refusal, IsBegun};
ghost use Rattle.pcrlock_line.specs.Causes.{HasCauses};

use crate::Stop;
use pcrlock_answer::{Answer, Place, limit, malformed, malformed_at};
use pl_base::{Memory, Name};
use std::alloc::Global;
use tpm_device::{BeginError, ExecError, Tpm};
use tpm_model::{Command, Response, StateRule};

/// The name of a rule of states, in lower case.
fn rule_name(rule: StateRule) -> &'static str
    ensures { result.now ≡ name_of_rule rule }
{
    match rule {
        StateRule::Banks => "banks",
        StateRule::Counters => "counters",
        StateRule::SessionOrder => "sessionorder",
        StateRule::Fold => "fold",
        StateRule::OrMember => "ormember",
        StateRule::PcrNow => "pcrnow",
        StateRule::NvNow => "nvnow",
        StateRule::Noted => "noted",
        StateRule::IndexOrder => "indexorder",
        StateRule::IndexAttributes => "indexattributes",
        StateRule::ObjectOrder => "objectorder",
        StateRule::Secret => "secret",
    }
}

/// The answer for a state file whose state breaks the rule.
fn breaks_rule(alloc: Global, path: &str, rule: StateRule) -> Result<Answer, Memory>
    ensures { IfOk result (λ answer. Some answer ≡ state_refusal path.now (BadRule rule)) }
{
    let name = Name::from_text(alloc, rule_name(rule))?;
    malformed(alloc, path, Place::Rule(name))
}

/// Makes the device ready, or answers why what is stored, in the state file at the path, is no
/// state. What is stored stays.
pub fn ready<T: Tpm>(alloc: Global, tpm: &mut T, path: &Name) -> Result<Option<Answer>, Stop>
    ensures causes { HasCauses (0, 0, T.faults tpm.old, 0) (0, 0, T.faults tpm.new, 0) result }
    ensures told { (kept : Stored) → T.stored tpm.old ≡ Some kept → IfOk result (λ refusal. refusal ≡ state_refusal path.now kept) }
    ensures live { (s : Parts) → T.stored tpm.old ≡ Some (Holds s) → IfOk result (λ refusal. IsBegun s (T.ready tpm.new) (T.live tpm.new)) }
    ensures readiness { IfOk result (λ refusal. T.ready tpm.new ≡ is_none refusal) }
    ensures rules { (s : Parts) → T.live tpm.new ≡ Some s → HasRules s }
    ensures same { T.stored tpm.new ≡ T.stored tpm.old }
{
    match tpm.begin(alloc) {
        Ok(()) => Ok(None),
        Err(BeginError::TooLarge(size)) => Ok(Some(limit(alloc, "state-bytes", size)?)),
        Err(BeginError::Malformed(place)) => Ok(Some(malformed_at(alloc, path.text(), place)?)),
        Err(BeginError::BadRule(rule)) => Ok(Some(breaks_rule(alloc, path.text(), rule)?)),
        Err(BeginError::Failed) => Err(Stop::TpmFault),
        Err(BeginError::Memory) => Err(Stop::Memory),
    }
}

/// Executes a command on the ready device, which tells its live state and stores it.
pub fn ask<T: Tpm>(alloc: Global, tpm: &mut T, command: &Command) -> Result<Response, Stop>
    requires readiness { T.ready tpm.old ≡ true }
    ensures causes { HasCauses (0, 0, T.faults tpm.old, 0) (0, 0, T.faults tpm.new, 0) result }
    ensures told { (s : Parts) → T.live tpm.old ≡ Some s → T.stored tpm.old ≡ Some (Holds s)
        → IfOk result (λ response. IsAnswered command.now s response (T.ready tpm.new) (T.live tpm.new) (T.stored tpm.new)) }
    // A device that answered goes on, also where it tells nothing.
    ensures readiness { IfOk result (λ _. T.ready tpm.new ≡ true) }
    ensures rules { (s : Parts) → T.live tpm.old ≡ Some s → HasRules s }
    ensures stops { (s : Parts) → T.live tpm.old ≡ Some s → T.stored tpm.old ≡ Some (Holds s)
        → IfErr result (λ _. IsStopped command.now s (T.stored tpm.new)) }
{
    match tpm.execute(alloc, command) {
        Ok(response) => Ok(response),
        Err(ExecError::Failed) => Err(Stop::TpmFault),
        Err(ExecError::Memory) => Err(Stop::Memory),
    }
}
