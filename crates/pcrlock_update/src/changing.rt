//! Changes are made, one after the other, up to the first that is refused.
ghost use Rattle.std.specs.Prelude.{◌≡◌, ◌∷◌, [], true, Some, IfOk, IfErr};
ghost use Rattle.tpm_model.specs.declared.parts.Parts.{Parts};
ghost use Rattle.pcrlock_line.specs.Causes.{HasCauses};
ghost use Rattle.pcrlock_line.specs.Machine.{Live};
ghost use Rattle.pcrlock_line.specs.Running.{Runs};
ghost use Rattle.pcrlock_update.specs.Changes.{Works, CameTo, answer_for, refusal_in, command_of as command_for, changes_made};
ghost use Rattle.pcrlock_update.specs.Sending.{Sent};

use crate::change::{Change, TpmChange};
use pcrlock_answer::{Answer, limit};
use pcrlock_line::{Stop, ask, replace_file};
use pl_base::{Files, Name};
use std::alloc::Global;
use tpm_device::Tpm;
use tpm_model::{Command, Refusal, Response};

/// The command of a change.
fn command_of(change: &TpmChange) -> Command
    ensures { result ≡ command_for change.now }
{
    match change {
        TpmChange::Undefine(index) => Command::NvUndefine { index: *index },
        TpmChange::Define(public) => Command::NvDefine { public: *public },
        TpmChange::Write { index, pin, value } => Command::NvWrite {
            index: *index,
            pin: *pin,
            value: *value,
        },
        TpmChange::Evict(object) => Command::Evict { handle: *object },
    }
}

/// The answer for a refusal of a change, None where it is passed over: an object that is taken away need not be there.
/// Each change has its own refusals; another one, which no state gives, counts as want of memory.
fn answer_to(alloc: Global, change: &TpmChange, refusal: &Refusal) -> Result<Option<Answer>, Stop>
    ensures told { IfOk result (λ answer. answer ≡ answer_for change.now refusal.now) }
    ensures cause { IfErr result (λ stop. stop ≡ Stop.Memory) }
{
    match change {
        TpmChange::Undefine(_) => Err(Stop::Memory),
        TpmChange::Define(_) => match refusal {
            Refusal::TableFull => match limit(alloc, "indices", 17) {
                Ok(answer) => Ok(Some(answer)),
                Err(_) => Err(Stop::Memory),
            },
            _ => Err(Stop::Memory),
        },
        TpmChange::Write { .. } => match refusal {
            Refusal::CounterEnd(_) => Ok(Some(Answer::CounterEnd { writes: true })),
            _ => Err(Stop::Memory),
        },
        TpmChange::Evict(_) => match refusal {
            Refusal::Handle(_) => Ok(None),
            _ => Err(Stop::Memory),
        },
    }
}

/// The answer for which changes end, where the TPM refused the change.
fn refused(alloc: Global, change: &TpmChange, response: &Response) -> Result<Option<Answer>, Stop>
    ensures told { IfOk result (λ answer. answer ≡ refusal_in change.now response.now) }
    ensures cause { IfErr result (λ stop. stop ≡ Stop.Memory) }
{
    match response {
        Response::Done => Ok(None),
        Response::Refused(refusal) => answer_to(alloc, change, refusal),
        _ => Err(Stop::Memory),
    }
}

/// Makes a change of the TPM.
fn send<T: Tpm>(alloc: Global, tpm: &mut T, change: &TpmChange) -> Result<Option<Answer>, Stop>
    requires { T.ready tpm.old ≡ true }
    ensures causes { HasCauses (0, 0, T.faults tpm.old, 0) (0, 0, T.faults tpm.new, 0) result }
    ensures readiness { IfOk result (λ _. T.ready tpm.new ≡ true) }
    ensures sent { (s : Parts) → Runs (T.live tpm.old) (T.stored tpm.old) s → Sent result (T.live tpm.new) (T.stored tpm.new) change.now s }
{
    match ask(alloc, tpm, &command_of(change)) {
        Ok(response) => refused(alloc, change, &response),
        Err(stop) => Err(stop),
    }
}

/// Makes a change.
fn perform<F: Files, T: Tpm>(
    alloc: Global,
    files: &mut F,
    tpm: &mut T,
    path: &Name,
    change: &Change,
) -> Result<Option<Answer>, Stop>
    requires { T.ready tpm.old ≡ true }
    ensures causes { HasCauses (F.faults files.old, 0, T.faults tpm.old, 0) (F.faults files.new, 0, T.faults tpm.new, 0) result }
    ensures readiness { IfOk result (λ _. T.ready tpm.new ≡ true) }
    ensures made { (m : Live) → Works (F.held files.old) (T.live tpm.old) (T.stored tpm.old) m
        → CameTo result (F.held files.new) (T.live tpm.new) (T.stored tpm.new) (changes_made path.now (change.now ∷ []) m) }
{
    match change {
        Change::Tpm(change) => send(alloc, tpm, change),
        Change::File(bytes) => match replace_file(alloc, files, path.text(), bytes.as_slice()) {
            Ok(()) => Ok(None),
            Err(stop) => Err(stop),
        },
    }
}

/// Makes the changes in order, up to the first that is refused, and gives the answer for it.
pub(crate) fn perform_all<F: Files, T: Tpm>(
    alloc: Global,
    files: &mut F,
    tpm: &mut T,
    path: &Name,
    changes: &[Change],
) -> Result<Option<Answer>, Stop>
    requires { T.ready tpm.old ≡ true }
    ensures causes { HasCauses (F.faults files.old, 0, T.faults tpm.old, 0) (F.faults files.new, 0, T.faults tpm.new, 0) result }
    ensures readiness { IfOk result (λ _. T.ready tpm.new ≡ true) }
    ensures made { (m : Live) → Works (F.held files.old) (T.live tpm.old) (T.stored tpm.old) m
        → CameTo result (F.held files.new) (T.live tpm.new) (T.stored tpm.new) (changes_made path.now changes.now m) }
{
    let Some((first, others)) = changes.split_first() else {
        return Ok(None);
    };
    match perform(alloc, files, tpm, path, first) {
        Ok(None) => perform_all(alloc, files, tpm, path, others),
        Ok(Some(answer)) => Ok(Some(answer)),
        Err(stop) => Err(stop),
    }
}
