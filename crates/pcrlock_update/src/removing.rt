//! `remove-policy`: the index that holds the policy in force, the object that holds its pin and the
//! policy file are taken away.
ghost use Rattle.std.specs.Prelude.{◌≡◌, ◌⊎◌, ℕ, true, List as Sequence, Option, Some, Ok, IfOk, IfErr, OnOk};
ghost use Rattle.nv_index.specs.Table.{index_at};
ghost use Rattle.tpm_model.specs.declared.parts.Parts.{Parts};
ghost use Rattle.tpm_model.specs.IndexCommands.{nv_undefine};
ghost use Rattle.tpm_device.specs.Stored.{Holds};
ghost use Rattle.pcrlock_line.specs.Causes.{HasCauses};
ghost use Rattle.pcrlock_line.specs.Machine.{Machine, Live, Tells, machine};
ghost use Rattle.pcrlock_line.specs.Outcome.{Gives};
ghost use Rattle.pcrlock_line.specs.Running.{Runs, Keeps};
ghost use Rattle.pcrlock_line.specs.Stopped.{StandsAmong};
ghost use Rattle.pcrlock_deeds.specs.PolicyAt.{policy_of};
ghost use Rattle.pcrlock_update.specs.RemovePolicy.{has_policy, shows_policy as shows, is_done as is_done_of, is_gone as is_gone_of, without_index, without_pin, removed_text as text_of_removal, removed_line, removal_line, remove_policy_line};

use pcrlock_answer::no_policy;
use pcrlock_deeds::policy_at;
use pcrlock_line::{Reply, Stop, ask, ready, remove_file};
use pl_base::{Files, Memory, Name};
use policy_file::Policy;
use std::alloc::Global;
use tpm_device::Tpm;
use tpm_model::{Command, Refusal, Response};

/// What the command prints.
#[tactic(auto, unfolding(crate::specs::RemovePolicy::removed_text))]
fn removed_text(alloc: Global) -> Result<Vec<u8>, Memory>
    ensures { IfOk result (λ text. text.items ≡ text_of_removal) }
{
    Ok(format!(in alloc; "removed\n")?.into_bytes())
}

/// Whether the answer shows an index with the policy's digest.
fn shows_policy(policy: &Policy, response: &Response) -> bool
    ensures { result ≡ shows policy.now.index_policy response.now }
{
    match response {
        Response::Public(public) => { public.policy.as_slice() == policy.index_policy.as_slice() }
        _ => false,
    }
}

/// Whether a command was done.
fn is_done(response: &Response) -> bool
    ensures { result ≡ is_done_of response.now }
{
    matches!(response, Response::Done)
}

/// Whether an object is gone now: it was taken away, or wasn't there.
fn is_gone(response: &Response) -> bool
    ensures { result ≡ is_gone_of response.now }
{
    match response {
        Response::Done => true,
        Response::Refused(Refusal::Handle(_)) => true,
        _ => false,
    }
}

/// Whether the index under the policy's handle has the policy's digest (TPM 2.0 Library Part 3,
/// TPM2_NV_ReadPublic). The state stays as it is.
fn holds_policy<T: Tpm>(alloc: Global, tpm: &mut T, policy: &Policy) -> Result<bool, Stop>
    requires { T.ready tpm.old ≡ true }
    ensures causes { HasCauses (0, 0, T.faults tpm.old, 0) (0, 0, T.faults tpm.new, 0) result }
    ensures readiness { IfOk result (λ _. T.ready tpm.new ≡ true) }
    ensures told { (s : Parts) → Runs (T.live tpm.old) (T.stored tpm.old) s
        → IfOk result (λ found. found ≡ has_policy policy.now.index_policy (index_at policy.now.handle s.indices)) }
    ensures runs { (s : Parts) → Runs (T.live tpm.old) (T.stored tpm.old) s → IfOk result (λ _. Runs (T.live tpm.new) (T.stored tpm.new) s) }
    ensures stops { (s : Parts) → Runs (T.live tpm.old) (T.stored tpm.old) s → IfErr result (λ _. Keeps (T.stored tpm.new) s) }
{
    let command = Command::NvReadPublic {
        index: policy.handle,
    };
    match ask(alloc, tpm, &command) {
        Ok(response) => Ok(shows_policy(policy, &response)),
        Err(stop) => Err(stop),
    }
}

/// Takes the index under the handle away (TPM2_NV_UndefineSpace).
fn undefine<T: Tpm>(alloc: Global, tpm: &mut T, index: u32) -> Result<(), Stop>
    requires { T.ready tpm.old ≡ true }
    ensures causes { HasCauses (0, 0, T.faults tpm.old, 0) (0, 0, T.faults tpm.new, 0) result }
    ensures readiness { IfOk result (λ _. T.ready tpm.new ≡ true) }
    ensures runs { (s : Parts) → Runs (T.live tpm.old) (T.stored tpm.old) s → IfOk result (λ _. Runs (T.live tpm.new) (T.stored tpm.new) (nv_undefine index s).1) }
    ensures stops { (s : Parts) → Runs (T.live tpm.old) (T.stored tpm.old) s
        → IfErr result (λ _. Keeps (T.stored tpm.new) s ⊎ Keeps (T.stored tpm.new) (nv_undefine index s).1) }
{
    match ask(alloc, tpm, &Command::NvUndefine { index }) {
        Ok(response) => {
            if is_done(&response) {
                Ok(())
            } else {
                Err(Stop::Memory)
            }
        }
        Err(stop) => Err(stop),
    }
}

/// Takes the policy's index away, where it has the policy's digest.
fn remove_index<T: Tpm>(alloc: Global, tpm: &mut T, policy: &Policy) -> Result<(), Stop>
    requires { T.ready tpm.old ≡ true }
    ensures causes { HasCauses (0, 0, T.faults tpm.old, 0) (0, 0, T.faults tpm.new, 0) result }
    ensures readiness { IfOk result (λ _. T.ready tpm.new ≡ true) }
    ensures runs { (s : Parts) → Runs (T.live tpm.old) (T.stored tpm.old) s → IfOk result (λ _. Runs (T.live tpm.new) (T.stored tpm.new) (without_index policy.now s)) }
    ensures stops { (s : Parts) → Runs (T.live tpm.old) (T.stored tpm.old) s
        → IfErr result (λ _. Keeps (T.stored tpm.new) s ⊎ Keeps (T.stored tpm.new) (without_index policy.now s)) }
{
    match holds_policy(alloc, tpm, policy) {
        Ok(true) => undefine(alloc, tpm, policy.handle),
        Ok(false) => Ok(()),
        Err(stop) => Err(stop),
    }
}

/// Takes the object that holds the policy's pin away, where it is there (TPM2_EvictControl).
fn remove_pin<T: Tpm>(alloc: Global, tpm: &mut T, policy: &Policy) -> Result<(), Stop>
    requires { T.ready tpm.old ≡ true }
    ensures causes { HasCauses (0, 0, T.faults tpm.old, 0) (0, 0, T.faults tpm.new, 0) result }
    ensures readiness { IfOk result (λ _. T.ready tpm.new ≡ true) }
    ensures runs { (s : Parts) → Runs (T.live tpm.old) (T.stored tpm.old) s → IfOk result (λ _. Runs (T.live tpm.new) (T.stored tpm.new) (without_pin policy.now s)) }
    ensures stops { (s : Parts) → Runs (T.live tpm.old) (T.stored tpm.old) s
        → IfErr result (λ _. Keeps (T.stored tpm.new) s ⊎ Keeps (T.stored tpm.new) (without_pin policy.now s)) }
{
    let command = Command::Evict {
        handle: policy.pin_object,
    };
    match ask(alloc, tpm, &command) {
        Ok(response) => {
            if is_gone(&response) {
                Ok(())
            } else {
                Err(Stop::Memory)
            }
        }
        Err(stop) => Err(stop),
    }
}

/// Takes the policy off the TPM: its index, and then the object that holds its pin.
fn remove_stored<T: Tpm>(alloc: Global, tpm: &mut T, policy: &Policy) -> Result<(), Stop>
    requires { T.ready tpm.old ≡ true }
    ensures causes { HasCauses (0, 0, T.faults tpm.old, 0) (0, 0, T.faults tpm.new, 0) result }
    ensures runs { (s : Parts) → Runs (T.live tpm.old) (T.stored tpm.old) s
        → IfOk result (λ _. Keeps (T.stored tpm.new) (without_pin policy.now (without_index policy.now s))) }
    ensures stops { (s : Parts) → Runs (T.live tpm.old) (T.stored tpm.old) s
        → IfErr result (λ _. Keeps (T.stored tpm.new) s ⊎ (Keeps (T.stored tpm.new) (without_index policy.now s) ⊎ Keeps (T.stored tpm.new) (without_pin policy.now (without_index policy.now s)))) }
{
    match remove_index(alloc, tpm, policy) {
        Ok(()) => remove_pin(alloc, tpm, policy),
        Err(stop) => Err(stop),
    }
}

/// Takes the policy off the ready TPM, and then its file away.
fn remove_all<F: Files, T: Tpm>(
    alloc: Global,
    files: &mut F,
    tpm: &mut T,
    path: &Name,
    policy: &Policy,
) -> Result<Reply, Stop>
    requires { T.ready tpm.old ≡ true }
    ensures causes { HasCauses (F.faults files.old, 0, T.faults tpm.old, 0) (F.faults files.new, 0, T.faults tpm.new, 0) result }
    ensures told { (words : Option (Sequence (Sequence ℕ))) (m : Live) → Tells (F.held files.old) (T.stored tpm.old) words (machine m) → T.live tpm.old ≡ Some m.state
        → IfOk result (λ reply. Gives (F.held files.new) (T.stored tpm.new) words reply (removed_line path.now policy.now m)) }
    ensures stops { (words : Option (Sequence (Sequence ℕ))) (m : Live) → Tells (F.held files.old) (T.stored tpm.old) words (machine m) → T.live tpm.old ≡ Some m.state
        → IfErr result (λ _. StandsAmong (F.held files.new) (T.stored tpm.new) (removed_line path.now policy.now m).stops) }
{
    let Ok(text) = removed_text(alloc) else {
        return Err(Stop::Memory);
    };
    match remove_stored(alloc, tpm, policy) {
        Ok(()) => match remove_file(alloc, files, path.text()) {
            Ok(_) => Ok(Reply::Fine(text)),
            Err(stop) => Err(stop),
        },
        Err(stop) => Err(stop),
    }
}

/// Makes the device ready, whose state stands at the path `state`, and takes the policy away.
fn remove_read<F: Files, T: Tpm>(
    alloc: Global,
    files: &mut F,
    tpm: &mut T,
    state: &Name,
    path: &Name,
    policy: &Policy,
) -> Result<Reply, Stop>
    ensures causes { HasCauses (F.faults files.old, 0, T.faults tpm.old, 0) (F.faults files.new, 0, T.faults tpm.new, 0) result }
    ensures told { (words : Option (Sequence (Sequence ℕ))) (m : Machine) → Tells (F.held files.old) (T.stored tpm.old) words m
        → IfOk result (λ reply. Gives (F.held files.new) (T.stored tpm.new) words reply (removal_line state.now path.now policy.now m)) }
    ensures stops { (words : Option (Sequence (Sequence ℕ))) (m : Machine) → Tells (F.held files.old) (T.stored tpm.old) words m
        → IfErr result (λ _. StandsAmong (F.held files.new) (T.stored tpm.new) (removal_line state.now path.now policy.now m).stops) }
{
    match ready(alloc, tpm, state) {
        Ok(None) => remove_all(alloc, files, tpm, path, policy),
        Ok(Some(answer)) => Ok(Reply::Refused(answer)),
        Err(stop) => Err(stop),
    }
}

/// Takes away the policy that the file at the path states: the index under its handle, where that has
/// the file's digest of a policy; then the object that holds the pin, where it is there; and then the
/// file. The TPM's state stands at the path `state`. It prints `removed`.
///
/// The answers for which it doesn't, the first whose cause holds:
///
/// | Answer | Cause |
/// |---|---|
/// | `NoPolicy` | no file stands at the path |
/// | `Limit`, `policy-bytes` | the file has this many bytes, more than 4,194,304 |
/// | `Malformed` | from this place on the file spells no policy |
/// | `Limit`, `state-bytes` | the TPM's state file has this many bytes, more than a state may have |
/// | `Malformed` | the TPM's state file spells no state, or one that breaks a rule |
///
/// It stops with `ReadFault`, `WriteFault`, `TpmFault` or `Memory`; then what it did so far stays.
pub fn remove_policy<F: Files, T: Tpm>(
    alloc: Global,
    files: &mut F,
    tpm: &mut T,
    state: &Name,
    path: &Name,
) -> Result<Reply, Stop>
    ensures causes { HasCauses (F.faults files.old, 0, T.faults tpm.old, 0) (F.faults files.new, 0, T.faults tpm.new, 0) result }
    ensures told { (words : Option (Sequence (Sequence ℕ))) (m : Machine) → Tells (F.held files.old) (T.stored tpm.old) words m
        → IfOk result (λ reply. Gives (F.held files.new) (T.stored tpm.new) words reply (remove_policy_line state.now path.now m)) }
    ensures stops { (words : Option (Sequence (Sequence ℕ))) (m : Machine) → Tells (F.held files.old) (T.stored tpm.old) words m
        → IfErr result (λ _. StandsAmong (F.held files.new) (T.stored tpm.new) (remove_policy_line state.now path.now m).stops) }
{
    match policy_at(alloc, files, path) {
        Ok(Ok(Some(policy))) => match remove_read(alloc, files, tpm, state, path, &policy) {
            Ok(reply) => Ok(reply),
            Err(stop) => Err(stop),
        },
        Ok(Ok(None)) => match no_policy(alloc, path.text()) {
            Ok(answer) => Ok(Reply::Refused(answer)),
            Err(_) => Err(Stop::Memory),
        },
        Ok(Err(answer)) => Ok(Reply::Refused(answer)),
        Err(stop) => Err(stop),
    }
}
