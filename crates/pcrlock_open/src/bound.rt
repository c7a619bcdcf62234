//! Opening an object that is bound to an index, by a policy that was read.
ghost use Rattle.std.specs.Prelude.{◌≡◌, ◌+◌, ℕ, true, List as Sequence, drop, map, Option, Some, Ok, Err, IfOk, IfErr};
ghost use Rattle.std.specs.List.{Contains};
ghost use Rattle.hash_bank.specs.HashedString.{NoClash};
ghost use Rattle.nv_index.specs.declared.index.NvPublic.{NvPublic as Public};
ghost use Rattle.pl_base.specs.FileMap.{FileMap};
ghost use Rattle.policy_file.specs.PolicyText.{IsPolicy};
ghost use Rattle.policy_file.specs.TokenText.{IsObject};
ghost use Rattle.policy_session.specs.Kept.{Kept};
ghost use Rattle.tpm_device.specs.Stored.{Holds};
ghost use Rattle.tpm_model.specs.declared.parts.Parts.{Parts};
ghost use Rattle.tpm_model.specs.Rules.{HasRules};
ghost use Rattle.pcrlock_line.specs.Causes.{HasCauses};
ghost use Rattle.pcrlock_line.specs.Machine.{Machine, Tells};
ghost use Rattle.pcrlock_line.specs.Outcome.{Gives};
ghost use Rattle.pcrlock_answer.specs.declared.answer.Answer.TheVariants as said;
ghost use Rattle.pcrlock_line.specs.Stopped.{StandsAmong};
ghost use Rattle.pcrlock_open.specs.Bound.{bound_line, held_after, held_by, held_ending, held_opened, held_strings};
ghost use Rattle.pcrlock_open.specs.BoundEndings.{IsChoice, IsEnded, IsOpenedSo, IsOutdated};

use crate::answers::{secret_or_answer, secret_reply};
use hash_bank::Digest;
use pcrlock_answer::Answer;
use pcrlock_line::{Reply, Stop, ready};
use pl_base::{Name, Small};
use policy_file::Policy;
use policy_session::{IndexError, PrepareError, Prepared, prepare, read_index, unseal_bound};
use std::alloc::Global;
use tpm_device::Tpm;

/// The answer where the index holds the root of none of the tables.
fn outdated(content: &Small, newest: &Digest) -> Result<Answer, Stop>
    ensures told { IfOk result (λ answer. answer ≡ said.Outdated (drop 2 content.now) newest.now) }
    ensures cause { IfErr result (λ stop. stop ≡ Stop.Memory) }
{
    let [_, _, root @ ..] = content.as_slice() else {
        return Err(Stop::Memory);
    };
    match Digest::from_slice(root) {
        Some(index) => Ok(Answer::Outdated {
            index,
            file: *newest,
        }),
        None => Err(Stop::Memory),
    }
}

/// The answer where no walk was prepared.
fn unprepared(error: &PrepareError) -> Result<Answer, Stop>
    ensures told { IfOk result (λ answer. IsOutdated error.now answer) }
    ensures cause { IfErr result (λ stop. stop ≡ Stop.Memory) }
{
    match error {
        PrepareError::Outdated { content, newest } => outdated(content, newest),
        PrepareError::Memory => Err(Stop::Memory),
    }
}

/// The walk by the table whose root the index holds, or the answer where it holds that of none.
#[tactic(auto, using(crate::proofs::BoundEnds::chosen_walk, crate::proofs::BoundEnds::chosen_none))]
fn choose(alloc: Global, policy: &Policy, content: &Small) -> Result<Result<Prepared, Answer>, Stop>
    requires { IsPolicy policy.now }
    ensures told { IfOk result (IsChoice policy.now content.now) }
    ensures cause { IfErr result (λ stop. stop ≡ Stop.Memory) }
{
    match prepare(alloc, policy.tables.as_slice(), policy.handle, content) {
        Ok(prepared) => Ok(Ok(prepared)),
        Err(error) => match unprepared(&error) {
            Ok(answer) => Ok(Err(answer)),
            Err(stop) => Err(stop),
        },
    }
}

/// The secret of the object on the ready device, by the table whose root the policy's index holds.
fn secret_by<T: Tpm>(
    alloc: Global,
    tpm: &mut T,
    policy: &Policy,
    content: &Small,
    object: u32,
) -> Result<Result<Small, Answer>, Stop>
    requires readiness { T.ready tpm.old ≡ true }
    requires policy { IsPolicy policy.now }
    requires object { IsObject object }
    ensures causes { HasCauses (0, 0, T.faults tpm.old, 0) (0, 0, T.faults tpm.new, 0) result }
    ensures readiness { IfOk result (λ _. T.ready tpm.new ≡ true) }
    ensures told { (s : Parts) (public : Public) → T.live tpm.old ≡ Some s → T.stored tpm.old ≡ Some (Holds s) → HasRules s
        → held_by policy.now s ≡ Ok (public, content.now) → NoClash (Contains (held_strings policy.now s (held_by policy.now s)))
        → IfOk result (λ opened. IsOpenedSo (held_opened policy.now object s) (held_after policy.now s (held_by policy.now s)) opened (T.ready tpm.new) (T.live tpm.new) (T.stored tpm.new)) }
    ensures kept { (s : Parts) (public : Public) → T.live tpm.old ≡ Some s → T.stored tpm.old ≡ Some (Holds s) → HasRules s
        → held_by policy.now s ≡ Ok (public, content.now) → Kept s (T.stored tpm.new) }
{
    match choose(alloc, policy, content) {
        Ok(Ok(prepared)) => {
            let opened = unseal_bound(alloc, tpm, prepared, object);
            secret_or_answer(alloc, None, &opened)
        }
        Ok(Err(answer)) => Ok(Err(answer)),
        Err(stop) => Err(stop),
    }
}

/// The secret of the object that is bound to the policy's index, on the ready device, by the table whose root the index
/// holds. The object's handle is from 0x81000000 to 0x817fffff.
///
/// The answers for which there is none, the first whose cause holds:
///
/// | Answer | Cause |
/// |---|---|
/// | `NoIndex` | no index has the policy's handle (TPM 2.0 Library Part 3, TPM2_NV_ReadPublic) |
/// | `UnwrittenIndex` | it was never written (TPM2_NV_Read) |
/// | `Outdated` | it holds the root of none of the policy's tables |
/// | `SessionsFull` | 64 sessions are open (TPM2_StartAuthSession) |
/// | `Limit`, `handles` | all numbers of sessions, 0x01000000, were used |
/// | `BankAbsent` | the TPM lacks the table's bank (TPM2_PolicyPCR) |
/// | `NotForeseen` | a row of the table doesn't list what its PCRs hold: the first such row |
/// | `NoObject` | no object has the handle (TPM2_Unseal) |
/// | `WrongBinding` | the object's policy isn't that of the index (TPM2_Unseal) |
///
/// The values are never compared, but the digests of policies are: that this is the same is told where the strings that
/// are hashed don't clash. The TPM stays as it is, but for the number of a session that was opened and ended. It stops
/// with `TpmFault` or `Memory`; then the session may stay open.
pub fn open_secret<T: Tpm>(
    alloc: Global,
    tpm: &mut T,
    policy: &Policy,
    object: u32,
) -> Result<Result<Small, Answer>, Stop>
    requires readiness { T.ready tpm.old ≡ true }
    requires policy { IsPolicy policy.now }
    requires object { IsObject object }
    ensures causes { HasCauses (0, 0, T.faults tpm.old, 0) (0, 0, T.faults tpm.new, 0) result }
    // A device that answered goes on, also where it tells nothing.
    ensures readiness { IfOk result (λ _. T.ready tpm.new ≡ true) }
    ensures told { (s : Parts) → T.live tpm.old ≡ Some s → T.stored tpm.old ≡ Some (Holds s)
        → NoClash (Contains (held_strings policy.now s (held_by policy.now s)))
        → IfOk result (λ opened. IsOpenedSo (held_opened policy.now object s) (held_after policy.now s (held_by policy.now s)) opened (T.ready tpm.new) (T.live tpm.new) (T.stored tpm.new)) }
    // Also after a stop, and where strings clash, what is stored differs at most in sessions.
    ensures kept { (s : Parts) → T.live tpm.old ≡ Some s → T.stored tpm.old ≡ Some (Holds s) → Kept s (T.stored tpm.new) }
{
    match read_index(alloc, tpm, policy.handle) {
        Ok(held) => secret_by(alloc, tpm, policy, &held.1, object),
        Err(IndexError::NoIndex) => Ok(Err(Answer::NoIndex(policy.handle))),
        Err(IndexError::Unwritten) => Ok(Err(Answer::UnwrittenIndex(policy.handle))),
        Err(IndexError::Failed) => Err(Stop::TpmFault),
        Err(IndexError::Memory) => Err(Stop::Memory),
    }
}

/// Prints the secret of the object that is bound to the policy's index, on the ready device.
fn open_printed<T: Tpm>(
    alloc: Global,
    tpm: &mut T,
    policy: &Policy,
    object: u32,
) -> Result<Reply, Stop>
    requires readiness { T.ready tpm.old ≡ true }
    requires policy { IsPolicy policy.now }
    requires object { IsObject object }
    ensures causes { HasCauses (0, 0, T.faults tpm.old, 0) (0, 0, T.faults tpm.new, 0) result }
    ensures told { (s : Parts) → T.live tpm.old ≡ Some s → T.stored tpm.old ≡ Some (Holds s)
        → NoClash (Contains (held_strings policy.now s (held_by policy.now s)))
        → IfOk result (λ reply. IsEnded (held_ending policy.now object s) (held_after policy.now s (held_by policy.now s)) reply (T.stored tpm.new)) }
    ensures stops { (s : Parts) → T.live tpm.old ≡ Some s → T.stored tpm.old ≡ Some (Holds s) → IfErr result (λ _. Kept s (T.stored tpm.new)) }
{
    match open_secret(alloc, tpm, policy, object) {
        Ok(opened) => secret_reply(alloc, opened),
        Err(stop) => Err(stop),
    }
}

/// Makes the device ready, whose state stands at the path, and prints the secret of the object, as `open_secret` gives
/// it. Before its answers stand those for a state file that holds no state: `Limit`, `state-bytes`, where it has this
/// many bytes, more than a state may have; and `Malformed`, where it spells no state, or one that breaks a rule.
pub fn open_bound<T: Tpm>(
    alloc: Global,
    tpm: &mut T,
    state: &Name,
    policy: &Policy,
    object: u32,
) -> Result<Reply, Stop>
    requires policy { IsPolicy policy.now }
    requires object { IsObject object }
    ensures causes { HasCauses (0, 0, T.faults tpm.old, 0) (0, 0, T.faults tpm.new, 0) result }
    ensures told { (held : Option FileMap) (words : Option (Sequence (Sequence ℕ))) (m : Machine) → Tells held (T.stored tpm.old) words m
        → NoClash (Contains (bound_line state.now policy.now object m).hashed)
        → IfOk result (λ reply. Gives held (T.stored tpm.new) words reply (bound_line state.now policy.now object m)) }
    ensures stops { (held : Option FileMap) (words : Option (Sequence (Sequence ℕ))) (m : Machine) → Tells held (T.stored tpm.old) words m
        → IfErr result (λ _. StandsAmong held (T.stored tpm.new) (bound_line state.now policy.now object m).stops) }
{
    match ready(alloc, tpm, state) {
        Ok(None) => open_printed(alloc, tpm, policy, object),
        Ok(Some(answer)) => Ok(Reply::Refused(answer)),
        Err(stop) => Err(stop),
    }
}
