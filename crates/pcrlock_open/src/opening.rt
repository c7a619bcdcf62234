//! `unseal`: prints the key of a token, where the PCR has the token's value, or the policy's index the root of a table
//! that lists what the PCRs hold.
ghost use Rattle.std.specs.Prelude.{◌≡◌, ℕ, true, List as Sequence, Option, Some, IfOk, IfErr};
ghost use Rattle.std.specs.List.{Contains};
ghost use Rattle.hash_bank.specs.HashedString.{NoClash};
ghost use Rattle.policy_file.specs.TokenText.{IsLiteral, IsObject};
ghost use Rattle.policy_session.specs.Kept.{Kept};
ghost use Rattle.tpm_device.specs.Stored.{Holds};
ghost use Rattle.tpm_model.specs.declared.parts.Parts.{Parts};
ghost use Rattle.pcrlock_line.specs.Causes.{HasCauses};
ghost use Rattle.pcrlock_line.specs.Machine.{Machine, Live, Tells, machine};
ghost use Rattle.pcrlock_line.specs.Stopped.{StandsAmong};
ghost use Rattle.pl_base.specs.FileMap.{FileMap};
ghost use Rattle.pcrlock_line.specs.Outcome.{Gives};
ghost use Rattle.pcrlock_open.specs.Endings.{IsOpened};
ghost use Rattle.tpm_model.specs.World.{World};
ghost use Rattle.policy_file.specs.declared.token.Literal.{Literal as LiteralValue};
ghost use Rattle.pcrlock_line.specs.Outcome.{ending_of};
ghost use Rattle.pcrlock_open.specs.Headline.{IsEnrolled, IsSafe, OpensExactly};
ghost use Rattle.pcrlock_deeds.specs.PolicyAt.{policy_needed};
ghost use Rattle.pcrlock_open.specs.Unseal.{literal_line, policy_line, unseal_line};

use crate::answers::reply_to;
use crate::bound::open_bound;
use crate::token::{TokenRead, token_at};
use pcrlock_deeds::needed_policy;
use pcrlock_line::{Reply, Stop, ready};
use pl_base::{Files, Name};
use policy_file::Literal;
use policy_session::unseal_literal;
use std::alloc::Global;
use tpm_device::Tpm;

/// Opens the object on the ready device, where the PCR has the literal's value.
fn open_on<T: Tpm>(
    alloc: Global,
    tpm: &mut T,
    literal: &Literal,
    object: u32,
) -> Result<Reply, Stop>
    requires readiness { T.ready tpm.old ≡ true }
    requires literal { IsLiteral literal.now }
    requires object { IsObject object }
    ensures causes { HasCauses (0, 0, T.faults tpm.old, 0) (0, 0, T.faults tpm.new, 0) result }
    ensures told { (s : Parts) → T.live tpm.old ≡ Some s → T.stored tpm.old ≡ Some (Holds s)
        → IfOk result (λ reply. IsOpened literal.now object s reply (T.stored tpm.new)) }
    ensures stops { (s : Parts) → T.live tpm.old ≡ Some s → T.stored tpm.old ≡ Some (Holds s) → IfErr result (λ _. Kept s (T.stored tpm.new)) }
{
    let opened = unseal_literal(alloc, tpm, literal, object);
    reply_to(alloc, literal, &opened)
}

/// Makes the device ready, whose state stands at the path, and opens the object.
fn open<T: Tpm>(
    alloc: Global,
    tpm: &mut T,
    state: &Name,
    literal: &Literal,
    object: u32,
) -> Result<Reply, Stop>
    requires literal { IsLiteral literal.now }
    requires object { IsObject object }
    ensures causes { HasCauses (0, 0, T.faults tpm.old, 0) (0, 0, T.faults tpm.new, 0) result }
    ensures told { (held : Option FileMap) (words : Option (Sequence (Sequence ℕ))) (m : Machine) → Tells held (T.stored tpm.old) words m
        → NoClash (Contains (literal_line state.now literal.now object m).hashed)
        → IfOk result (λ reply. Gives held (T.stored tpm.new) words reply (literal_line state.now literal.now object m)) }
    ensures stops { (held : Option FileMap) (words : Option (Sequence (Sequence ℕ))) (m : Machine) → Tells held (T.stored tpm.old) words m
        → IfErr result (λ _. StandsAmong held (T.stored tpm.new) (literal_line state.now literal.now object m).stops) }
{
    match ready(alloc, tpm, state) {
        Ok(None) => open_on(alloc, tpm, literal, object),
        Ok(Some(answer)) => Ok(Reply::Refused(answer)),
        Err(stop) => Err(stop),
    }
}

/// Opens the object that is bound to the index of the policy whose file stands at the path.
fn open_under<F: Files, T: Tpm>(
    alloc: Global,
    files: &mut F,
    tpm: &mut T,
    state: &Name,
    policy: &Name,
    object: u32,
) -> Result<Reply, Stop>
    requires object { IsObject object }
    ensures causes { HasCauses (F.faults files.old, 0, T.faults tpm.old, 0) (F.faults files.new, 0, T.faults tpm.new, 0) result }
    ensures told { (words : Option (Sequence (Sequence ℕ))) (m : Machine) → Tells (F.held files.old) (T.stored tpm.old) words m
        → NoClash (Contains (policy_line state.now object (policy_needed m.files policy.now) m).hashed)
        → IfOk result (λ reply. Gives (F.held files.new) (T.stored tpm.new) words reply (policy_line state.now object (policy_needed m.files policy.now) m)) }
    ensures stops { (words : Option (Sequence (Sequence ℕ))) (m : Machine) → Tells (F.held files.old) (T.stored tpm.old) words m
        → IfErr result (λ _. StandsAmong (F.held files.new) (T.stored tpm.new) (policy_line state.now object (policy_needed m.files policy.now) m).stops) }
{
    match needed_policy(alloc, files, policy) {
        Ok(Ok(found)) => open_bound(alloc, tpm, state, &found, object),
        Ok(Err(answer)) => Ok(Reply::Refused(answer)),
        Err(stop) => Err(stop),
    }
}

/// What `unseal` does.
fn opened<F: Files, T: Tpm>(
    alloc: Global,
    files: &mut F,
    tpm: &mut T,
    state: &Name,
    path: &Name,
    policy: &Name,
) -> Result<Reply, Stop>
    ensures causes { HasCauses (F.faults files.old, 0, T.faults tpm.old, 0) (F.faults files.new, 0, T.faults tpm.new, 0) result }
    ensures told { (words : Option (Sequence (Sequence ℕ))) (m : Machine) → Tells (F.held files.old) (T.stored tpm.old) words m
        → NoClash (Contains (unseal_line state.now path.now policy.now m).hashed)
        → IfOk result (λ reply. Gives (F.held files.new) (T.stored tpm.new) words reply (unseal_line state.now path.now policy.now m)) }
    ensures stops { (words : Option (Sequence (Sequence ℕ))) (m : Machine) → Tells (F.held files.old) (T.stored tpm.old) words m
        → IfErr result (λ _. StandsAmong (F.held files.new) (T.stored tpm.new) (unseal_line state.now path.now policy.now m).stops) }
{
    match token_at(alloc, files, path) {
        Ok(TokenRead::Literal { object, literal }) => open(alloc, tpm, state, &literal, object),
        Ok(TokenRead::Bound(object)) => open_under(alloc, files, tpm, state, policy, object),
        Ok(TokenRead::Refused(answer)) => Ok(Reply::Refused(answer)),
        Err(stop) => Err(stop),
    }
}

/// Prints the key of the token at the path. A literal's token opens it where the PCR that the token names has the
/// token's value; a bound one where the index of the policy, whose file stands at `policy`, holds the root of one of
/// its tables, and each row of that table lists what its PCRs hold. The TPM's state stands at the path `state`.
///
/// The answers for which it doesn't, the first whose cause holds:
///
/// | Answer | Cause |
/// |---|---|
/// | `NoToken` | no file stands at the path |
/// | `Limit`, `token-bytes` | the file has this many bytes, more than 256 |
/// | `Malformed` | the file spells no token |
/// | `NoPolicy` | the token is bound, and no policy file stands at its path |
/// | `Limit`, `policy-bytes` | the token is bound, and the policy file has this many bytes, more than 4,194,304 |
/// | `Malformed` | the token is bound, and the policy file spells no policy |
/// | `Limit`, `state-bytes` | the TPM's state file has this many bytes, more than a state may have |
/// | `Malformed` | the TPM's state file spells no state, or one that breaks a rule |
///
/// then for a bound token those of `open_secret`, and for a literal's
///
/// | Answer | Cause |
/// |---|---|
/// | `SessionsFull` | 64 sessions are open (TPM 2.0 Library Part 3, TPM2_StartAuthSession) |
/// | `Limit`, `handles` | all numbers of sessions, 0x01000000, were used |
/// | `BankAbsent` | the TPM lacks the bank (TPM2_PolicyPCR) |
/// | `NotLiteral` | the PCR has this value, and another one opens the key |
/// | `NoObject` | no object has the token's handle (TPM2_Unseal) |
/// | `WrongBinding` | the policy of the PCR's value isn't the object's (TPM2_Unseal) |
///
/// The values are never compared, but the digests of policies are: that this is the same is told
/// where the strings that are hashed don't clash. The files stay as they are, and so does the TPM,
/// but for the number of a session that was opened and ended. It stops with `ReadFault`, `TpmFault`
/// or `Memory`; then the session may stay open.
pub fn unseal<F: Files, T: Tpm>(
    alloc: Global,
    files: &mut F,
    tpm: &mut T,
    state: &Name,
    path: &Name,
    policy: &Name,
) -> Result<Reply, Stop>
    ensures causes { HasCauses (F.faults files.old, 0, T.faults tpm.old, 0) (F.faults files.new, 0, T.faults tpm.new, 0) result }
    ensures told { (words : Option (Sequence (Sequence ℕ))) (m : Machine) → Tells (F.held files.old) (T.stored tpm.old) words m
        → NoClash (Contains (unseal_line state.now path.now policy.now m).hashed)
        → IfOk result (λ reply. Gives (F.held files.new) (T.stored tpm.new) words reply (unseal_line state.now path.now policy.now m)) }
    ensures stops { (words : Option (Sequence (Sequence ℕ))) (m : Machine) → Tells (F.held files.old) (T.stored tpm.old) words m
        → IfErr result (λ _. StandsAmong (F.held files.new) (T.stored tpm.new) (unseal_line state.now path.now policy.now m).stops) }
    // The key of an object of the world comes out exactly where its PCR holds the value that it was
    // sealed to.
    ensures headline { (words : Option (Sequence (Sequence ℕ))) (m : Live) (w : World) (handle : ℕ) (literal : LiteralValue) (key : Sequence ℕ)
        → Tells (F.held files.old) (T.stored tpm.old) words (machine m) → IsSafe m w state.now path.now policy.now → IsEnrolled m w path.now handle literal key
        → IfOk result (λ reply. OpensExactly (ending_of reply) key literal m) }
{
    opened(alloc, files, tpm, state, path, policy)
}
