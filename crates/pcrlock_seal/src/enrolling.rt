//! `enroll`: a key is sealed to the present value of a PCR, or to the index of the policy in force.
ghost use Rattle.std.specs.Prelude.{◌≡◌, ◌≤◌, ◌∷◌, [], ℕ, List as Sequence, true, Some, length, IfOk, IfErr, IfSome};
ghost use Rattle.hash_bank.specs.Hash.{size_in};
ghost use Rattle.tpm_model.specs.declared.parts.Parts.{Parts};
ghost use Rattle.policy_digest.specs.Policies.{IsPolicyHash};
ghost use Rattle.policy_file.specs.TokenText.{IsObject};
ghost use Rattle.tpm_device.specs.Stored.{Stored, Holds};
ghost use Rattle.std.specs.Prelude.{Option, None, ◌^◌, ◌<◌};
ghost use Rattle.std.specs.FinMap.{insert};
ghost use Rattle.pl_base.specs.FileMap.{FileMap};
ghost use Rattle.policy_file.specs.TokenText.{token_text};
ghost use Rattle.pcrlock_answer.specs.Texts.{enrolled_text};
ghost use Rattle.tpm_model.specs.World.{World};
ghost use Rattle.tpm_model.specs.Tied.{Tied};
ghost use Rattle.pcrlock_seal.specs.EnrollWorld.{enroll_state, enroll_world};
ghost use Rattle.pcrlock_line.specs.Stopped.{StandsAmong};
ghost use Rattle.tpm_model.specs.ObjectRules.{keeps_object_order};
ghost use Rattle.std.specs.Prelude.{◌⊎◌};
ghost use Rattle.pcrlock_line.specs.Machine.{Machine, Live, Tells, machine};
ghost use Rattle.pcrlock_line.specs.Outcome.{Gives, ending_of};
ghost use Rattle.pcrlock_line.specs.Causes.{HasCauses};
ghost use Rattle.pcrlock_seal.specs.Enroll.{literal_hash as hash_of_literal, sealed_handle as handle_in, seal_refusal as refusal_in, token_written, key_sealed, with_key, bound_line, enrolled_line, enroll_bound_line, enroll_line};
ghost use Rattle.pcrlock_line.specs.Begun.{by_device};
ghost use Rattle.pcrlock_seal.specs.BoundWorld.{SealsToFiled};
ghost use Rattle.pcrlock_seal.specs.Condition.{IsCondition, condition_token};

use crate::condition::Condition;
use hash_bank::Bank;
use pcrlock_answer::{Answer, enrolled_line, limit};
use pcrlock_deeds::needed_policy;
use pcrlock_line::{Reply, Stop, ask, draw, present_value, ready, replace_file};
use pl_base::{Entropy, Files, Memory, Name, Small};
use policy_file::{Literal, Policy, write_token};
use std::alloc::Global;
use tpm_device::Tpm;
use tpm_model::{Command, Refusal, Response};

/// The hash of a literal of the bank: SHA-384 for the two longest banks, else SHA-256.
fn literal_hash(bank: Bank) -> Bank
    ensures value { result ≡ hash_of_literal bank }
    ensures policy { IsPolicyHash result }
{
    match bank {
        Bank::Sha1 | Bank::Sha256 => Bank::Sha256,
        Bank::Sha384 | Bank::Sha512 => Bank::Sha384,
    }
}

/// The handle of a sealed object.
fn sealed_handle(response: &Response) -> Option<u32>
    ensures value { result ≡ handle_in response.now }
    ensures range { IfSome result IsObject }
{
    match response {
        Response::Object(handle) if *handle >= 0x8100_0000 && *handle <= 0x817F_FFFF => Some(
            *handle,
        ),
        _ => None,
    }
}

/// Why nothing was sealed.
fn seal_refusal(alloc: Global, response: &Response) -> Result<Answer, Memory>
    ensures { IfOk result (λ answer. answer ≡ refusal_in response.now) }
{
    match response {
        Response::Refused(Refusal::HandlesEnd) => limit(alloc, "handles", 0x0080_0000),
        _ => limit(alloc, "objects", 65),
    }
}

/// Writes the token of an object, and gives the line that names its handle.
fn write_object<F: Files>(
    alloc: Global,
    files: &mut F,
    path: &Name,
    condition: &Condition,
    object: u32,
) -> Result<Vec<u8>, Stop>
    requires condition { IsCondition condition.now }
    requires object { IsObject object }
    ensures causes { HasCauses (F.faults files.old, 0, 0, 0) (F.faults files.new, 0, 0, 0) result }
    ensures told { (held : FileMap) → F.held files.old ≡ Some held
        → IfOk result (λ line. (line.items ≡ enrolled_text object) × (F.held files.new ≡ Some (insert held path.now (token_text (condition_token condition.now object))))) }
    ensures stops { (held : FileMap) → F.held files.old ≡ Some held
        → IfErr result (λ _. (F.held files.new ≡ Some held) ⊎ (F.held files.new ≡ Some (insert held path.now (token_text (condition_token condition.now object))))) }
{
    let Ok(bytes) = write_token(alloc, &condition.token(object)) else {
        return Err(Stop::Memory);
    };
    let Ok(line) = enrolled_line(alloc, object) else {
        return Err(Stop::Memory);
    };
    match replace_file(alloc, files, path.text(), bytes.as_slice()) {
        Ok(()) => Ok(line),
        Err(stop) => Err(stop),
    }
}

/// Seals the key to the policy of the condition and writes the token.
fn seal_key<F: Files, T: Tpm>(
    alloc: Global,
    files: &mut F,
    tpm: &mut T,
    path: &Name,
    condition: &Condition,
    key: &Small,
) -> Result<Reply, Stop>
    requires readiness { T.ready tpm.old ≡ true }
    requires condition { IsCondition condition.now }
    ensures causes { HasCauses (F.faults files.old, 0, T.faults tpm.old, 0) (F.faults files.new, 0, T.faults tpm.new, 0) result }
    ensures told { (draws : Option (Sequence (Sequence ℕ))) (m : Live) → Tells (F.held files.old) (T.stored tpm.old) draws (machine m) → T.live tpm.old ≡ Some m.state
        → IfOk result (λ reply. Gives (F.held files.new) (T.stored tpm.new) draws reply (key_sealed path.now condition.now key.now m)) }
    ensures stops { (draws : Option (Sequence (Sequence ℕ))) (m : Live) → Tells (F.held files.old) (T.stored tpm.old) draws (machine m) → T.live tpm.old ≡ Some m.state
        → IfErr result (λ _. StandsAmong (F.held files.new) (T.stored tpm.new) (key_sealed path.now condition.now key.now m).stops) }
{
    let command = Command::Seal {
        policy: condition.policy(),
        secret: *key,
    };
    match ask(alloc, tpm, &command) {
        Ok(response) => answered(alloc, files, path, condition, &response),
        Err(stop) => Err(stop),
    }
}

/// Writes the token where the key was sealed, and answers why not else.
fn answered<F: Files>(
    alloc: Global,
    files: &mut F,
    path: &Name,
    condition: &Condition,
    response: &Response,
) -> Result<Reply, Stop>
    requires { IsCondition condition.now }
    ensures causes { HasCauses (F.faults files.old, 0, 0, 0) (F.faults files.new, 0, 0, 0) result }
    ensures told { (stored : Option Stored) (draws : Option (Sequence (Sequence ℕ))) (s : Parts) (m : Live) → F.held files.old ≡ Some m.files → stored ≡ Some (Holds s) → draws ≡ Some m.draws
        → IfOk result (λ reply. Gives (F.held files.new) stored draws reply (token_written path.now condition.now (handle_in response.now) response.now s m)) }
    ensures stops { (stored : Option Stored) (s : Parts) (m : Live) → F.held files.old ≡ Some m.files → stored ≡ Some (Holds s)
        → IfErr result (λ _. StandsAmong (F.held files.new) stored (token_written path.now condition.now (handle_in response.now) response.now s m).stops) }
{
    match sealed_handle(response) {
        Some(handle) => match write_object(alloc, files, path, condition, handle) {
            Ok(line) => Ok(Reply::Fine(line)),
            Err(stop) => Err(stop),
        },
        None => match seal_refusal(alloc, response) {
            Ok(answer) => Ok(Reply::Refused(answer)),
            Err(_) => Err(Stop::Memory),
        },
    }
}

/// Enrolls the key, or a drawn one, under the present value of the PCR, and writes its token to the
/// path. The TPM's state stands at the path `state`.
#[tactic(auto, using(crate::proofs::Enrolled::enroll_tied))]
pub fn enroll<F: Files, T: Tpm, E: Entropy>(
    alloc: Global,
    files: &mut F,
    tpm: &mut T,
    entropy: &mut E,
    state: &Name,
    path: &Name,
    key: Option<Small>,
    pcr: u8,
    bank: Bank,
) -> Result<Reply, Stop>
    requires { pcr ≤ 23 }
    ensures causes { HasCauses (F.faults files.old, E.faults entropy.old, T.faults tpm.old, 0) (F.faults files.new, E.faults entropy.new, T.faults tpm.new, 0) result }
    ensures told { (m : Machine) → Tells (F.held files.old) (T.stored tpm.old) (E.draws entropy.old) m
        → IfOk result (λ reply. Gives (F.held files.new) (T.stored tpm.new) (E.draws entropy.new) reply (enroll_line state.now path.now pcr bank key m)) }
    ensures stops { (m : Machine) → Tells (F.held files.old) (T.stored tpm.old) (E.draws entropy.old) m
        → IfErr result (λ _. StandsAmong (F.held files.new) (T.stored tpm.new) (enroll_line state.now path.now pcr bank key m).stops) }
    // A world that is tied to the state before is tied, with the object, to the state afterwards.
    ensures tied { (m : Live) (w : World) → keeps_object_order m.state ≡ true → Tied m.state w → Tied (enroll_state pcr bank key m) (enroll_world pcr bank key m w) }
{
    match ready(alloc, tpm, state) {
        Ok(None) => with_device(alloc, files, tpm, entropy, path, key, pcr, bank),
        Ok(Some(answer)) => Ok(Reply::Refused(answer)),
        Err(stop) => Err(stop),
    }
}

/// Enrolls with a device that is ready.
fn with_device<F: Files, T: Tpm, E: Entropy>(
    alloc: Global,
    files: &mut F,
    tpm: &mut T,
    entropy: &mut E,
    path: &Name,
    key: Option<Small>,
    pcr: u8,
    bank: Bank,
) -> Result<Reply, Stop>
    requires readiness { T.ready tpm.old ≡ true }
    requires number { pcr ≤ 23 }
    ensures causes { HasCauses (F.faults files.old, E.faults entropy.old, T.faults tpm.old, 0) (F.faults files.new, E.faults entropy.new, T.faults tpm.new, 0) result }
    ensures told { (m : Live) → Tells (F.held files.old) (T.stored tpm.old) (E.draws entropy.old) (machine m) → T.live tpm.old ≡ Some m.state
        → IfOk result (λ reply. Gives (F.held files.new) (T.stored tpm.new) (E.draws entropy.new) reply (enrolled_line path.now pcr bank key m)) }
    ensures stops { (m : Live) → Tells (F.held files.old) (T.stored tpm.old) (E.draws entropy.old) (machine m) → T.live tpm.old ≡ Some m.state
        → IfErr result (λ _. StandsAmong (F.held files.new) (T.stored tpm.new) (enrolled_line path.now pcr bank key m).stops) }
{
    match present_value(alloc, tpm, bank, pcr) {
        Ok(Some(value)) => {
            let literal = Literal {
                hash: literal_hash(bank),
                bank,
                pcr,
                value,
            };
            seal_under(
                alloc,
                files,
                tpm,
                entropy,
                path,
                key,
                &Condition::Value(literal),
            )
        }
        Ok(None) => Ok(Reply::Refused(Answer::BankAbsent(bank))),
        Err(stop) => Err(stop),
    }
}

/// Seals the key, or a drawn one, under the condition.
fn seal_under<F: Files, T: Tpm, E: Entropy>(
    alloc: Global,
    files: &mut F,
    tpm: &mut T,
    entropy: &mut E,
    path: &Name,
    key: Option<Small>,
    condition: &Condition,
) -> Result<Reply, Stop>
    requires readiness { T.ready tpm.old ≡ true }
    requires condition { IsCondition condition.now }
    ensures causes { HasCauses (F.faults files.old, E.faults entropy.old, T.faults tpm.old, 0) (F.faults files.new, E.faults entropy.new, T.faults tpm.new, 0) result }
    ensures told { (m : Live) → Tells (F.held files.old) (T.stored tpm.old) (E.draws entropy.old) (machine m) → T.live tpm.old ≡ Some m.state
        → IfOk result (λ reply. Gives (F.held files.new) (T.stored tpm.new) (E.draws entropy.new) reply (with_key path.now condition.now key m.draws m)) }
    ensures stops { (m : Live) → Tells (F.held files.old) (T.stored tpm.old) (E.draws entropy.old) (machine m) → T.live tpm.old ≡ Some m.state
        → IfErr result (λ _. StandsAmong (F.held files.new) (T.stored tpm.new) (with_key path.now condition.now key m.draws m).stops) }
{
    match key {
        Some(key) => seal_key(alloc, files, tpm, path, condition, &key),
        None => seal_drawn(alloc, files, tpm, entropy, path, condition),
    }
}

/// Seals a drawn key.
fn seal_drawn<F: Files, T: Tpm, E: Entropy>(
    alloc: Global,
    files: &mut F,
    tpm: &mut T,
    entropy: &mut E,
    path: &Name,
    condition: &Condition,
) -> Result<Reply, Stop>
    requires readiness { T.ready tpm.old ≡ true }
    requires condition { IsCondition condition.now }
    ensures causes { HasCauses (F.faults files.old, E.faults entropy.old, T.faults tpm.old, 0) (F.faults files.new, E.faults entropy.new, T.faults tpm.new, 0) result }
    ensures told { (m : Live) → Tells (F.held files.old) (T.stored tpm.old) (E.draws entropy.old) (machine m) → T.live tpm.old ≡ Some m.state
        → IfOk result (λ reply. Gives (F.held files.new) (T.stored tpm.new) (E.draws entropy.new) reply (with_key path.now condition.now None m.draws m)) }
    ensures stops { (m : Live) → Tells (F.held files.old) (T.stored tpm.old) (E.draws entropy.old) (machine m) → T.live tpm.old ≡ Some m.state
        → IfErr result (λ _. StandsAmong (F.held files.new) (T.stored tpm.new) (with_key path.now condition.now None m.draws m).stops) }
{
    match draw(entropy) {
        Ok(word) => match Small::from_slice(&word) {
            Some(key) => seal_key(alloc, files, tpm, path, condition, &key),
            None => Err(Stop::Memory),
        },
        Err(stop) => Err(stop),
    }
}

/// Enrolls with the policy that was read, over a device that is made ready.
fn enroll_under<F: Files, T: Tpm, E: Entropy>(
    alloc: Global,
    files: &mut F,
    tpm: &mut T,
    entropy: &mut E,
    state: &Name,
    path: &Name,
    key: Option<Small>,
    policy: &Policy,
) -> Result<Reply, Stop>
    ensures causes { HasCauses (F.faults files.old, E.faults entropy.old, T.faults tpm.old, 0) (F.faults files.new, E.faults entropy.new, T.faults tpm.new, 0) result }
    ensures told { (m : Machine) → Tells (F.held files.old) (T.stored tpm.old) (E.draws entropy.old) m
        → IfOk result (λ reply. Gives (F.held files.new) (T.stored tpm.new) (E.draws entropy.new) reply (by_device m.device state.now m (bound_line path.now policy.now key))) }
    ensures stops { (m : Machine) → Tells (F.held files.old) (T.stored tpm.old) (E.draws entropy.old) m
        → IfErr result (λ _. StandsAmong (F.held files.new) (T.stored tpm.new) (by_device m.device state.now m (bound_line path.now policy.now key)).stops) }
{
    match ready(alloc, tpm, state) {
        Ok(None) => {
            let condition = Condition::of_policy(policy);
            seal_under(alloc, files, tpm, entropy, path, key, &condition)
        }
        Ok(Some(answer)) => Ok(Reply::Refused(answer)),
        Err(stop) => Err(stop),
    }
}

/// Enrolls the key, or a drawn one, under the policy whose file stands at the path `policy`, and writes its token to
/// `path`. The object opens by the table whose root the policy's index holds, whichever that is then (TPM 2.0 Library
/// Part 3, TPM2_PolicyAuthorizeNV); no look is taken at the index, which has to be written only when the key is opened.
/// The TPM's state stands at the path `state`.
///
/// The answers for which it doesn't, the first whose cause holds:
///
/// | Answer | Cause |
/// |---|---|
/// | `NoPolicy` | no policy file stands at its path |
/// | `Limit`, `policy-bytes` | the policy file has this many bytes, more than 4,194,304 |
/// | `Malformed` | the policy file spells no policy |
/// | `Limit`, `state-bytes` | the TPM's state file has this many bytes, more than a state may have |
/// | `Malformed` | the TPM's state file spells no state, or one that breaks a rule |
/// | `Limit`, `objects` | the TPM holds 64 objects already: this is the 65th (TPM2_Create) |
/// | `Limit`, `handles` | all numbers of objects, 0x00800000, were used |
///
/// It stops with `ReadFault`, `TpmFault`, `EntropyFault`, `WriteFault` or `Memory`. An object whose token wasn't written
/// stays.
#[tactic(auto, using(crate::proofs::BoundWorld::enroll_bound_seals))]
pub fn enroll_bound<F: Files, T: Tpm, E: Entropy>(
    alloc: Global,
    files: &mut F,
    tpm: &mut T,
    entropy: &mut E,
    state: &Name,
    path: &Name,
    policy: &Name,
    key: Option<Small>,
) -> Result<Reply, Stop>
    ensures causes { HasCauses (F.faults files.old, E.faults entropy.old, T.faults tpm.old, 0) (F.faults files.new, E.faults entropy.new, T.faults tpm.new, 0) result }
    ensures told { (m : Machine) → Tells (F.held files.old) (T.stored tpm.old) (E.draws entropy.old) m
        → IfOk result (λ reply. Gives (F.held files.new) (T.stored tpm.new) (E.draws entropy.new) reply (enroll_bound_line state.now path.now policy.now key m)) }
    ensures stops { (m : Machine) → Tells (F.held files.old) (T.stored tpm.old) (E.draws entropy.old) m
        → IfErr result (λ _. StandsAmong (F.held files.new) (T.stored tpm.new) (enroll_bound_line state.now path.now policy.now key m).stops) }
    // Where the policy file states what the world has as filed, the key is bound to the index and the pin that are filed.
    ensures sealed { (m : Live) (w : World) → SealsToFiled state.now path.now policy.now key m w }
{
    match needed_policy(alloc, files, policy) {
        Ok(Ok(found)) => enroll_under(alloc, files, tpm, entropy, state, path, key, &found),
        Ok(Err(answer)) => Ok(Reply::Refused(answer)),
        Err(stop) => Err(stop),
    }
}
