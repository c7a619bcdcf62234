//! The commands of a walk, each with what a client takes from its answer.
ghost use Rattle.std.specs.Prelude.{◌≡◌, ℕ, ◌<◌, ◌≤◌, ◌^◌, true, false, List, Option, Some, Ok, Err, IfOk, IfErr};
ghost use Rattle.pl_base.specs.Faults.{HasCause};
ghost use Rattle.policy_digest.specs.Policies.{IsPolicyHash};
ghost use Rattle.policy_file.specs.TokenText.{IsLiteral};
ghost use Rattle.tpm_device.specs.Stored.{Holds};
ghost use Rattle.tpm_model.specs.declared.parts.Parts.{Parts};
ghost use Rattle.tpm_model.specs.declared.sessions.Session.{Session};
ghost use Rattle.tpm_model.specs.Pcrs.{pcr_of};
ghost use Rattle.tpm_model.specs.Fits.{fits};
ghost use Rattle.tpm_model.specs.Respond.{respond};
ghost use Rattle.tpm_model.specs.Rules.{HasRules};
ghost use Rattle.tpm_model.specs.Sessions.{object_at};
ghost use Rattle.policy_session.specs.Answers.{is_answer as answers, is_refusal, Told};
ghost use Rattle.policy_session.specs.BoundUnseal.{IsNeverLiteral};
ghost use Rattle.policy_session.specs.Kept.{IsKept, Stores};
ghost use Rattle.policy_session.specs.LiteralUnseal.{opened_by, IsNeverForeseen};
ghost use Rattle.policy_session.specs.OpenSession.{IsOpen, with_open, closed, fresh_in, start_answer, start_leaves, bind_answer, bind_leaves};

use crate::UnsealError;
use crate::responses::{bound, ended, pcr_value, session_digest, started, unsealed};
use hash_bank::{Bank, Digest};
use pl_base::Small;
use policy_digest::mask_of_pcr;
use policy_file::Literal;
use std::alloc::Global;
use tpm_device::{ExecError, Tpm};
use tpm_model::{Command, Response};

/// Asks the device, which stays ready until a failure.
pub(crate) fn ask<T: Tpm>(
    alloc: Global,
    tpm: &mut T,
    command: &Command,
) -> Result<Response, UnsealError>
    requires { T.ready tpm.old ≡ true }
    ensures cause { HasCause (T.faults tpm.old) (T.faults tpm.new) (result ≡ Err UnsealError.Failed) }
    ensures never { IfErr result IsNeverForeseen }
    ensures unlike { IfErr result IsNeverLiteral }
    ensures outside { IfErr result (λ error. is_refusal error ≡ false) }
    ensures readiness { answers result ≡ true → T.ready tpm.new ≡ true }
    ensures fitting { IfOk result (λ answer. fits command.now answer ≡ true) }
    ensures told { (s : Parts) → T.live tpm.old ≡ Some s → T.ready tpm.old ≡ true
        → Told (Ok (respond command.now s).0) (respond command.now s).1 result (T.ready tpm.new) (T.live tpm.new) }
    ensures stored { (base s : Parts) → T.live tpm.old ≡ Some s → T.ready tpm.old ≡ true → T.stored tpm.old ≡ Some (Holds s)
        → IsKept base s → IsKept base (respond command.now s).1 → Stores base (respond command.now s).1 result (T.stored tpm.new) }
    ensures rules { (s : Parts) → T.live tpm.old ≡ Some s → HasRules s }
{
    match tpm.execute(alloc, command) {
        Ok(response) => Ok(response),
        Err(ExecError::Failed) => Err(UnsealError::Failed),
        Err(ExecError::Memory) => Err(UnsealError::Memory),
    }
}

/// Starts a session of the hash, and gives its handle.
pub(crate) fn start<T: Tpm>(alloc: Global, tpm: &mut T, hash: Bank) -> Result<u32, UnsealError>
    requires readiness { T.ready tpm.old ≡ true }
    requires hash { IsPolicyHash hash }
    ensures cause { HasCause (T.faults tpm.old) (T.faults tpm.new) (result ≡ Err UnsealError.Failed) }
    ensures never { IfErr result IsNeverForeseen }
    ensures readiness { answers result ≡ true → T.ready tpm.new ≡ true }
    ensures told { (s : Parts) → T.live tpm.old ≡ Some s → T.ready tpm.old ≡ true
        → Told (start_answer s) (start_leaves hash s) result (T.ready tpm.new) (T.live tpm.new) }
    ensures stored { (s : Parts) → T.live tpm.old ≡ Some s → T.ready tpm.old ≡ true → T.stored tpm.old ≡ Some (Holds s)
        → Stores s (start_leaves hash s) result (T.stored tpm.new) }
    ensures rules { (s : Parts) → T.live tpm.old ≡ Some s → HasRules s }
{
    let response = ask(alloc, tpm, &Command::StartSession { hash })?;
    started(hash, &response)
}

/// Binds the session, which was just started, to the value of the literal's PCR.
pub(crate) fn bind<T: Tpm>(
    alloc: Global,
    tpm: &mut T,
    literal: &Literal,
    session: u32,
) -> Result<(), UnsealError>
    requires readiness { T.ready tpm.old ≡ true }
    requires literal { IsLiteral literal.now }
    ensures cause { HasCause (T.faults tpm.old) (T.faults tpm.new) (result ≡ Err UnsealError.Failed) }
    ensures never { IfErr result IsNeverForeseen }
    ensures readiness { answers result ≡ true → T.ready tpm.new ≡ true }
    ensures told { (s : Parts) → IsOpen session (fresh_in literal.now.hash s) s → T.live tpm.old ≡ Some (with_open (fresh_in literal.now.hash s) s) → T.ready tpm.old ≡ true
        → let value = pcr_of s.banks s.pcrs literal.now.bank literal.now.pcr in
        Told (bind_answer literal.now.bank value) (with_open (bind_leaves literal.now value s) s) result (T.ready tpm.new) (T.live tpm.new) }
    ensures stored { (s : Parts) → IsOpen session (fresh_in literal.now.hash s) s → T.live tpm.old ≡ Some (with_open (fresh_in literal.now.hash s) s) → T.ready tpm.old ≡ true
        → T.stored tpm.old ≡ Some (Holds (with_open (fresh_in literal.now.hash s) s))
        → Stores s (with_open (bind_leaves literal.now (pcr_of s.banks s.pcrs literal.now.bank literal.now.pcr) s) s) result (T.stored tpm.new) }
{
    let pcrs = mask_of_pcr(literal.pcr);
    let response = ask(
        alloc,
        tpm,
        &Command::PolicyPcr {
            session,
            bank: literal.bank,
            pcrs,
        },
    )?;
    bound(session, literal.bank, pcrs, &response)
}

/// Reads the session's digest.
pub(crate) fn read_digest<T: Tpm>(
    alloc: Global,
    tpm: &mut T,
    session: u32,
) -> Result<Digest, UnsealError>
    requires { T.ready tpm.old ≡ true }
    ensures cause { HasCause (T.faults tpm.old) (T.faults tpm.new) (result ≡ Err UnsealError.Failed) }
    ensures never { IfErr result IsNeverForeseen }
    ensures readiness { answers result ≡ true → T.ready tpm.new ≡ true }
    ensures told { (s : Parts) (x : Session) → IsOpen session x s → T.live tpm.old ≡ Some (with_open x s) → T.ready tpm.old ≡ true
        → Told (Ok x.digest) (with_open x s) result (T.ready tpm.new) (T.live tpm.new) }
    ensures stored { (s : Parts) (x : Session) → IsOpen session x s → T.live tpm.old ≡ Some (with_open x s) → T.ready tpm.old ≡ true
        → T.stored tpm.old ≡ Some (Holds (with_open x s)) → Stores s (with_open x s) result (T.stored tpm.new) }
{
    let response = ask(alloc, tpm, &Command::PolicyGetDigest { session })?;
    session_digest(session, &response)
}

/// Reads the value of the literal's PCR, while a session is open.
pub(crate) fn read_value<T: Tpm>(
    alloc: Global,
    tpm: &mut T,
    literal: &Literal,
) -> Result<Digest, UnsealError>
    requires readiness { T.ready tpm.old ≡ true }
    requires literal { IsLiteral literal.now }
    ensures cause { HasCause (T.faults tpm.old) (T.faults tpm.new) (result ≡ Err UnsealError.Failed) }
    ensures never { IfErr result IsNeverForeseen }
    ensures readiness { answers result ≡ true → T.ready tpm.new ≡ true }
    ensures told { (s : Parts) (x : Session) (now : List ℕ) → pcr_of s.banks s.pcrs literal.now.bank literal.now.pcr ≡ Some now → T.live tpm.old ≡ Some (with_open x s) → T.ready tpm.old ≡ true
        → Told (Ok now) (with_open x s) result (T.ready tpm.new) (T.live tpm.new) }
    ensures stored { (s : Parts) (x : Session) (now : List ℕ) → pcr_of s.banks s.pcrs literal.now.bank literal.now.pcr ≡ Some now → IsKept s (with_open x s) → T.live tpm.old ≡ Some (with_open x s) → T.ready tpm.old ≡ true
        → T.stored tpm.old ≡ Some (Holds (with_open x s)) → Stores s (with_open x s) result (T.stored tpm.new) }
{
    let response = ask(
        alloc,
        tpm,
        &Command::PcrRead {
            bank: literal.bank,
            pcr: literal.pcr,
        },
    )?;
    pcr_value(literal.bank, literal.pcr, &response)
}

/// Unseals the object on the session, which looked at PCRs since the last extend.
pub(crate) fn unseal<T: Tpm>(
    alloc: Global,
    tpm: &mut T,
    session: u32,
    object: u32,
) -> Result<Small, UnsealError>
    requires { T.ready tpm.old ≡ true }
    ensures cause { HasCause (T.faults tpm.old) (T.faults tpm.new) (result ≡ Err UnsealError.Failed) }
    ensures never { IfErr result IsNeverForeseen }
    ensures readiness { answers result ≡ true → T.ready tpm.new ≡ true }
    ensures told { (s : Parts) (x : Session) → IsOpen session x s → x.noted ≡ Some s.update_counter → T.live tpm.old ≡ Some (with_open x s) → T.ready tpm.old ≡ true
        → Told (opened_by x.digest object (object_at object s.objects)) (with_open x s) result (T.ready tpm.new) (T.live tpm.new) }
    ensures stored { (s : Parts) (x : Session) → IsOpen session x s → x.noted ≡ Some s.update_counter → T.live tpm.old ≡ Some (with_open x s) → T.ready tpm.old ≡ true
        → T.stored tpm.old ≡ Some (Holds (with_open x s)) → Stores s (with_open x s) result (T.stored tpm.new) }
{
    let response = ask(
        alloc,
        tpm,
        &Command::Unseal {
            session,
            handle: object,
        },
    )?;
    unsealed(session, object, &response)
}

/// Ends the session.
pub(crate) fn flush<T: Tpm>(alloc: Global, tpm: &mut T, session: u32) -> Result<(), UnsealError>
    requires { T.ready tpm.old ≡ true }
    ensures cause { HasCause (T.faults tpm.old) (T.faults tpm.new) (result ≡ Err UnsealError.Failed) }
    ensures never { IfErr result IsNeverForeseen }
    ensures readiness { answers result ≡ true → T.ready tpm.new ≡ true }
    ensures told { (s : Parts) (x : Session) → IsOpen session x s → T.live tpm.old ≡ Some (with_open x s) → T.ready tpm.old ≡ true
        → Told (Ok tt) (closed s) result (T.ready tpm.new) (T.live tpm.new) }
    ensures stored { (s : Parts) (x : Session) → IsOpen session x s → T.live tpm.old ≡ Some (with_open x s) → T.ready tpm.old ≡ true
        → T.stored tpm.old ≡ Some (Holds (with_open x s)) → Stores s (closed s) result (T.stored tpm.new) }
{
    let response = ask(alloc, tpm, &Command::FlushSession { session })?;
    ended(session, &response)
}
