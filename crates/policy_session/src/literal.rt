//! Opening an object that is sealed to one value of one PCR.
ghost use Rattle.std.specs.Prelude.{◌≡◌, ℕ, true, List, Some, Err, IfErr};
ghost use Rattle.pl_base.specs.Faults.{HasCause};
ghost use Rattle.policy_file.specs.TokenText.{IsLiteral, IsObject};
ghost use Rattle.tpm_device.specs.Stored.{Holds};
ghost use Rattle.tpm_model.specs.declared.parts.Parts.{Parts};
ghost use Rattle.tpm_model.specs.Pcrs.{pcr_of};
ghost use Rattle.tpm_model.specs.Rules.{HasRules};
ghost use Rattle.policy_session.specs.Answers.{is_answer as answers, Told};
ghost use Rattle.policy_session.specs.Kept.{Stores};
ghost use Rattle.tpm_model.specs.Binding.{literal_policy};
ghost use Rattle.policy_session.specs.LiteralUnseal.{opened, opened_at, after_unseal, IsNeverForeseen};
ghost use Rattle.policy_session.specs.OpenSession.{IsOpen, with_open, fresh_in, bound_in, bind_leaves, compare_answer};

use crate::UnsealError;
use crate::steps::{bind, flush, read_digest, read_value, start, unseal};
use hash_bank::Digest;
use pl_base::Small;
use policy_digest::{mask_of_pcr, policy_pcr_in, values_digest_in};
use policy_file::Literal;
use std::alloc::Global;
use tpm_device::Tpm;

/// The policy that the literal's value meets.
#[tactic(auto, using(crate::proofs::OneValue::one_value))]
fn policy_of(literal: &Literal) -> Digest
    requires { IsLiteral literal.now }
    ensures { result ≡ literal_policy literal.now.hash literal.now.bank literal.now.pcr literal.now.value }
{
    let zeros = Digest::zeros(literal.hash);
    let values = values_digest_in(literal.hash, &[literal.value]);
    policy_pcr_in(
        literal.hash,
        &zeros,
        literal.bank,
        mask_of_pcr(literal.pcr),
        &values,
    )
}

/// Compares the policy of the session, which was bound to the PCR's value, with that of the
/// literal's value. Where they differ it tells the PCR's value.
fn compare<T: Tpm>(
    alloc: Global,
    tpm: &mut T,
    literal: &Literal,
    session: u32,
) -> Result<(), UnsealError>
    requires readiness { T.ready tpm.old ≡ true }
    requires literal { IsLiteral literal.now }
    ensures cause { HasCause (T.faults tpm.old) (T.faults tpm.new) (result ≡ Err UnsealError.Failed) }
    ensures never { IfErr result IsNeverForeseen }
    ensures readiness { answers result ≡ true → T.ready tpm.new ≡ true }
    ensures told { (s : Parts) (now : List ℕ) → pcr_of s.banks s.pcrs literal.now.bank literal.now.pcr ≡ Some now → IsOpen session (bound_in literal.now now s) s
        → T.live tpm.old ≡ Some (with_open (bound_in literal.now now s) s) → T.ready tpm.old ≡ true
        → Told (compare_answer literal.now now) (with_open (bound_in literal.now now s) s) result (T.ready tpm.new) (T.live tpm.new) }
    ensures stored { (s : Parts) (now : List ℕ) → pcr_of s.banks s.pcrs literal.now.bank literal.now.pcr ≡ Some now → IsOpen session (bound_in literal.now now s) s
        → T.live tpm.old ≡ Some (with_open (bound_in literal.now now s) s) → T.ready tpm.old ≡ true
        → T.stored tpm.old ≡ Some (Holds (with_open (bound_in literal.now now s) s)) → Stores s (with_open (bound_in literal.now now s) s) result (T.stored tpm.new) }
{
    let digest = read_digest(alloc, tpm, session)?;
    let policy = policy_of(literal);
    if digest.as_slice() == policy.as_slice() {
        return Ok(());
    }
    let now = read_value(alloc, tpm, literal)?;
    Err(UnsealError::NotLiteral { now })
}

/// The commands on a session that was just started, up to Unseal.
fn walk<T: Tpm>(
    alloc: Global,
    tpm: &mut T,
    literal: &Literal,
    session: u32,
    object: u32,
) -> Result<Small, UnsealError>
    requires readiness { T.ready tpm.old ≡ true }
    requires literal { IsLiteral literal.now }
    ensures cause { HasCause (T.faults tpm.old) (T.faults tpm.new) (result ≡ Err UnsealError.Failed) }
    ensures never { IfErr result IsNeverForeseen }
    ensures readiness { answers result ≡ true → T.ready tpm.new ≡ true }
    ensures told { (s : Parts) → IsOpen session (fresh_in literal.now.hash s) s → T.live tpm.old ≡ Some (with_open (fresh_in literal.now.hash s) s) → T.ready tpm.old ≡ true
        → let value = pcr_of s.banks s.pcrs literal.now.bank literal.now.pcr in
        Told (opened_at value literal.now object s) (with_open (bind_leaves literal.now value s) s) result (T.ready tpm.new) (T.live tpm.new) }
    ensures stored { (s : Parts) → IsOpen session (fresh_in literal.now.hash s) s → T.live tpm.old ≡ Some (with_open (fresh_in literal.now.hash s) s) → T.ready tpm.old ≡ true
        → T.stored tpm.old ≡ Some (Holds (with_open (fresh_in literal.now.hash s) s))
        → Stores s (with_open (bind_leaves literal.now (pcr_of s.banks s.pcrs literal.now.bank literal.now.pcr) s) s) result (T.stored tpm.new) }
{
    bind(alloc, tpm, literal, session)?;
    compare(alloc, tpm, literal, session)?;
    unseal(alloc, tpm, session, object)
}

/// Whether the walk ended with the secret or a refusal.
fn is_answer(opened: &Result<Small, UnsealError>) -> bool
    ensures { result ≡ answers opened.now }
{
    !matches!(opened, Err(UnsealError::Failed) | Err(UnsealError::Memory))
}

/// Opens an object that is sealed to one value of one PCR (TPM 2.0 Library Part 1, "Policy
/// Sessions"): starts a session of the literal's hash, binds it to the PCR's present value, and
/// asks for the object's secret where the session's digest is that of the literal's value. The
/// digests are compared, and never the values.
///
/// The refusals are, in this order: `SessionsFull`, `HandlesEnd`, `BankAbsent`, `NotLiteral`,
/// `NoObject` and `WrongBinding`; `NotForeseen` never comes. After the secret or a refusal the open
/// sessions are those from before. After `Failed` and `Memory` the session may stay open; nothing
/// else has changed. The literal's PCR is at most 23, and the object's handle is from 0x81000000 to
/// 0x817fffff.
pub fn unseal_literal<T: Tpm>(
    alloc: Global,
    tpm: &mut T,
    literal: &Literal,
    object: u32,
) -> Result<Small, UnsealError>
    requires readiness { T.ready tpm.old ≡ true }
    requires literal { IsLiteral literal.now }
    requires object { IsObject object }
    ensures cause { HasCause (T.faults tpm.old) (T.faults tpm.new) (result ≡ Err UnsealError.Failed) }
    ensures never { IfErr result IsNeverForeseen }
    ensures readiness { answers result ≡ true → T.ready tpm.new ≡ true }
    ensures told { (s : Parts) → T.live tpm.old ≡ Some s → Told (opened literal.now object s) (after_unseal s) result (T.ready tpm.new) (T.live tpm.new) }
    ensures rules { (s : Parts) → T.live tpm.old ≡ Some s → HasRules (after_unseal s) }
    ensures stored { (s : Parts) → T.live tpm.old ≡ Some s → T.stored tpm.old ≡ Some (Holds s) → Stores s (after_unseal s) result (T.stored tpm.new) }
{
    let session = start(alloc, tpm, literal.hash)?;
    let opened = walk(alloc, tpm, literal, session, object);
    if !is_answer(&opened) {
        return opened;
    }
    flush(alloc, tpm, session)?;
    opened
}
