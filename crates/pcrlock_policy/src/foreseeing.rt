//! The table that protects the asked PCRs.
ghost use Rattle.std.specs.Prelude.{◌≡◌, ◌≢◌, [], true, Some, Ok, IfOk, IfErr};
ghost use Rattle.component_tree.specs.PlainTree.{plain};
ghost use Rattle.policy_digest.specs.Table.{valid_table};
ghost use Rattle.tpm_device.specs.Stored.{Holds};
ghost use Rattle.tpm_model.specs.declared.parts.Parts.{Parts};
ghost use Rattle.pcrlock_line.specs.Causes.{HasCauses};
ghost use Rattle.pcrlock_line.specs.Running.{Runs};
ghost use Rattle.pcrlock_input.specs.Logs.{AreRead};
ghost use Rattle.pcrlock_predict.specs.Inputs.{plain_inputs};
ghost use Rattle.pcrlock_predict.specs.Present.{AreValues};
ghost use Rattle.pcrlock_policy.specs.Asked.{asked_of};
ghost use Rattle.pcrlock_policy.specs.Foreseen.{foreseen_by, foreseen_now, foreseen_on, seen};

use crate::asked::Asked;
use component_tree::Tree;
use hash_bank::Digest;
use pcrlock_answer::Answer;
use pcrlock_line::Stop;
use pcrlock_predict::{Inputs, protected, refusal, values_ready};
use pcrlock_words::counts_text;
use pl_base::Memory;
use policy_digest::Table;
use predictor::Protection;
use std::alloc::Global;
use tpm_device::Tpm;

/// What is foreseen of the asked PCRs that a policy can protect.
#[derive(Drop)]
pub struct Foreseen {
    /// The table of their values, with one row at least.
    pub table: Table,
    /// The lines that tell how many values are foreseen of each PCR, or why it is left out.
    pub text: Vec<u8>,
}

/// The table of what is protected with its text, or the answer where nothing is.
fn table_of(
    alloc: Global,
    tree: &Tree,
    protection: Protection,
    joint: bool,
) -> Result<Result<Foreseen, Answer>, Memory>
    requires { protection.table.rows ≢ [] → valid_table protection.table ≡ true }
    ensures told { IfOk result (λ found. seen found ≡ foreseen_by (plain tree.now.components) joint (Ok protection)) }
    ensures valid { IfOk result (λ found. IfOk found (λ foreseen. valid_table foreseen.table ≡ true)) }
{
    if protection.table.rows.is_empty() {
        return Ok(Err(Answer::NothingProtected));
    }
    let text = counts_text(alloc, &protection, tree, joint)?;
    let Protection { table, .. } = protection;
    Ok(Ok(Foreseen { table, text }))
}

/// What is foreseen where the PCRs hold these values, or the answer where nothing is protected.
fn foresee_now(
    alloc: Global,
    asked: &Asked<'_>,
    inputs: &Inputs,
    now: &[Digest],
) -> Result<Result<Foreseen, Answer>, Memory>
    requires read { AreRead inputs.now.logs }
    requires values { AreValues asked.now.bank now.now }
    ensures told { IfOk result (λ found. seen found ≡ foreseen_now (asked_of asked.now) (plain_inputs inputs.now) now.now) }
    ensures valid { IfOk result (λ found. IfOk found (λ foreseen. valid_table foreseen.table ≡ true)) }
{
    match protected(
        alloc,
        inputs,
        asked.location,
        asked.pcrs,
        asked.bank,
        asked.joint,
        now,
    ) {
        Ok(protection) => table_of(alloc, &inputs.tree, protection, asked.joint),
        Err(error) => Ok(Err(refusal(alloc, &inputs.tree, error)?)),
    }
}

/// What is foreseen of the asked PCRs, each of which is read on the ready device; or the answer where nothing is
/// protected. The state stays as it is, and the device goes on.
pub(crate) fn foresee<T: Tpm>(
    alloc: Global,
    tpm: &mut T,
    asked: &Asked<'_>,
    inputs: &Inputs,
) -> Result<Result<Foreseen, Answer>, Stop>
    requires readiness { T.ready tpm.old ≡ true }
    requires read { AreRead inputs.now.logs }
    ensures causes { HasCauses (0, 0, T.faults tpm.old, 0) (0, 0, T.faults tpm.new, 0) result }
    ensures readiness { IfOk result (λ _. T.ready tpm.new ≡ true) }
    ensures told { (s : Parts) → Runs (T.live tpm.old) (T.stored tpm.old) s
        → IfOk result (λ found. seen found ≡ foreseen_on (asked_of asked.now) (plain_inputs inputs.now) s) }
    ensures valid { IfOk result (λ found. IfOk found (λ foreseen. valid_table foreseen.table ≡ true)) }
    ensures runs { (s : Parts) → Runs (T.live tpm.old) (T.stored tpm.old) s → IfOk result (λ _. Runs (T.live tpm.new) (T.stored tpm.new) s) }
    ensures same { (s : Parts) → Runs (T.live tpm.old) (T.stored tpm.old) s → T.stored tpm.new ≡ Some (Holds s) }
{
    match values_ready(alloc, tpm, asked.bank, asked.pcrs) {
        Ok(Ok(now)) => match foresee_now(alloc, asked, inputs, now.as_slice()) {
            Ok(found) => Ok(found),
            Err(_) => Err(Stop::Memory),
        },
        Ok(Err(answer)) => Ok(Err(answer)),
        Err(stop) => Err(stop),
    }
}
