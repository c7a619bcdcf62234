//! The proofs of what is foreseen.
ghost use Rattle.std.specs.Prelude.{◌≡◌, ◌≤◌, ◌<◌, ◌^◌, length, map, IfOk};
ghost use Rattle.std.specs.List.{All};
ghost use Rattle.std.specs.Result.{result_map_both};
ghost use Rattle.component_tree.specs.PlainTree.{plain};
ghost use Rattle.policy_digest.specs.Mask.{pcrs_of};
ghost use Rattle.predictor.specs.Foreseen.{Answers, foreseen_joint};
ghost use Rattle.predict_proof.specs.Proved.{HasShape, Proved};
ghost use Rattle.predict_proof.specs.ReadsAs.{IsLine};
ghost use Rattle.predict_proof.specs.Proving.{all_proofs, first_proofs, proof_of, values_in, IsFirstOf};

use crate::proof::Proof;
use component_tree::Tree;
use hash_bank::Bank;
use pl_base::{List, Memory};
use predictor::{ForeseeError, Reached, Window, foresee_choices};
use std::alloc::Global;

/// The state as a proof of the mask's PCRs, with memory of its own.
fn proof_of(alloc: Global, mask: u32, state: &Reached) -> Result<Proof, Memory>
    ensures { IfOk result (λ q. q ≡ proof_of mask state.now) }
{
    Ok(Proof {
        pcrs: mask,
        cut: state.cut,
        choice: List::from_vec(Vec::from_slice(alloc, state.choice.as_slice())?),
        values: state.values.copy(alloc)?,
    })
}

/// Each of the states as a proof.
fn proofs_of(alloc: Global, mask: u32, states: &[Reached]) -> Result<List<Proof>, Memory>
    ensures { IfOk result (λ list. list ≡ map (proof_of mask) states.now) }
{
    let mut list = List::new(alloc);
    for state in states {
        list.push(proof_of(alloc, mask, state)?)?;
    }
    Ok(list)
}

/// The states of the PCRs of the mask that `predictor::foresee_joint` gives, in its order, each with the
/// first cut of the window that has it and, of the choices that lead to it there, the first one in
/// lexicographic order. `check` takes the list.
///
/// # Errors
///
/// Those of `predictor::foresee_joint`, where it has them.
pub fn prove(
    alloc: Global,
    tree: &Tree,
    window: &Window,
    pcrs: u32,
    bank: Bank,
    locality: u8,
) -> Result<List<Proof>, ForeseeError>
    requires some { 0 < pcrs }
    requires in_range { pcrs < 2 ^ 24 }
    ensures states { Answers (result_map_both values_in (λ e. e) result) (foreseen_joint bank locality (pcrs_of pcrs) window.now (plain tree.now.components)) }
    ensures proofs { IfOk result (λ list. list ≡ first_proofs bank locality pcrs window.now (plain tree.now.components)) }
    ensures first { IfOk result (All (IsFirstOf (all_proofs bank locality pcrs window.now (plain tree.now.components)))) }
    ensures few { IfOk result (λ list. length list ≤ 512) }
    ensures of_mask { IfOk result (All (λ q. q.pcrs ≡ pcrs)) }
    ensures shaped { IfOk result (All (HasShape bank)) }
    ensures lines { IfOk result (All (IsLine bank)) }
    ensures proved { IfOk result (All (Proved bank locality window.now (plain tree.now.components))) }
{
    match foresee_choices(alloc, tree, window, pcrs, bank, locality) {
        Ok(states) => Ok(proofs_of(alloc, pcrs, states.as_slice())?),
        Err(error) => Err(error),
    }
}
