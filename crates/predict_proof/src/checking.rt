//! The check of a list of proofs.
ghost use Rattle.std.specs.Prelude.{◌≡◌, ◌≤◌, ◌↔◌, length, IsOk, IfErr, OnOk};
ghost use Rattle.std.specs.List.{All};
ghost use Rattle.component_tree.specs.PlainTree.{plain};
ghost use Rattle.policy_digest.specs.Mask.{pcrs_of};
ghost use Rattle.record_match.specs.Extends.{reached_by};
ghost use Rattle.predict_proof.specs.Proved.{HasShape, Proved, FailsFirst};
ghost use Rattle.predict_proof.specs.Joint.{IsForeseen};
ghost use Rattle.predict_proof.specs.Fault.{differing, fault_of, first_differing, first_fault, unless};

use crate::error::CheckError;
use crate::proof::Proof;
use crate::reaching::{is_choice, lacks_some, reached};
use component_tree::{Component, Tree};
use hash_bank::{Bank, Digest};
use policy_digest::is_in_mask;
use predictor::{Window, components_inside, inside};

/// The number of PCRs of a TPM (TCG PC Client Platform TPM Profile).
const PCR_COUNT: u8 = 24;

/// The first PCR of the mask whose value isn't what it holds after the choice, and what it holds then, as
/// what is wrong with the member of this number.
fn difference(
    bank: Bank,
    locality: u8,
    number: u32,
    pcrs: u32,
    components: &[Component],
    choice: &[u32],
    values: &[Digest],
) -> Option<CheckError>
    requires { length values.now ≡ length (pcrs_of pcrs) }
    ensures { result ≡ differing number (first_differing (λ p. reached_by bank p locality (plain components.now) choice.now) (pcrs_of pcrs) values.now) }
{
    let mut place = 0;
    for pcr in 0..PCR_COUNT {
        if is_in_mask(pcrs, pcr) {
            let reached = reached(bank, locality, pcr, components, choice);
            if !reached.is_same(&values[place]) {
                return Some(CheckError::Differs {
                    number,
                    pcr,
                    reached,
                });
            }
            place += 1;
        }
    }
    None
}

/// What is wrong with the member, the first part of it; nothing where it is proved. The components are
/// those inside the window, of which so many stand up to its start.
fn fault(
    bank: Bank,
    locality: u8,
    first: u32,
    components: &[Component],
    number: u32,
    proof: &Proof,
) -> Option<CheckError>
    requires { HasShape bank proof.now }
    ensures { result ≡ fault_of bank locality first (plain components.now) number proof.now }
{
    if proof.cut < first || components.len() < proof.cut as usize {
        return Some(CheckError::Cut(number));
    }
    let before = &components[..proof.cut as usize];
    let choice = proof.choice.as_slice();
    if !is_choice(before, choice) {
        return Some(CheckError::Choice(number));
    }
    if lacks_some(bank, proof.pcrs, before, choice) {
        return Some(CheckError::NoDigest(number));
    }
    difference(
        bank,
        locality,
        number,
        proof.pcrs,
        before,
        choice,
        proof.values.as_slice(),
    )
}

/// Checks each member of the list: its cut is one of the window's, its choice is one of those of the
/// components before the cut, every record of its PCRs in the chosen variants has the bank, and its
/// values are those that the choice leads to since a restart at the locality. It takes no memory.
///
/// # Errors
///
/// The first member that isn't so, and the first of these four that fails of it. Of several values that
/// differ `Differs` names that of the least PCR.
pub fn check(
    tree: &Tree,
    window: &Window,
    bank: Bank,
    locality: u8,
    list: &[Proof],
) -> Result<(), CheckError>
    requires few { length list.now ≤ 12288 }
    requires shaped { All (HasShape bank) list.now }
    ensures proved { IsOk result ↔ All (Proved bank locality window.now (plain tree.now.components)) list.now }
    ensures refused { IfErr result (FailsFirst bank locality window.now (plain tree.now.components) list.now) }
    ensures answer { result ≡ unless (first_fault bank locality window.now (plain tree.now.components) list.now) }
    ensures foreseen { OnOk result (All (IsForeseen bank locality window.now (plain tree.now.components)) list.now) }
{
    let components = components_inside(tree, &window.end);
    let first = inside(tree, &window.start);
    for (number, proof) in list.iter().enumerate() {
        if let Some(error) = fault(bank, locality, first, components, number as u32, proof) {
            return Err(error);
        }
    }
    Ok(())
}
