//! `prove`: a file of the proofs of what is foreseen of some PCRs.
ghost use Rattle.std.specs.Prelude.{◌≡◌, ◌≢◌, ◌≤◌, ◌<◌, ◌^◌, ◌++◌, ℕ, true, length, List as Sequence, Option as Maybe, Some, Ok, Err, IfOk, IfErr, OnOk};
ghost use Rattle.pl_base.specs.Faults.{HasCause};
ghost use Rattle.pl_base.specs.FileMap.{FileMap};
ghost use Rattle.component_tree.specs.PlainTree.{plain};
ghost use Rattle.policy_digest.specs.Mask.{pcrs_of};
ghost use Rattle.tpm_device.specs.Stored.{Stored};
ghost use Rattle.pcrlock_line.specs.Causes.{HasCauses};
ghost use Rattle.pcrlock_line.specs.Machine.{Machine, Tells};
ghost use Rattle.pcrlock_line.specs.Outcome.{Gives};
ghost use Rattle.pcrlock_line.specs.Stopped.{StandsAmong};
ghost use Rattle.pcrlock_input.specs.Answering.{Answers};
ghost use Rattle.pcrlock_deeds.specs.Acts.{files_between};
ghost use Rattle.pcrlock_lock.specs.Between.{HoldsOneOf};
ghost use Rattle.pcrlock_lock.specs.Changing.{IsDone, changes_in};
ghost use Rattle.predict_proof.specs.Words.{is_locality};
ghost use Rattle.pcrlock_proofs.specs.Passes.{AreOf, Fit, FitOver, Passes};
ghost use Rattle.pcrlock_proofs.specs.Prove.{proofs_for as proofs_for_mask, proofs_each as proofs_of_each, proofs_asked as proofs_of_asked, proofs_of, written, prove_line};

use crate::asked::Asked;
use component_tree::Tree;
use pcrlock_answer::{limit, proved_line};
use pcrlock_input::{InputError, read_components};
use pcrlock_line::{Reply, Stop, replace_file};
use pcrlock_predict::no_digest;
use pl_base::{Files, List, Memory, Name};
use policy_digest::{is_in_mask, mask_of_pcr};
use predict_proof::{Proof, ProofFile, write_proofs};
use predictor::{ForeseeError, Window};
use std::alloc::Global;

/// The number of PCRs of a TPM (TCG PC Client Platform TPM Profile).
const PCR_COUNT: u8 = 24;

/// The proofs of the states of the mask's PCRs.
fn proofs_for(
    alloc: Global,
    tree: &Tree,
    location: &Window,
    asked: Asked,
    mask: u32,
) -> Result<List<Proof>, InputError>
    requires some { 0 < mask }
    requires in_range { mask < 2 ^ 24 }
    ensures told { Answers (λ list. list) result (proofs_for_mask asked location.now (plain tree.now.components) mask) }
    ensures fine { result ≢ Err InputError.Failed }
    ensures few { IfOk result (λ list. length list ≤ 512) }
    ensures passing { IfOk result (AreOf (length (pcrs_of mask)) asked location.now (plain tree.now.components)) }
{
    match predict_proof::prove(alloc, tree, location, mask, asked.bank, asked.locality) {
        Ok(list) => Ok(list),
        Err(
            ForeseeError::NoDigest {
                component,
                variant,
                place,
            },
        ) => Err(InputError::Refused(no_digest(alloc, tree, component, variant, place)?)),
        Err(ForeseeError::TooMany(_)) => Err(InputError::Refused(limit(alloc, "values", 513)?)),
        Err(ForeseeError::Memory) => Err(InputError::Memory),
    }
}

/// The proofs of the values of one PCR.
fn proofs_of_pcr(
    alloc: Global,
    tree: &Tree,
    location: &Window,
    asked: Asked,
    pcr: u8,
) -> Result<List<Proof>, InputError>
    requires { pcr ≤ 23 }
    ensures told { Answers (λ list. list) result (proofs_for_mask asked location.now (plain tree.now.components) (2 ^ pcr)) }
    ensures fine { result ≢ Err InputError.Failed }
    ensures few { IfOk result (λ list. length list ≤ 512) }
    ensures passing { IfOk result (AreOf 1 asked location.now (plain tree.now.components)) }
{
    proofs_for(alloc, tree, location, asked, mask_of_pcr(pcr))
}

/// Puts further proofs to the end of the list.
fn put_behind(list: &mut Vec<Proof>, further: List<Proof>) -> Result<(), Memory>
    ensures { OnOk result (list.new.items ≡ list.old.items ++ further) }
{
    let mut further = further.into_vec();
    list.append(&mut further)?;
    Ok(())
}

/// The proofs of the values of each asked PCR, ascending.
fn proofs_each(
    alloc: Global,
    tree: &Tree,
    location: &Window,
    asked: Asked,
) -> Result<List<Proof>, InputError>
    ensures told { Answers (λ list. list) result (proofs_of_each asked location.now (plain tree.now.components) (pcrs_of asked.pcrs)) }
    ensures fine { result ≢ Err InputError.Failed }
    ensures few { IfOk result (λ list. length list ≤ 12288) }
    ensures passing { IfOk result (AreOf 1 asked location.now (plain tree.now.components)) }
{
    let mut list = Vec::new(alloc);
    for pcr in 0..PCR_COUNT {
        if is_in_mask(asked.pcrs, pcr) {
            match proofs_of_pcr(alloc, tree, location, asked, pcr) {
                Ok(further) => put_behind(&mut list, further)?,
                Err(error) => return Err(error),
            }
        }
    }
    Ok(List::from_vec(list))
}

/// The proofs of the asked PCRs.
fn proofs_asked(
    alloc: Global,
    tree: &Tree,
    location: &Window,
    asked: Asked,
) -> Result<List<Proof>, InputError>
    requires some { 0 < asked.pcrs }
    requires in_range { asked.pcrs < 2 ^ 24 }
    ensures told { Answers (λ list. list) result (proofs_of_asked asked location.now (plain tree.now.components)) }
    ensures fine { result ≢ Err InputError.Failed }
    ensures few { IfOk result (λ list. length list ≤ 12288) }
    ensures passing { IfOk result (Fit asked location.now (plain tree.now.components)) }
{
    if asked.joint {
        proofs_for(alloc, tree, location, asked, asked.pcrs)
    } else {
        proofs_each(alloc, tree, location, asked)
    }
}

/// The proofs of the asked PCRs over the components in the folders. The files stay as they are.
fn proofs_over<F: Files>(
    alloc: Global,
    files: &mut F,
    folders: &[Name],
    location: &Window,
    asked: Asked,
) -> Result<List<Proof>, InputError>
    requires some { 0 < asked.pcrs }
    requires in_range { asked.pcrs < 2 ^ 24 }
    ensures cause { HasCause (F.faults files.old) (F.faults files.new) (result ≡ Err InputError.Failed) }
    ensures told { (held : FileMap) → F.held files.old ≡ Some held → Answers (λ list. list) result (proofs_of asked location.now folders.now held) }
    ensures few { IfOk result (λ list. length list ≤ 12288) }
    ensures passing { (held : FileMap) → F.held files.old ≡ Some held → IfOk result (FitOver asked location.now folders.now held) }
    ensures same { F.held files.new ≡ F.held files.old }
{
    let tree = read_components(alloc, files, folders)?;
    proofs_asked(alloc, &tree, location, asked)
}

/// Writes the file of the proofs, and gives the line that counts them.
fn write_file<F: Files>(
    alloc: Global,
    files: &mut F,
    output: &Name,
    asked: Asked,
    proofs: List<Proof>,
) -> Result<Reply, Stop>
    requires few { length proofs ≤ 12288 }
    ensures causes { HasCauses (F.faults files.old, 0, 0, 0) (F.faults files.new, 0, 0, 0) result }
    ensures told { (held : FileMap) → F.held files.old ≡ Some held
        → IfOk result (λ reply. IsDone held (F.held files.new) reply (Ok (written output.now asked proofs))) }
    ensures stops { (held : FileMap) → F.held files.old ≡ Some held
        → IfErr result (λ _. HoldsOneOf (F.held files.new) (files_between (changes_in (Ok (written output.now asked proofs))) held)) }
{
    let Ok(line) = proved_line(alloc, proofs.len() as u32) else {
        return Err(Stop::Memory);
    };
    let file = ProofFile {
        bank: asked.bank,
        locality: asked.locality,
        proofs,
    };
    let Ok(text) = write_proofs(alloc, &file) else {
        return Err(Stop::Memory);
    };
    match replace_file(alloc, files, output.text(), text.as_slice()) {
        Ok(()) => Ok(Reply::Fine(line)),
        Err(stop) => Err(stop),
    }
}

/// Writes a file of proofs to the path `output`: each state of the asked PCRs that is foreseen over the
/// cuts of the window `location` and all choices of variants, with the first cut that has it and the
/// first choice that leads to it there. Such a state tells the values of all asked PCRs at once, or, not
/// joint, those of each asked PCR alone, ascending. It prints `proved` and the number of the proofs.
/// `check_proof` finds each of them proved, as long as the file stands there and the components are the same.
///
/// The components are those in the folders, of which the first hides what stands under the same names
/// in those behind it.
///
/// The answers for which it writes nothing, the first whose cause holds, first for the components, and
/// then for each asked PCR, or for all of them at once:
///
/// | Answer | Cause |
/// |---|---|
/// | `Limit`, `entries` 4097 | a folder of components has more than 4,096 entries |
/// | `Malformed` at `name` | an entry gives a component or variant a bad name |
/// | `Limit`, `component-bytes` | a component file has this many bytes, more than 1,048,576 |
/// | `Malformed` at `json`, `records` or a number | it is no list of records |
/// | `Limit`, `records` 257 | it has more than 256 records |
/// | `Limit`, `variants` 65, `components` 257, `total` 65537 | there are more than 64, 256 or 65,536 records in all |
/// | `NoDigest` | a record of the PCR has no digest of the bank in the components inside the window |
/// | `Limit`, `values` 513 | more than 512 states are foreseen |
///
/// It stops with `ReadFault`, `WriteFault` or `Memory`. After a stop the output is the old or the new
/// one.
pub fn prove<F: Files>(
    alloc: Global,
    files: &mut F,
    output: &Name,
    folders: &[Name],
    location: &Window,
    asked: Asked,
) -> Result<Reply, Stop>
    requires some { 0 < asked.pcrs }
    requires in_range { asked.pcrs < 2 ^ 24 }
    ensures causes { HasCauses (F.faults files.old, 0, 0, 0) (F.faults files.new, 0, 0, 0) result }
    ensures told { (stored : Maybe Stored) (words : Maybe (Sequence (Sequence ℕ))) (m : Machine) → Tells (F.held files.old) stored words m
        → IfOk result (λ reply. Gives (F.held files.new) stored words reply (prove_line output.now folders.now location.now asked m)) }
    ensures stops { (stored : Maybe Stored) (words : Maybe (Sequence (Sequence ℕ))) (m : Machine) → Tells (F.held files.old) stored words m
        → IfErr result (λ _. StandsAmong (F.held files.new) stored (prove_line output.now folders.now location.now asked m).stops) }
    ensures passes { is_locality asked.locality ≡ true → (before written : FileMap) → F.held files.old ≡ Some before → F.held files.new ≡ Some written
        → IfOk result (Passes output.now folders.now location.now before written) }
{
    match proofs_over(alloc, files, folders, location, asked) {
        Ok(proofs) => write_file(alloc, files, output, asked, proofs),
        Err(InputError::Refused(answer)) => Ok(Reply::Refused(answer)),
        Err(InputError::Failed) => Err(Stop::ReadFault),
        Err(InputError::Memory) => Err(Stop::Memory),
    }
}
