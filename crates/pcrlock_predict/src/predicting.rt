//! `predict`: the values that PCRs may have while the boot goes on.
ghost use Rattle.std.specs.Prelude.{◌≡◌, ◌≢◌, [], true, ℕ, codes, option_copied, slice_get, List as Sequence, Option as Maybe, Some, IfOk, IfErr};
ghost use Rattle.std.specs.Option.{option_map};
ghost use Rattle.component_tree.specs.PlainTree.{plain, plain_component, plain_variant};
ghost use Rattle.policy_digest.specs.Table.{valid_table};
ghost use Rattle.predictor.specs.Protected.{Answers, protected_of};
ghost use Rattle.tpm_device.specs.Stored.{Stored};
ghost use Rattle.pcrlock_line.specs.Causes.{HasCauses};
ghost use Rattle.pcrlock_line.specs.Machine.{Machine, Tells};
ghost use Rattle.pcrlock_line.specs.Outcome.{Fine, Refused, Gives, ending_of};
ghost use Rattle.pcrlock_words.specs.PredictText.{predict_text as text_of};
ghost use Rattle.pcrlock_input.specs.Logs.{AreRead, locality_in, plain_logs, rows_of};
ghost use Rattle.pcrlock_predict.specs.Inputs.{plain_inputs};
ghost use Rattle.pcrlock_predict.specs.Predict.{id_of, name_of, variants_of, no_digest as no_digest_at, protect_answer, protection_text, predicted, predicted_at, predict_line};
ghost use Rattle.pcrlock_predict.specs.Present.{AreValues};
ghost use Rattle.pcrlock_line.specs.Printing.{printed};

use crate::inputs::{Inputs, read_inputs};
use crate::present::read_values;
use component_tree::{Component, Tree};
use hash_bank::{Bank, Digest};
use pcrlock_input::InputError;
use pcrlock_line::{Reply, Stop};
use pcrlock_words::{Answer, predict_text};
use pl_base::{Files, Memory, Name};
use predictor::{ProtectError, Protection, Window, protect};
use std::alloc::Global;
use tpm_device::Tpm;

/// The component of the number.
fn component_at(tree: &Tree, number: u32) -> Option<&Component>
    ensures { option_map (λ c. plain_component c.now) result ≡ slice_get (plain tree.now.components) number }
{
    tree.components.as_slice().get(number as usize)
}

/// The id of the component of the number.
fn id_at(tree: &Tree, number: u32) -> &str
    ensures { result.now ≡ id_of (slice_get (plain tree.now.components) number) }
{
    match component_at(tree, number) {
        Some(component) => component.id.text(),
        None => "",
    }
}

/// The name of the component's variant of the number.
fn variant_name(component: &Component, number: u32) -> &str
    ensures { result.now ≡ name_of (slice_get (plain_component component.now).variants number) }
{
    match component.variants.as_slice().get(number as usize) {
        Some(variant) => variant.name.text(),
        None => "",
    }
}

/// The name of this variant of this component.
fn variant_at(tree: &Tree, component: u32, variant: u32) -> &str
    ensures { result.now ≡ name_of (slice_get (variants_of (slice_get (plain tree.now.components) component)) variant) }
{
    match component_at(tree, component) {
        Some(component) => variant_name(component, variant),
        None => "",
    }
}

/// The answer for a record of the components that has no digest of the bank: it names the id of its component, the
/// name of its variant, and its place there.
pub fn no_digest(
    alloc: Global,
    tree: &Tree,
    component: u32,
    variant: u32,
    place: u32,
) -> Result<Answer, Memory>
    ensures { IfOk result (λ answer. answer ≡ no_digest_at (plain tree.now.components) component variant place) }
{
    let id = Name::from_text(alloc, id_at(tree, component))?;
    let name = Name::from_text(alloc, variant_at(tree, component, variant))?;
    Ok(Answer::NoDigest {
        component: id,
        variant: name,
        place,
    })
}

/// The answer where more values are foreseen than a row may have.
fn too_many_values(alloc: Global) -> Result<Answer, Memory>
    ensures { IfOk result (λ answer. answer ≡ Answer.Limit (codes "values") 513) }
{
    Ok(Answer::Limit {
        kind: Name::from_text(alloc, "values")?,
        number: 513,
    })
}

/// The answer where nothing can be foreseen: `NoDigest`, or `Limit` of `values`. Want of memory is none.
pub fn refusal(alloc: Global, tree: &Tree, error: ProtectError) -> Result<Answer, Memory>
    ensures { IfOk result (λ answer. (error ≢ ProtectError.Memory) × (answer ≡ protect_answer (plain tree.now.components) error)) }
{
    match error {
        ProtectError::NoDigest {
            component,
            variant,
            place,
        } => no_digest(alloc, tree, component, variant, place),
        ProtectError::TooMany { .. } => too_many_values(alloc),
        ProtectError::Memory => Err(Memory),
    }
}

/// What `predict` replies for what is protected.
fn protection_reply(
    alloc: Global,
    tree: &Tree,
    protection: &Protection,
    joint: bool,
) -> Result<Reply, Memory>
    ensures { IfOk result (λ reply. ending_of reply ≡ Fine (text_of protection.now (plain tree.now.components) joint)) }
{
    let text = predict_text(alloc, protection, tree, joint)?;
    Ok(Reply::Fine(text))
}

/// What a policy can protect of the asked PCRs, whose values are those now, by the inputs; the replay begins at the
/// locality that the firmware announced. A table with a row is valid.
///
/// # Errors
///
/// Those of `protect` of `predictor`.
pub fn protected(
    alloc: Global,
    inputs: &Inputs,
    location: &Window,
    asked: u32,
    bank: Bank,
    joint: bool,
    now: &[Digest],
) -> Result<Protection, ProtectError>
    requires read { AreRead inputs.now.logs }
    requires values { AreValues bank now.now }
    ensures valid { IfOk result (λ protection. protection.table.rows ≢ [] → valid_table protection.table ≡ true) }
    ensures value { Answers result (protected_of joint (plain inputs.now.tree.components) location.now asked bank (rows_of (plain_logs inputs.now.logs)) (locality_in inputs.now.logs.firmware) now.now) }
{
    let list = inputs.logs.combined(alloc)?;
    protect(
        alloc,
        &inputs.tree,
        location,
        asked,
        bank,
        list.as_slice(),
        inputs.logs.locality(),
        now,
        joint,
    )
}

/// What `predict` replies for the values.
fn reply_for(
    alloc: Global,
    inputs: &Inputs,
    location: &Window,
    asked: u32,
    bank: Bank,
    joint: bool,
    now: &[Digest],
) -> Result<Reply, Memory>
    requires read { AreRead inputs.now.logs }
    requires values { AreValues bank now.now }
    ensures { IfOk result (λ reply. ending_of reply ≡ printed (predicted location.now asked bank joint (plain_inputs inputs.now) now.now)) }
{
    match protected(alloc, inputs, location, asked, bank, joint, now) {
        Ok(protection) => protection_reply(alloc, &inputs.tree, &protection, joint),
        Err(error) => Ok(Reply::Refused(refusal(alloc, &inputs.tree, error)?)),
    }
}

/// What `predict` replies once the values are read.
fn predicted_reply(
    alloc: Global,
    inputs: &Inputs,
    location: &Window,
    asked: u32,
    bank: Bank,
    joint: bool,
    now: &[Digest],
) -> Result<Reply, Stop>
    requires read { AreRead inputs.now.logs }
    requires values { AreValues bank now.now }
    ensures told { IfOk result (λ reply. ending_of reply ≡ printed (predicted location.now asked bank joint (plain_inputs inputs.now) now.now)) }
    ensures cause { IfErr result (λ stop. stop ≡ Stop.Memory) }
{
    match reply_for(alloc, inputs, location, asked, bank, joint, now) {
        Ok(reply) => Ok(reply),
        Err(_) => Err(Stop::Memory),
    }
}

/// What `predict` does once the inputs are read.
fn predict_from<T: Tpm>(
    alloc: Global,
    tpm: &mut T,
    path: &Name,
    inputs: &Inputs,
    location: &Window,
    asked: u32,
    bank: Bank,
    joint: bool,
) -> Result<Reply, Stop>
    requires { AreRead inputs.now.logs }
    ensures causes { HasCauses (0, 0, T.faults tpm.old, 0) (0, 0, T.faults tpm.new, 0) result }
    ensures told { (kept : Stored) → T.stored tpm.old ≡ Some kept
        → IfOk result (λ reply. ending_of reply ≡ printed (predicted_at path.now location.now asked bank joint (plain_inputs inputs.now) kept)) }
    ensures same { (kept : Stored) → T.stored tpm.old ≡ Some kept → T.stored tpm.new ≡ Some kept }
{
    match read_values(alloc, tpm, path, bank, asked) {
        Ok(Ok(now)) => predicted_reply(alloc, inputs, location, asked, bank, joint, now.as_slice()),
        Ok(Err(answer)) => Ok(Reply::Refused(answer)),
        Err(stop) => Err(stop),
    }
}

/// Prints what is foreseen of the PCRs of the mask `asked`, whose bit i stands for PCR i: their values
/// over all cuts of the window `location` and all choices of variants, in the bank. Without `joint` each
/// asked PCR has, ascending, a line for each of its values; with it each line has a value of every
/// protected PCR, reached by one cut and one choice. A PCR that no policy can protect has a line with the
/// cause: a record of it in the logs has no digest of the bank; it holds another value than the replay of
/// the logs since a restart at the locality that the firmware's log announces; no choice has the digests
/// of this component in the logs; or no choice explains all of them.
///
/// Each log stands at the path that is named, which has to be there, or at the usual one, where a log
/// that isn't there is empty. The components are those in the folders, of which the first hides what
/// stands under the same names in those behind it. The TPM's state stands at `path`.
///
/// The answers for which it prints nothing, the first whose cause holds, first for the firmware's log,
/// then for that of userspace, then for the components and then for the TPM:
///
/// | Answer | Cause |
/// |---|---|
/// | `NoSuchFile` | a log that is named isn't there |
/// | `Limit`, `firmware-bytes`, `userspace-bytes` | it has this many bytes, more than 4,194,304 or 1,048,576 |
/// | `Malformed` | at this place, or in this text of userspace, it can't be read |
/// | `Limit`, `firmware-records`, `userspace-records` | it has more than 16,384 records or 4,096 texts |
/// | `Limit`, `entries` 4097 | a folder of components has more than 4,096 entries |
/// | `Malformed` at `name` | an entry gives a component or variant a bad name |
/// | `Limit`, `component-bytes` | a component file has this many bytes, more than 1,048,576 |
/// | `Malformed` at `json`, `records` or a number | it is no list of records |
/// | `Limit`, `records` 257 | it has more than 256 records |
/// | `Limit`, `variants` 65, `components` 257, `total` 65537 | there are more than 64, 256 or 65,536 records in all |
/// | `Limit`, `state-bytes`; `Malformed` | the state file at `path` gives no state |
/// | `BankAbsent` | a PCR is asked for, and the state has no such bank |
/// | `NoDigest` | a record of an asked PCR, whose replay is its value, has no digest of the bank in the components inside the window |
/// | `Limit`, `values` 513 | more than 512 values, or with `joint` states, are foreseen of it |
///
/// Files and state stay as they are. It stops with `ReadFault`, `TpmFault` or `Memory`.
pub fn predict<F: Files, T: Tpm>(
    alloc: Global,
    files: &mut F,
    tpm: &mut T,
    path: &Name,
    firmware: Option<&Name>,
    user: Option<&Name>,
    folders: &[Name],
    location: &Window,
    asked: u32,
    bank: Bank,
    joint: bool,
) -> Result<Reply, Stop>
    ensures causes { HasCauses (F.faults files.old, 0, T.faults tpm.old, 0) (F.faults files.new, 0, T.faults tpm.new, 0) result }
    ensures told { (words : Maybe (Sequence (Sequence ℕ))) (m : Machine) → Tells (F.held files.old) (T.stored tpm.old) words m
        → IfOk result (λ reply. Gives (F.held files.new) (T.stored tpm.new) words reply (predict_line path.now (option_copied firmware.entry) (option_copied user.entry) folders.now location.now asked bank joint m)) }
    ensures stops { (words : Maybe (Sequence (Sequence ℕ))) (m : Machine) → Tells (F.held files.old) (T.stored tpm.old) words m
        → IfErr result (λ _. Tells (F.held files.new) (T.stored tpm.new) words m) }
{
    match read_inputs(alloc, files, firmware, user, folders) {
        Ok(inputs) => predict_from(alloc, tpm, path, &inputs, location, asked, bank, joint),
        Err(InputError::Refused(answer)) => Ok(Reply::Refused(answer)),
        Err(InputError::Failed) => Err(Stop::ReadFault),
        Err(InputError::Memory) => Err(Stop::Memory),
    }
}
