//! `log`: what was measured, and each PCR's replay beside its value.
ghost use Rattle.std.specs.Prelude.{◌≡◌, ℕ, option_copied, List as Sequence, Option as Maybe, Some, Ok, IfOk, IfErr};
ghost use Rattle.tpm_device.specs.Stored.{Stored};
ghost use Rattle.pcrlock_line.specs.Causes.{HasCauses};
ghost use Rattle.pcrlock_line.specs.Machine.{Machine, Tells};
ghost use Rattle.pcrlock_line.specs.Outcome.{Gives, ending_of};
ghost use Rattle.pcrlock_input.specs.Logs.{AreRead};
ghost use Rattle.pcrlock_predict.specs.Inputs.{plain_inputs};
ghost use Rattle.pcrlock_predict.specs.Log.{logged, logged_at, log_line};
ghost use Rattle.pcrlock_predict.specs.Present.{AreValues};
ghost use Rattle.pcrlock_line.specs.Printing.{printed};

use crate::inputs::{Inputs, read_inputs};
use crate::present::read_values;
use hash_bank::{Bank, Digest};
use pcrlock_input::InputError;
use pcrlock_line::{Reply, Stop};
use pcrlock_words::log_text;
use pl_base::{Files, Memory, Name};
use std::alloc::Global;
use tpm_device::Tpm;

/// The mask of all PCRs.
const ALL_PCRS: u32 = 0xFF_FFFF;

/// The text of the inputs and the present values of all PCRs.
fn logged_text(
    alloc: Global,
    inputs: &Inputs,
    bank: Bank,
    now: &[Digest],
) -> Result<Vec<u8>, Memory>
    requires read { AreRead inputs.now.logs }
    requires values { AreValues bank now.now }
    ensures { IfOk result (λ text. text.items ≡ logged bank (plain_inputs inputs.now) now.now) }
{
    let list = inputs.logs.combined(alloc)?;
    log_text(
        alloc,
        list.as_slice(),
        &inputs.tree,
        bank,
        inputs.logs.locality(),
        now,
        inputs.logs.user.skipped,
    )
}

/// What `log` replies once the values are read.
fn logged_reply(alloc: Global, inputs: &Inputs, bank: Bank, now: &[Digest]) -> Result<Reply, Stop>
    requires read { AreRead inputs.now.logs }
    requires values { AreValues bank now.now }
    ensures told { IfOk result (λ reply. ending_of reply ≡ printed (Ok (logged bank (plain_inputs inputs.now) now.now))) }
    ensures cause { IfErr result (λ stop. stop ≡ Stop.Memory) }
{
    match logged_text(alloc, inputs, bank, now) {
        Ok(text) => Ok(Reply::Fine(text)),
        Err(_) => Err(Stop::Memory),
    }
}

/// What `log` does once the inputs are read.
fn log_from<T: Tpm>(
    alloc: Global,
    tpm: &mut T,
    path: &Name,
    inputs: &Inputs,
    bank: Bank,
) -> Result<Reply, Stop>
    requires { AreRead inputs.now.logs }
    ensures causes { HasCauses (0, 0, T.faults tpm.old, 0) (0, 0, T.faults tpm.new, 0) result }
    ensures told { (kept : Stored) → T.stored tpm.old ≡ Some kept
        → IfOk result (λ reply. ending_of reply ≡ printed (logged_at path.now bank (plain_inputs inputs.now) kept)) }
    ensures same { (kept : Stored) → T.stored tpm.old ≡ Some kept → T.stored tpm.new ≡ Some kept }
{
    match read_values(alloc, tpm, path, bank, ALL_PCRS) {
        Ok(Ok(now)) => logged_reply(alloc, inputs, bank, now.as_slice()),
        Ok(Err(answer)) => Ok(Reply::Refused(answer)),
        Err(stop) => Err(stop),
    }
}

/// Prints the records of both logs, those of the firmware that are extended first: its number, counted
/// from 0, its PCR, who measured it, its digest in the bank and the first component that lists it. Then
/// for each of the 24 PCRs the replay of its records in the bank since a restart at the locality that
/// the firmware's log announces, its present value, and whether they are the same; and how many texts of
/// userspace were skipped.
///
/// Each log stands at the path that is named, which has to be there, or at the usual one, where a log
/// that isn't there is empty. The components are those in the folders, of which the first hides what
/// stands under the same names in those behind it. The TPM's state stands at `path`.
///
/// The answers for which it prints nothing, the first whose cause holds, first for the firmware's log,
/// then for that of userspace, then for the components and then for the TPM:
///
/// | Answer | Cause |
/// |---|---|
/// | `NoSuchFile` | a log that is named isn't there |
/// | `Limit`, `firmware-bytes`, `userspace-bytes` | it has this many bytes, more than 4,194,304 or 1,048,576 |
/// | `Malformed` | at this place, or in this text of userspace, it can't be read |
/// | `Limit`, `firmware-records`, `userspace-records` | it has more than 16,384 records or 4,096 texts |
/// | `Limit`, `entries` 4097 | a folder of components has more than 4,096 entries |
/// | `Malformed` at `name` | an entry gives a component or variant a bad name |
/// | `Limit`, `component-bytes` | a component file has this many bytes, more than 1,048,576 |
/// | `Malformed` at `json`, `records` or a number | it is no list of records |
/// | `Limit`, `records` 257 | it has more than 256 records |
/// | `Limit`, `variants` 65, `components` 257, `total` 65537 | there are more than 64, 256 or 65,536 records in all |
/// | `Limit`, `state-bytes`; `Malformed` | the state file at `path` gives no state |
/// | `BankAbsent` | the state has no such bank |
///
/// Files and state stay as they are. It stops with `ReadFault`, `TpmFault` or `Memory`.
pub fn log<F: Files, T: Tpm>(
    alloc: Global,
    files: &mut F,
    tpm: &mut T,
    path: &Name,
    firmware: Option<&Name>,
    user: Option<&Name>,
    folders: &[Name],
    bank: Bank,
) -> Result<Reply, Stop>
    ensures causes { HasCauses (F.faults files.old, 0, T.faults tpm.old, 0) (F.faults files.new, 0, T.faults tpm.new, 0) result }
    ensures told { (words : Maybe (Sequence (Sequence ℕ))) (m : Machine) → Tells (F.held files.old) (T.stored tpm.old) words m
        → IfOk result (λ reply. Gives (F.held files.new) (T.stored tpm.new) words reply (log_line path.now (option_copied firmware.entry) (option_copied user.entry) folders.now bank m)) }
    ensures stops { (words : Maybe (Sequence (Sequence ℕ))) (m : Machine) → Tells (F.held files.old) (T.stored tpm.old) words m
        → IfErr result (λ _. Tells (F.held files.new) (T.stored tpm.new) words m) }
{
    match read_inputs(alloc, files, firmware, user, folders) {
        Ok(inputs) => log_from(alloc, tpm, path, &inputs, bank),
        Err(InputError::Refused(answer)) => Ok(Reply::Refused(answer)),
        Err(InputError::Failed) => Err(Stop::ReadFault),
        Err(InputError::Memory) => Err(Stop::Memory),
    }
}
