//! A policy is put in force where a written index stands under its handle.
ghost use Rattle.std.specs.Prelude.{◌≡◌, ◌++◌, ℕ, true, List as Sequence, option_copied, Option as Maybe, Some, IfOk, IfErr, IfSome};
ghost use Rattle.policy_digest.specs.Table.{valid_table};
ghost use Rattle.policy_file.specs.PolicyText.{IsIndex, IsPolicy};
ghost use Rattle.pcrlock_line.specs.Causes.{HasCauses};
ghost use Rattle.pcrlock_line.specs.Machine.{Live, Tells, machine};
ghost use Rattle.pcrlock_line.specs.Outcome.{Gives};
ghost use Rattle.pcrlock_line.specs.Stopped.{StandsAmong};
ghost use Rattle.pcrlock_update.specs.Changes.{Works, CameTo};
ghost use Rattle.pcrlock_update.specs.Update.{kept_line, kept_update, pinned_line, sealed_update};

use crate::given::Given;
use crate::lines::with_updated;
use crate::putting::{Before, put, seal_and_put};
use crate::updating::{named_by, pin_in};
use pcrlock_answer::Answer;
use pcrlock_line::{Reply, Stop};
use pl_base::{Files, Name, Small};
use policy_digest::Table;
use policy_file::Policy;
use std::alloc::Global;
use tpm_device::Tpm;

/// Puts the table in force under a written index with the pin, which is sealed anew.
fn update_sealed<F: Files, T: Tpm>(
    alloc: Global,
    files: &mut F,
    tpm: &mut T,
    given: &Given<'_>,
    found: Option<&Policy>,
    pin: &[u8; 32],
    held: &Small,
) -> Result<Option<Answer>, Stop>
    requires readiness { T.ready tpm.old ≡ true }
    requires index { IsIndex given.now.index }
    requires found { IfSome (option_copied found) IsPolicy }
    requires table { valid_table given.now.table.now ≡ true }
    ensures causes { HasCauses (F.faults files.old, 0, T.faults tpm.old, 0) (F.faults files.new, 0, T.faults tpm.new, 0) result }
    ensures made { (m : Live) → Works (F.held files.old) (T.live tpm.old) (T.stored tpm.old) m
        → CameTo result (F.held files.new) (T.live tpm.new) (T.stored tpm.new) (sealed_update given.now.path.now (option_copied found.entry) given.now.index pin.now held.now given.now.table.now m) }
{
    match named_by(alloc, held, found) {
        Ok(named) => {
            let before = Before::Written(named);
            seal_and_put(alloc, files, tpm, given, pin, pin_in(found), before)
        }
        Err(_) => Err(Stop::Memory),
    }
}

/// Puts the table in force under a written index, which holds `held` and is written with the pin: seals
/// the pin anew, bound to the index; writes the policy file at the path with the table for which the
/// index holds that, where the policy file has it, and then the new table; writes the index, with the
/// table's policy; writes the file with the new table alone; and then takes the object away that held
/// the pin of the policy file, where one is there. Behind the text it prints `updated`.
///
/// The answers for which it stops, the first whose cause holds; what it did so far stays:
///
/// | Answer | Cause |
/// |---|---|
/// | `Limit`, `objects` | the TPM has 64 objects (TPM 2.0 Library Part 3, TPM2_Create) |
/// | `Limit`, `handles` | all numbers of objects, 0x00800000, were used |
/// | `CounterEnd` | the counter of writes is at its end (TPM2_NV_Write) |
///
/// It stops with `WriteFault`, `TpmFault` or `Memory` as well.
pub fn update_with_pin<F: Files, T: Tpm>(
    alloc: Global,
    files: &mut F,
    tpm: &mut T,
    given: &Given<'_>,
    found: Option<&Policy>,
    pin: &[u8; 32],
    held: &Small,
    text: Vec<u8>,
) -> Result<Reply, Stop>
    requires readiness { T.ready tpm.old ≡ true }
    requires index { IsIndex given.now.index }
    requires found { IfSome (option_copied found) IsPolicy }
    requires table { valid_table given.now.table.now ≡ true }
    ensures causes { HasCauses (F.faults files.old, 0, T.faults tpm.old, 0) (F.faults files.new, 0, T.faults tpm.new, 0) result }
    ensures told { (words : Maybe (Sequence (Sequence ℕ))) (m : Live) → Tells (F.held files.old) (T.stored tpm.old) words (machine m) → T.live tpm.old ≡ Some m.state
        → IfOk result (λ reply. Gives (F.held files.new) (T.stored tpm.new) words reply (pinned_line text.items given.now.path.now (option_copied found.entry) given.now.index pin.now held.now given.now.table.now m)) }
    ensures stops { (words : Maybe (Sequence (Sequence ℕ))) (m : Live) → Tells (F.held files.old) (T.stored tpm.old) words (machine m) → T.live tpm.old ≡ Some m.state
        → IfErr result (λ _. StandsAmong (F.held files.new) (T.stored tpm.new) (pinned_line text.items given.now.path.now (option_copied found.entry) given.now.index pin.now held.now given.now.table.now m).stops) }
{
    let Ok(text) = with_updated(text) else {
        return Err(Stop::Memory);
    };
    match update_sealed(alloc, files, tpm, given, found, pin, held) {
        Ok(None) => Ok(Reply::Fine(text)),
        Ok(Some(answer)) => Ok(Reply::Refused(answer)),
        Err(stop) => Err(stop),
    }
}

/// Puts the table in force under a written index with the pin that the policy's object holds.
fn update_kept<F: Files, T: Tpm>(
    alloc: Global,
    files: &mut F,
    tpm: &mut T,
    path: &Name,
    policy: &Policy,
    pin: &[u8; 32],
    held: &Small,
    table: &Table,
) -> Result<Option<Answer>, Stop>
    requires readiness { T.ready tpm.old ≡ true }
    requires policy { IsPolicy policy.now }
    requires table { valid_table table.now ≡ true }
    ensures causes { HasCauses (F.faults files.old, 0, T.faults tpm.old, 0) (F.faults files.new, 0, T.faults tpm.new, 0) result }
    ensures made { (m : Live) → Works (F.held files.old) (T.live tpm.old) (T.stored tpm.old) m
        → CameTo result (F.held files.new) (T.live tpm.new) (T.stored tpm.new) (kept_update path.now policy.now pin.now held.now table.now m) }
{
    match named_by(alloc, held, Some(policy)) {
        Ok(named) => {
            let given = Given {
                path,
                index: policy.handle,
                table,
            };
            let before = Before::Written(named);
            put(
                alloc,
                files,
                tpm,
                &given,
                pin,
                None,
                before,
                policy.pin_object,
            )
        }
        Err(_) => Err(Stop::Memory),
    }
}

/// Puts the table in force under the policy's index, which holds `held` and is written with the pin that
/// the policy's object holds: writes the policy file at the path with the table for which the index holds
/// that, where the policy has it, and then the new table; writes the index, with the table's policy; and
/// writes the file with the new table alone. Behind the text it prints `updated`.
///
/// It answers `CounterEnd` where the counter of writes is at its end (TPM 2.0 Library Part 3,
/// TPM2_NV_Write); what it did so far stays. It stops with `WriteFault`, `TpmFault` or `Memory` as well.
pub fn update_policy<F: Files, T: Tpm>(
    alloc: Global,
    files: &mut F,
    tpm: &mut T,
    path: &Name,
    policy: &Policy,
    pin: &[u8; 32],
    held: &Small,
    table: &Table,
    text: Vec<u8>,
) -> Result<Reply, Stop>
    requires readiness { T.ready tpm.old ≡ true }
    requires policy { IsPolicy policy.now }
    requires table { valid_table table.now ≡ true }
    ensures causes { HasCauses (F.faults files.old, 0, T.faults tpm.old, 0) (F.faults files.new, 0, T.faults tpm.new, 0) result }
    ensures told { (words : Maybe (Sequence (Sequence ℕ))) (m : Live) → Tells (F.held files.old) (T.stored tpm.old) words (machine m) → T.live tpm.old ≡ Some m.state
        → IfOk result (λ reply. Gives (F.held files.new) (T.stored tpm.new) words reply (kept_line text.items path.now policy.now pin.now held.now table.now m)) }
    ensures stops { (words : Maybe (Sequence (Sequence ℕ))) (m : Live) → Tells (F.held files.old) (T.stored tpm.old) words (machine m) → T.live tpm.old ≡ Some m.state
        → IfErr result (λ _. StandsAmong (F.held files.new) (T.stored tpm.new) (kept_line text.items path.now policy.now pin.now held.now table.now m).stops) }
{
    let Ok(text) = with_updated(text) else {
        return Err(Stop::Memory);
    };
    match update_kept(alloc, files, tpm, path, policy, pin, held, table) {
        Ok(None) => Ok(Reply::Fine(text)),
        Ok(Some(answer)) => Ok(Reply::Refused(answer)),
        Err(stop) => Err(stop),
    }
}
