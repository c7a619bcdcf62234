//! `tpm-boot`: the machine is restarted, and what both logs say is measured again.
ghost use Rattle.std.specs.Prelude.{◌≡◌, ◌≢◌, ◌⊎◌, ◌≤◌, ℕ, true, false, ◌==◌, length, option_copied, List as Sequence, Option as Maybe, Some, IfOk, IfErr, IfSome};
ghost use Rattle.pl_base.specs.FileMap.{FileMap};
ghost use Rattle.pcr_replay.specs.Row.{row, rows};
ghost use Rattle.tpm_model.specs.declared.parts.Parts.{Parts};
ghost use Rattle.tpm_model.specs.PcrCommands.{is_start_locality};
ghost use Rattle.tpm_model.specs.Pcrs.{bank_count};
ghost use Rattle.tpm_model.specs.Tied.{Tied};
ghost use Rattle.tpm_model.specs.World.{World};
ghost use Rattle.pcrlock_line.specs.Begun.{by_device};
ghost use Rattle.pcrlock_line.specs.Causes.{HasCauses};
ghost use Rattle.pcrlock_line.specs.Machine.{Machine, Live, Tells, machine};
ghost use Rattle.pcrlock_line.specs.Outcome.{Gives};
ghost use Rattle.pcrlock_line.specs.Stopped.{StandsAmong};
ghost use Rattle.pcrlock_input.specs.Logs.{AreRead, PlainLogs, plain_logs};
ghost use Rattle.pcrlock_tpm.specs.Boot.{restarted, measured_row, measured, booted, booted_line, boot_state, boot_world, tpm_boot_line, IsPartWay};
ghost use Rattle.pcrlock_tpm.specs.Extend.{is_extended as extends};
ghost use Rattle.pcrlock_line.specs.Running.{Runs, Keeps};

use hash_bank::Banks;
use pcr_replay::LogRecord;
use pcrlock_answer::{Answer, records_line};
use pcrlock_input::{InputError, Logs, read_logs};
use pcrlock_line::{Reply, Stop, ask, ready};
use pl_base::{Files, Name};
use std::alloc::Global;
use tpm_device::Tpm;
use tpm_model::{Command, Response};

/// Whether the command was accepted.
fn is_done(response: &Response) -> bool
    ensures { result ≡ extends response.now }
{
    matches!(response, Response::Done)
}

/// Restarts the machine.
fn restart<T: Tpm>(alloc: Global, tpm: &mut T, locality: u8, banks: Banks) -> Result<(), Stop>
    requires readiness { T.ready tpm.old ≡ true }
    requires locality { is_start_locality locality ≡ true }
    requires banks { (bank_count banks == 0) ≡ false }
    ensures causes { HasCauses (0, 0, T.faults tpm.old, 0) (0, 0, T.faults tpm.new, 0) result }
    ensures readiness { IfOk result (λ _. T.ready tpm.new ≡ true) }
    ensures told { (s : Parts) → Runs (T.live tpm.old) (T.stored tpm.old) s → IfOk result (λ _. Runs (T.live tpm.new) (T.stored tpm.new) (restarted locality banks s)) }
    ensures stops { (s : Parts) → Runs (T.live tpm.old) (T.stored tpm.old) s → IfErr result (λ _. Keeps (T.stored tpm.new) s ⊎ Keeps (T.stored tpm.new) (restarted locality banks s)) }
{
    match ask(alloc, tpm, &Command::Restart { locality, banks }) {
        Ok(_) => Ok(()),
        Err(stop) => Err(stop),
    }
}

/// Extends the PCR of a record by its digests, and tells whether that was accepted.
fn extend<T: Tpm>(alloc: Global, tpm: &mut T, record: &LogRecord) -> Result<bool, Stop>
    requires readiness { T.ready tpm.old ≡ true }
    ensures causes { HasCauses (0, 0, T.faults tpm.old, 0) (0, 0, T.faults tpm.new, 0) result }
    ensures readiness { IfOk result (λ _. T.ready tpm.new ≡ true) }
    ensures told { (s : Parts) → Runs (T.live tpm.old) (T.stored tpm.old) s → s.update_counter ≢ 4294967295
        → IfOk result (λ accepted. (accepted ≡ true) × Runs (T.live tpm.new) (T.stored tpm.new) (measured_row s (row «record».now))) }
    ensures stops { (s : Parts) → Runs (T.live tpm.old) (T.stored tpm.old) s → s.update_counter ≢ 4294967295
        → IfErr result (λ _. Keeps (T.stored tpm.new) s ⊎ Keeps (T.stored tpm.new) (measured_row s (row «record».now))) }
{
    let command = Command::PcrExtend {
        pcr: record.pcr,
        digests: record.digests,
    };
    match ask(alloc, tpm, &command) {
        Ok(response) => Ok(is_done(&response)),
        Err(stop) => Err(stop),
    }
}

/// Extends the PCRs of the records by their digests, one after the other, and tells whether all of
/// them were accepted.
fn extend_all<T: Tpm>(alloc: Global, tpm: &mut T, list: &[LogRecord]) -> Result<bool, Stop>
    requires readiness { T.ready tpm.old ≡ true }
    requires few { length list.now ≤ 20480 }
    ensures causes { HasCauses (0, 0, T.faults tpm.old, 0) (0, 0, T.faults tpm.new, 0) result }
    ensures told { (s : Parts) → Runs (T.live tpm.old) (T.stored tpm.old) s → s.update_counter ≡ 0
        → IfOk result (λ accepted. (accepted ≡ true) × Runs (T.live tpm.new) (T.stored tpm.new) (measured (rows list.now) s)) }
    ensures stops { (s : Parts) → Runs (T.live tpm.old) (T.stored tpm.old) s → s.update_counter ≡ 0
        → IfErr result (λ _. IsPartWay (T.stored tpm.new) (rows list.now) s) }
{
    for record in list {
        match extend(alloc, tpm, record) {
            Ok(true) => {}
            Ok(false) => return Ok(false),
            Err(stop) => return Err(stop),
        }
    }
    Ok(true)
}

/// Restarts the machine and extends the PCRs of the records, and tells whether all was accepted.
fn restart_and_extend<T: Tpm>(
    alloc: Global,
    tpm: &mut T,
    locality: u8,
    banks: Banks,
    list: &[LogRecord],
) -> Result<bool, Stop>
    requires readiness { T.ready tpm.old ≡ true }
    requires locality { is_start_locality locality ≡ true }
    requires banks { (bank_count banks == 0) ≡ false }
    requires few { length list.now ≤ 20480 }
    ensures causes { HasCauses (0, 0, T.faults tpm.old, 0) (0, 0, T.faults tpm.new, 0) result }
    ensures told { (s : Parts) → Runs (T.live tpm.old) (T.stored tpm.old) s
        → IfOk result (λ accepted. (accepted ≡ true) × Runs (T.live tpm.new) (T.stored tpm.new) (booted locality banks (rows list.now) s)) }
    ensures stops { (s : Parts) → Runs (T.live tpm.old) (T.stored tpm.old) s
        → IfErr result (λ _. Keeps (T.stored tpm.new) s ⊎ IsPartWay (T.stored tpm.new) (rows list.now) (restarted locality banks s)) }
{
    match restart(alloc, tpm, locality, banks) {
        Ok(()) => extend_all(alloc, tpm, list),
        Err(stop) => Err(stop),
    }
}

/// What `tpm-boot` does on the ready device.
fn boot_ready<T: Tpm>(
    alloc: Global,
    tpm: &mut T,
    logs: &Logs,
    locality: Option<u8>,
    banks: Banks,
) -> Result<Reply, Stop>
    requires readiness { T.ready tpm.old ≡ true }
    requires read { AreRead logs.now }
    requires locality { IfSome locality (λ l. is_start_locality l ≡ true) }
    requires banks { (bank_count banks == 0) ≡ false }
    ensures causes { HasCauses (0, 0, T.faults tpm.old, 0) (0, 0, T.faults tpm.new, 0) result }
    ensures told { (held : Maybe FileMap) (words : Maybe (Sequence (Sequence ℕ))) (m : Live) → Tells held (T.stored tpm.old) words (machine m) → T.live tpm.old ≡ Some m.state
        → IfOk result (λ reply. Gives held (T.stored tpm.new) words reply (booted_line locality banks (plain_logs logs.now) m)) }
    ensures stops { (held : Maybe FileMap) (words : Maybe (Sequence (Sequence ℕ))) (m : Live) → Tells held (T.stored tpm.old) words (machine m) → T.live tpm.old ≡ Some m.state
        → IfErr result (λ _. StandsAmong held (T.stored tpm.new) (booted_line locality banks (plain_logs logs.now) m).stops) }
{
    let list = logs.combined(alloc)?;
    let text = records_line(alloc, list.len() as u32)?;
    let locality = locality.unwrap_or(logs.locality());
    match restart_and_extend(alloc, tpm, locality, banks, list.as_slice()) {
        Ok(true) => Ok(Reply::Fine(text)),
        Ok(false) => Ok(Reply::Refused(Answer::CounterEnd { writes: false })),
        Err(stop) => Err(stop),
    }
}

/// What `tpm-boot` does once the logs are read.
fn boot<T: Tpm>(
    alloc: Global,
    tpm: &mut T,
    path: &Name,
    logs: &Logs,
    locality: Option<u8>,
    banks: Banks,
) -> Result<Reply, Stop>
    requires read { AreRead logs.now }
    requires locality { IfSome locality (λ l. is_start_locality l ≡ true) }
    requires banks { (bank_count banks == 0) ≡ false }
    ensures causes { HasCauses (0, 0, T.faults tpm.old, 0) (0, 0, T.faults tpm.new, 0) result }
    ensures told { (held : Maybe FileMap) (words : Maybe (Sequence (Sequence ℕ))) (m : Machine) → Tells held (T.stored tpm.old) words m
        → IfOk result (λ reply. Gives held (T.stored tpm.new) words reply (by_device m.device path.now m (booted_line locality banks (plain_logs logs.now)))) }
    ensures stops { (held : Maybe FileMap) (words : Maybe (Sequence (Sequence ℕ))) (m : Machine) → Tells held (T.stored tpm.old) words m
        → IfErr result (λ _. StandsAmong held (T.stored tpm.new) (by_device m.device path.now m (booted_line locality banks (plain_logs logs.now))).stops) }
{
    match ready(alloc, tpm, path) {
        Ok(None) => boot_ready(alloc, tpm, logs, locality, banks),
        Ok(Some(answer)) => Ok(Reply::Refused(answer)),
        Err(stop) => Err(stop),
    }
}

/// Restarts the machine with exactly these banks, at the locality that is given or else at the one
/// that the firmware's log announces, and then extends the PCR of each record of both logs by its
/// digests: those of the firmware that are extended, and then those of userspace. It prints how many
/// records there were.
///
/// Each log stands at the path that is named, which has to be there, or at the usual one, where a log
/// that isn't there is empty. At least one bank is given, and a locality is 0, 3 or 4.
///
/// The answers for which it does nothing, the first whose cause holds, first for the firmware's log
/// and then for that of userspace:
///
/// | Answer | Cause |
/// |---|---|
/// | `NoSuchFile` | a log that is named isn't there |
/// | `Limit`, `firmware-bytes`, `userspace-bytes` | it has this many bytes, more than 4,194,304 or 1,048,576 |
/// | `Malformed` | at this place, or in this text of userspace, it can't be read |
/// | `Limit`, `firmware-records`, `userspace-records` | it has more than 16,384 records or 4,096 texts |
/// | `Limit`, `state-bytes`; `Malformed` | the state file at `path` gives no state |
///
/// The files stay as they are. It stops with `ReadFault`, `TpmFault` or `Memory`; then the machine may
/// be restarted, and the first of the records measured.
pub fn tpm_boot<F: Files, T: Tpm>(
    alloc: Global,
    files: &mut F,
    tpm: &mut T,
    path: &Name,
    firmware: Option<&Name>,
    user: Option<&Name>,
    locality: Option<u8>,
    banks: Banks,
) -> Result<Reply, Stop>
    requires locality { IfSome locality (λ l. is_start_locality l ≡ true) }
    requires banks { (bank_count banks == 0) ≡ false }
    ensures causes { HasCauses (F.faults files.old, 0, T.faults tpm.old, 0) (F.faults files.new, 0, T.faults tpm.new, 0) result }
    ensures told { (words : Maybe (Sequence (Sequence ℕ))) (m : Machine) → Tells (F.held files.old) (T.stored tpm.old) words m
        → IfOk result (λ reply. Gives (F.held files.new) (T.stored tpm.new) words reply (tpm_boot_line path.now (option_copied firmware.entry) (option_copied user.entry) locality banks m)) }
    ensures stops { (words : Maybe (Sequence (Sequence ℕ))) (m : Machine) → Tells (F.held files.old) (T.stored tpm.old) words m
        → IfErr result (λ _. StandsAmong (F.held files.new) (T.stored tpm.new) (tpm_boot_line path.now (option_copied firmware.entry) (option_copied user.entry) locality banks m).stops) }
    // A world that is tied to the state before follows the state, and stays tied.
    ensures tied { (logs : PlainLogs) (s : Parts) (w : World) → Tied s w → Tied (boot_state locality banks logs s) (boot_world locality banks logs s w) }
{
    match read_logs(alloc, files, firmware, user) {
        Ok(logs) => boot(alloc, tpm, path, &logs, locality, banks),
        Err(InputError::Refused(answer)) => Ok(Reply::Refused(answer)),
        Err(InputError::Failed) => Err(Stop::ReadFault),
        Err(InputError::Memory) => Err(Stop::Memory),
    }
}
