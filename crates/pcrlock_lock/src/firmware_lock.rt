//! `lock-firmware-code` and `lock-firmware-config`: component files of what the firmware measured
//! before and behind the separators of its PCRs.
ghost use Rattle.std.specs.Prelude.{◌≡◌, ◌≢◌, ◌≤◌, ◌⊎◌, ℕ, length, map, option_copied, List as Sequence, Option as Maybe, Some, Ok, Err, IfOk, IfErr, OnOk};
ghost use Rattle.std.specs.FinMap.{insert};
ghost use Rattle.pl_base.specs.Faults.{HasCause};
ghost use Rattle.pl_base.specs.FileMap.{FileMap};
ghost use Rattle.tcg_log.specs.Allowed.{IsWritable};
ghost use Rattle.cel_record.specs.ComponentText.{record_limit};
ghost use Rattle.cel_record.specs.Spelled.{spelled};
ghost use Rattle.pcr_replay.specs.Combined.{firmware_rows};
ghost use Rattle.tpm_device.specs.Stored.{Stored};
ghost use Rattle.pcrlock_answer.specs.Texts.{locked_text};
ghost use Rattle.pcrlock_line.specs.Causes.{HasCauses};
ghost use Rattle.pcrlock_line.specs.Machine.{Machine, Tells};
ghost use Rattle.pcrlock_line.specs.Outcome.{Gives};
ghost use Rattle.pcrlock_line.specs.Stopped.{StandsAmong};
ghost use Rattle.pcrlock_input.specs.Answering.{Answers};
ghost use Rattle.pcrlock_deeds.specs.Acts.{files_then, files_between};
ghost use Rattle.pcrlock_lock.specs.Between.{HoldsOneOf};
ghost use Rattle.pcrlock_lock.specs.Changing.{IsDone, changes_in};
ghost use Rattle.component_make.specs.FirmwareFiles.{early_path as path_of_early, late_path as path_of_late};
ghost use Rattle.pcrlock_lock.specs.MadeFiles.{made_text as text_of_made};
ghost use Rattle.pcrlock_lock.specs.LockFirmware.{rows_in, locked_of, halves_in, written, lock_firmware_line};
ghost use Rattle.pcrlock_lock.specs.Made.{halves, both, AreFitting};

use cel_record::CelRecord;
use component_make::{FirmwareKind, LockError, Locked, component_text, early_path, late_path};
use pcrlock_answer::{Answer, limit, locked_line};
use pcrlock_input::{InputError, read_firmware_log};
use pcrlock_line::{Reply, Stop, replace_file};
use pl_base::{Files, List, Memory, Name};
use std::alloc::Global;
use tcg_log::FirmwareLog;

/// A file that is to be written.
#[derive(Drop)]
struct MadeFile {
    path: Name,
    bytes: Vec<u8>,
}

/// The records of the two files, by the log.
fn lock_log(alloc: Global, kind: FirmwareKind, log: &FirmwareLog) -> Result<Locked, InputError>
    requires { IsWritable log.now }
    ensures told { Answers halves result (locked_of kind (firmware_rows log.now.records)) }
    ensures fine { result ≢ Err InputError.Failed }
    ensures fit { IfOk result AreFitting }
{
    match component_make::lock_firmware(alloc, log, kind.pcrs()) {
        Ok(locked) => Ok(locked),
        Err(LockError::NoSeparator(pcr)) => Err(InputError::Refused(Answer::NoSeparator(pcr))),
        Err(LockError::TooMany) => Err(InputError::Refused(limit(alloc, "records", 257)?)),
        Err(LockError::Memory) => Err(InputError::Memory),
    }
}

/// The records of the two files; none, where there is no log.
fn lock_read(
    alloc: Global,
    kind: FirmwareKind,
    log: &Option<FirmwareLog>,
) -> Result<Locked, InputError>
    requires { (l : FirmwareLog) → log.now ≡ Some l → IsWritable l }
    ensures told { Answers halves result (locked_of kind (rows_in log.now)) }
    ensures fine { result ≢ Err InputError.Failed }
    ensures fit { IfOk result AreFitting }
{
    match log {
        Some(log) => lock_log(alloc, kind, log),
        None => Ok(Locked {
            early: List::new(alloc),
            late: List::new(alloc),
        }),
    }
}

/// The records of the two files, of the log at the path that is named or at the usual one.
fn lock_at<F: Files>(
    alloc: Global,
    files: &mut F,
    kind: FirmwareKind,
    named: Option<&Name>,
) -> Result<Locked, InputError>
    ensures cause { HasCause (F.faults files.old) (F.faults files.new) (result ≡ Err InputError.Failed) }
    ensures told { (held : FileMap) → F.held files.old ≡ Some held → Answers halves result (halves_in kind (option_copied named.entry) held) }
    ensures fit { IfOk result AreFitting }
    ensures same { F.held files.new ≡ F.held files.old }
{
    let log = read_firmware_log(alloc, files, named)?;
    lock_read(alloc, kind, &log)
}

/// What stands in a file of the records.
#[tactic(auto, unfolding(crate::specs::MadeFiles::made_text))]
fn made_text(alloc: Global, records: &[CelRecord]) -> Result<Vec<u8>, Memory>
    requires { length records.now ≤ record_limit }
    ensures { IfOk result (λ text. text.items ≡ text_of_made (map spelled records.now)) }
{
    component_text(alloc, records)
}

/// The file of the records before the separators.
fn early_file(
    alloc: Global,
    kind: FirmwareKind,
    folder: &Name,
    variant: &Name,
    locked: &Locked,
) -> Result<MadeFile, Memory>
    requires { AreFitting locked.now }
    ensures path { IfOk result (λ file. file.path ≡ path_of_early kind folder.now variant.now) }
    ensures bytes { IfOk result (λ file. file.bytes.items ≡ text_of_made (map spelled locked.now.early)) }
{
    let path = early_path(alloc, kind, folder, variant)?;
    let bytes = made_text(alloc, locked.early.as_slice())?;
    Ok(MadeFile { path, bytes })
}

/// The file of the records behind them.
fn late_file(
    alloc: Global,
    kind: FirmwareKind,
    folder: &Name,
    variant: &Name,
    locked: &Locked,
) -> Result<MadeFile, Memory>
    requires { AreFitting locked.now }
    ensures path { IfOk result (λ file. file.path ≡ path_of_late kind folder.now variant.now) }
    ensures bytes { IfOk result (λ file. file.bytes.items ≡ text_of_made (map spelled locked.now.late)) }
{
    let path = late_path(alloc, kind, folder, variant)?;
    let bytes = made_text(alloc, locked.late.as_slice())?;
    Ok(MadeFile { path, bytes })
}

/// The line that counts the records of both files.
fn numbers_line(alloc: Global, locked: &Locked) -> Result<Vec<u8>, Memory>
    requires { AreFitting locked.now }
    ensures { IfOk result (λ line. line.items ≡ locked_text (length locked.now.early) (Some (length locked.now.late))) }
{
    let early = locked.early.len() as u32;
    let late = locked.late.len() as u32;
    locked_line(alloc, early, Some(late))
}

/// Writes a file. After a stop it is the old or the new one.
fn write_file<F: Files>(alloc: Global, files: &mut F, file: &MadeFile) -> Result<(), Stop>
    ensures causes { HasCauses (F.faults files.old, 0, 0, 0) (F.faults files.new, 0, 0, 0) result }
    ensures told { (held : FileMap) → F.held files.old ≡ Some held
        → OnOk result (F.held files.new ≡ Some (insert held file.now.path file.now.bytes.items)) }
    ensures stops { (held : FileMap) → F.held files.old ≡ Some held
        → IfErr result (λ _. (F.held files.new ≡ Some held) ⊎ (F.held files.new ≡ Some (insert held file.now.path file.now.bytes.items))) }
{
    replace_file(alloc, files, file.path.text(), file.bytes.as_slice())
}

/// Writes one file, and then the other.
fn write_both<F: Files>(
    alloc: Global,
    files: &mut F,
    first: &MadeFile,
    second: &MadeFile,
) -> Result<(), Stop>
    ensures causes { HasCauses (F.faults files.old, 0, 0, 0) (F.faults files.new, 0, 0, 0) result }
    ensures told { (held : FileMap) → F.held files.old ≡ Some held
        → OnOk result (F.held files.new ≡ Some (files_then (both first.now second.now) held)) }
    ensures stops { (held : FileMap) → F.held files.old ≡ Some held
        → IfErr result (λ _. HoldsOneOf (F.held files.new) (files_between (both first.now second.now) held)) }
{
    match write_file(alloc, files, first) {
        Ok(()) => write_file(alloc, files, second),
        Err(stop) => Err(stop),
    }
}

/// Writes the two files of the records, and gives the line that counts these.
fn write_halves<F: Files>(
    alloc: Global,
    files: &mut F,
    kind: FirmwareKind,
    folder: &Name,
    variant: &Name,
    locked: &Locked,
) -> Result<Reply, Stop>
    requires { AreFitting locked.now }
    ensures causes { HasCauses (F.faults files.old, 0, 0, 0) (F.faults files.new, 0, 0, 0) result }
    ensures told { (held : FileMap) → F.held files.old ≡ Some held
        → IfOk result (λ reply. IsDone held (F.held files.new) reply (Ok (written kind folder.now variant.now (halves locked.now)))) }
    ensures stops { (held : FileMap) → F.held files.old ≡ Some held
        → IfErr result (λ _. HoldsOneOf (F.held files.new) (files_between (changes_in (Ok (written kind folder.now variant.now (halves locked.now)))) held)) }
{
    let Ok(early) = early_file(alloc, kind, folder, variant, locked) else {
        return Err(Stop::Memory);
    };
    let Ok(late) = late_file(alloc, kind, folder, variant, locked) else {
        return Err(Stop::Memory);
    };
    let Ok(line) = numbers_line(alloc, locked) else {
        return Err(Stop::Memory);
    };
    match write_both(alloc, files, &early, &late) {
        Ok(()) => Ok(Reply::Fine(line)),
        Err(stop) => Err(stop),
    }
}

/// Writes two component files of what the firmware's log says of the PCRs: the records before the
/// first separator of their PCR, and those behind it. They are the variant of the components
/// `250-firmware-code-early` and `550-firmware-code-late` in the folder, or of those with `config` for
/// `code`. It prints `locked` and the numbers of early and of late records.
///
/// The log stands at the path that is named, which has to be there, or at the usual one, where a log
/// that isn't there is empty. Over an empty log both files have no records.
///
/// The answers for which it writes nothing, the first whose cause holds:
///
/// | Answer | Cause |
/// |---|---|
/// | `NoSuchFile` | a log that is named isn't there |
/// | `Limit`, `firmware-bytes` | it has this many bytes, more than 4,194,304 |
/// | `Malformed` | at this place it can't be read |
/// | `Limit`, `firmware-records` 16385 | it has more than 16,384 records |
/// | `NoSeparator` | this is the least of the PCRs with records and no separator |
/// | `Limit`, `records` 257 | one of the files would have more than 256 records |
///
/// It stops with `ReadFault`, `WriteFault` or `Memory`. After a stop none of the files is written, the
/// early one alone, or both.
pub fn lock_firmware<F: Files>(
    alloc: Global,
    files: &mut F,
    kind: FirmwareKind,
    named: Option<&Name>,
    folder: &Name,
    variant: &Name,
) -> Result<Reply, Stop>
    ensures causes { HasCauses (F.faults files.old, 0, 0, 0) (F.faults files.new, 0, 0, 0) result }
    ensures told { (stored : Maybe Stored) (words : Maybe (Sequence (Sequence ℕ))) (m : Machine) → Tells (F.held files.old) stored words m
        → IfOk result (λ reply. Gives (F.held files.new) stored words reply (lock_firmware_line kind (option_copied named.entry) folder.now variant.now m)) }
    ensures stops { (stored : Maybe Stored) (words : Maybe (Sequence (Sequence ℕ))) (m : Machine) → Tells (F.held files.old) stored words m
        → IfErr result (λ _. StandsAmong (F.held files.new) stored (lock_firmware_line kind (option_copied named.entry) folder.now variant.now m).stops) }
{
    match lock_at(alloc, files, kind, named) {
        Ok(locked) => write_halves(alloc, files, kind, folder, variant, &locked),
        Err(InputError::Refused(answer)) => Ok(Reply::Refused(answer)),
        Err(InputError::Failed) => Err(Stop::ReadFault),
        Err(InputError::Memory) => Err(Stop::Memory),
    }
}
