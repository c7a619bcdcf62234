//! `lock-raw`: a component file of the one record that some bytes are measured as.
ghost use Rattle.std.specs.Prelude.{◌≡◌, ◌≤◌, ℕ, List as Sequence, Option as Maybe, Some, IfOk, IfErr};
ghost use Rattle.pl_base.specs.FileMap.{FileMap};
ghost use Rattle.tpm_device.specs.Stored.{Stored};
ghost use Rattle.pcrlock_line.specs.Causes.{HasCauses};
ghost use Rattle.pcrlock_line.specs.Content.{content_found, Bytes};
ghost use Rattle.pcrlock_line.specs.Machine.{Machine, Tells};
ghost use Rattle.pcrlock_line.specs.Outcome.{Gives};
ghost use Rattle.pcrlock_line.specs.Stopped.{StandsAmong};
ghost use Rattle.pcrlock_deeds.specs.Acts.{files_between};
ghost use Rattle.pcrlock_lock.specs.Between.{HoldsOneOf};
ghost use Rattle.pcrlock_lock.specs.Changing.{IsDone, changes_in};
ghost use Rattle.pcrlock_lock.specs.LockRaw.{raw_text as text_of_raw, raw_by, lock_raw_line};

use component_make::{component_text, raw};
use pcrlock_answer::{limit, locked_line, no_such_file};
use pcrlock_line::{Found, Reply, Stop, read_file, replace_file};
use pl_base::{Files, Memory, Name};
use std::alloc::Global;

/// The most bytes that are measured.
const BYTE_LIMIT: u64 = 4_194_304;

/// The text of a component file of the bytes' one record.
#[tactic(auto, unfolding(crate::specs::LockRaw::raw_text))]
fn raw_text(alloc: Global, pcr: u8, bytes: &[u8]) -> Result<Vec<u8>, Memory>
    requires { pcr ≤ 23 }
    ensures { IfOk result (λ text. text.items ≡ text_of_raw pcr bytes.now) }
{
    component_text(alloc, &[raw(pcr, bytes)])
}

/// Writes the file of the bytes' record.
fn write_raw<F: Files>(
    alloc: Global,
    files: &mut F,
    pcr: u8,
    output: &Name,
    bytes: &[u8],
) -> Result<Reply, Stop>
    requires { pcr ≤ 23 }
    ensures causes { HasCauses (F.faults files.old, 0, 0, 0) (F.faults files.new, 0, 0, 0) result }
    ensures told { (held : FileMap) (file : Sequence ℕ) → F.held files.old ≡ Some held
        → IfOk result (λ reply. IsDone held (F.held files.new) reply (raw_by file pcr output.now (Bytes bytes.now))) }
    ensures stops { (held : FileMap) (file : Sequence ℕ) → F.held files.old ≡ Some held
        → IfErr result (λ _. HoldsOneOf (F.held files.new) (files_between (changes_in (raw_by file pcr output.now (Bytes bytes.now))) held)) }
{
    let Ok(text) = raw_text(alloc, pcr, bytes) else {
        return Err(Stop::Memory);
    };
    let Ok(line) = locked_line(alloc, 1, None) else {
        return Err(Stop::Memory);
    };
    match replace_file(alloc, files, output.text(), text.as_slice()) {
        Ok(()) => Ok(Reply::Fine(line)),
        Err(stop) => Err(stop),
    }
}

/// Writes the file of the record of what was found, or answers why there is none.
fn lock_found<F: Files>(
    alloc: Global,
    files: &mut F,
    file: &Name,
    pcr: u8,
    output: &Name,
    found: &Found,
) -> Result<Reply, Stop>
    requires { pcr ≤ 23 }
    ensures causes { HasCauses (F.faults files.old, 0, 0, 0) (F.faults files.new, 0, 0, 0) result }
    ensures told { (held : FileMap) → F.held files.old ≡ Some held
        → IfOk result (λ reply. IsDone held (F.held files.new) reply (raw_by file.now pcr output.now (content_found found.now))) }
    ensures stops { (held : FileMap) → F.held files.old ≡ Some held
        → IfErr result (λ _. HoldsOneOf (F.held files.new) (files_between (changes_in (raw_by file.now pcr output.now (content_found found.now))) held)) }
{
    match found {
        Found::Missing => match no_such_file(alloc, file.text()) {
            Ok(answer) => Ok(Reply::Refused(answer)),
            Err(_) => Err(Stop::Memory),
        },
        Found::TooLarge(size) => match limit(alloc, "raw-bytes", *size) {
            Ok(answer) => Ok(Reply::Refused(answer)),
            Err(_) => Err(Stop::Memory),
        },
        Found::Bytes(bytes) => write_raw(alloc, files, pcr, output, bytes.as_slice()),
    }
}

/// Measures the bytes of the file and writes a component file of the one record of their hashes in
/// the PCR to the path `output`. It prints `locked 1`.
///
/// The answers for which it writes nothing, the first whose cause holds:
///
/// | Answer | Cause |
/// |---|---|
/// | `NoSuchFile` | the file isn't there |
/// | `Limit`, `raw-bytes` | it has this many bytes, more than 4,194,304 |
///
/// It stops with `ReadFault`, `WriteFault` or `Memory`. After a stop the output is the old or the new
/// one.
pub fn lock_raw<F: Files>(
    alloc: Global,
    files: &mut F,
    file: &Name,
    pcr: u8,
    output: &Name,
) -> Result<Reply, Stop>
    requires { pcr ≤ 23 }
    ensures causes { HasCauses (F.faults files.old, 0, 0, 0) (F.faults files.new, 0, 0, 0) result }
    ensures told { (stored : Maybe Stored) (words : Maybe (Sequence (Sequence ℕ))) (m : Machine) → Tells (F.held files.old) stored words m
        → IfOk result (λ reply. Gives (F.held files.new) stored words reply (lock_raw_line file.now pcr output.now m)) }
    ensures stops { (stored : Maybe Stored) (words : Maybe (Sequence (Sequence ℕ))) (m : Machine) → Tells (F.held files.old) stored words m
        → IfErr result (λ _. StandsAmong (F.held files.new) stored (lock_raw_line file.now pcr output.now m).stops) }
{
    match read_file(alloc, files, file.text(), BYTE_LIMIT) {
        Ok(found) => lock_found(alloc, files, file, pcr, output, &found),
        Err(stop) => Err(stop),
    }
}
