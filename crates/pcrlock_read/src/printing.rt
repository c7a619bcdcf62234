//! `cel`: the combined log of a boot as one text of the TCG's Canonical Event Log in JSON.
ghost use Rattle.std.specs.Prelude.{◌≡◌, ℕ, length, map, option_copied, List as Sequence, Option as Maybe, Some, Err, IfOk, IfErr};
ghost use Rattle.pl_base.specs.Faults.{HasCause};
ghost use Rattle.pl_base.specs.FileMap.{FileMap};
ghost use Rattle.cel_record.specs.Spelled.{spelled};
ghost use Rattle.pcr_replay.specs.Row.{rows};
ghost use Rattle.tpm_device.specs.Stored.{Stored};
ghost use Rattle.pcrlock_line.specs.Causes.{HasCauses};
ghost use Rattle.pcrlock_line.specs.Machine.{Machine, Tells};
ghost use Rattle.pcrlock_line.specs.Outcome.{Gives};
ghost use Rattle.pcrlock_input.specs.Answering.{Answers};
ghost use Rattle.pcrlock_input.specs.Logs.{AreRead, plain_logs};
ghost use Rattle.pcrlock_read.specs.Cel.{measured, cel_text as text_of, cel_of, cel_line};

use cel_record::{CelRecord, write_cel};
use hash_bank::Digest;
use pcr_replay::LogRecord;
use pcrlock_input::{InputError, Logs, read_logs};
use pcrlock_line::{Reply, Stop};
use pl_base::{Files, List, Memory, Name};
use std::alloc::Global;

/// The records of the combined log, without who measured them.
fn records_of(alloc: Global, list: &[LogRecord]) -> Result<List<CelRecord>, Memory>
    ensures told { IfOk result (λ records. map spelled records ≡ map measured (rows list.now)) }
    ensures as_many { IfOk result (λ records. length records ≡ length list.now) }
{
    let mut records = List::new(alloc);
    for entry in list {
        let digests = entry.digests;
        // A move of a record is checked only where the types in it are named.
        let _sha1: &Option<Digest> = &digests.sha1;
        records.push(CelRecord {
            pcr: entry.pcr,
            digests,
        })?;
    }
    Ok(records)
}

/// The text of what both logs say.
fn cel_text(alloc: Global, logs: &Logs) -> Result<Vec<u8>, Memory>
    requires { AreRead logs.now }
    ensures { IfOk result (λ text. text.items ≡ text_of (plain_logs logs.now)) }
{
    let list = logs.combined(alloc)?;
    let records = records_of(alloc, list.as_slice())?;
    let mut text = write_cel(alloc, records.as_slice())?;
    text.push(b'\n')?;
    Ok(text)
}

/// The text of the logs at the paths that are named, or at the usual ones.
fn cel_at<F: Files>(
    alloc: Global,
    files: &mut F,
    firmware: Option<&Name>,
    user: Option<&Name>,
) -> Result<Vec<u8>, InputError>
    ensures cause { HasCause (F.faults files.old) (F.faults files.new) (result ≡ Err InputError.Failed) }
    ensures told { (held : FileMap) → F.held files.old ≡ Some held → Answers (λ text. text.items) result (cel_of held (option_copied firmware.entry) (option_copied user.entry)) }
    ensures same { F.held files.new ≡ F.held files.old }
{
    let logs = read_logs(alloc, files, firmware, user)?;
    Ok(cel_text(alloc, &logs)?)
}

/// Prints the records of the firmware's log that were extended, and then those of userspace, as one
/// text of the TCG's Canonical Event Log in JSON: each with its PCR and its digests, numbered from 0.
/// Who measured a record isn't told.
///
/// Each log stands at the path that is named, which has to be there, or at the usual one, where a log
/// that isn't there is empty.
///
/// The answers for which it prints nothing, the first whose cause holds, first for the firmware's log
/// and then for that of userspace:
///
/// | Answer | Cause |
/// |---|---|
/// | `NoSuchFile` | a log that is named isn't there |
/// | `Limit`, `firmware-bytes`, `userspace-bytes` | it has this many bytes, more than 4,194,304 or 1,048,576 |
/// | `Malformed` | at this place, or in this text of userspace, it can't be read |
/// | `Limit`, `firmware-records`, `userspace-records` | it has more than 16,384 records or 4,096 texts |
///
/// The files stay as they are. It stops with `ReadFault` or `Memory`.
pub fn cel<F: Files>(
    alloc: Global,
    files: &mut F,
    firmware: Option<&Name>,
    user: Option<&Name>,
) -> Result<Reply, Stop>
    ensures causes { HasCauses (F.faults files.old, 0, 0, 0) (F.faults files.new, 0, 0, 0) result }
    ensures told { (stored : Maybe Stored) (words : Maybe (Sequence (Sequence ℕ))) (m : Machine) → Tells (F.held files.old) stored words m
        → IfOk result (λ reply. Gives (F.held files.new) stored words reply (cel_line (option_copied firmware.entry) (option_copied user.entry) m)) }
    ensures stops { (stored : Maybe Stored) (words : Maybe (Sequence (Sequence ℕ))) (m : Machine) → Tells (F.held files.old) stored words m
        → IfErr result (λ _. Tells (F.held files.new) stored words m) }
    ensures same { F.held files.new ≡ F.held files.old }
{
    match cel_at(alloc, files, firmware, user) {
        Ok(text) => Ok(Reply::Fine(text)),
        Err(InputError::Refused(answer)) => Ok(Reply::Refused(answer)),
        Err(InputError::Failed) => Err(Stop::ReadFault),
        Err(InputError::Memory) => Err(Stop::Memory),
    }
}
