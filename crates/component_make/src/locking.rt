ghost use Rattle.std.specs.Prelude.{◌≡◌, ◌<◌, ◌^◌, ℕ, List, true, Some, None, map, IfOk, IsOk};
ghost use Rattle.hash_bank.specs.declared.bank.Bank.{Bank};
ghost use Rattle.policy_digest.specs.Mask.{has_pcr};
ghost use Rattle.tcg_log.specs.Allowed.{IsWritable};
ghost use Rattle.cel_record.specs.Spelled.{spelled};
ghost use Rattle.pcr_replay.specs.Combined.{firmware_rows};
ghost use Rattle.pcr_replay.specs.Measured.{measured_in};
ghost use Rattle.component_tree.specs.PlainTree.{PlainComponent};
ghost use Rattle.record_match.specs.Lacking.{lacking_of};
ghost use Rattle.record_match.specs.Recognition.{recognised};
ghost use Rattle.component_make.specs.Lock.{IsAnswer};
ghost use Rattle.component_make.specs.Split.{IsSplit, first_separator};
ghost use Rattle.component_make.specs.Among.{HoldThree};

use crate::error::LockError;
use crate::locked::Locked;
use crate::marks::Marks;
use crate::parting::{RECORD_LIMIT, part_log};
use pl_base::{List, Memory};
use std::alloc::Global;
use tcg_log::FirmwareLog;

/// What the firmware extended into the PCRs of the mask, in order: the records before the first
/// EV_SEPARATOR of their PCR, and those behind it (TCG PC Client Platform Firmware Profile). A log that
/// was read is writable. So a PCR's digests in a bank are those of the early list, that of its first
/// separator, and those of the late list; and components that offer these three in this order, and else
/// nothing of the PCR, explain it.
///
/// # Errors
///
/// `NoSeparator` with the least PCR of the mask that has records and no separator, else `TooMany` where
/// one of the lists has more than 256 records.
pub fn lock_firmware(alloc: Global, log: &FirmwareLog, pcrs: u32) -> Result<Locked, LockError>
    requires mask { pcrs < 2 ^ 24 }
    requires writable { IsWritable log.now }
    ensures answer { IsAnswer pcrs (firmware_rows log.now.records) result }
    ensures split { IfOk result (λ l. (bank : Bank) (pcr : ℕ) (digests : List (List ℕ)) → has_pcr pcrs pcr ≡ true
        → measured_in bank pcr (firmware_rows log.now.records) ≡ Some digests
        → IsSplit bank pcr (firmware_rows log.now.records) (map spelled l.early) (map spelled l.late) digests) }
    ensures explained { IfOk result (λ l. (bank : Bank) (pcr : ℕ) (digests : List (List ℕ)) (components : List PlainComponent)
        → has_pcr pcrs pcr ≡ true
        → measured_in bank pcr (firmware_rows log.now.records) ≡ Some digests
        → lacking_of bank pcr components ≡ None
        → HoldThree pcr (map spelled l.early) (first_separator pcr (firmware_rows log.now.records)) (map spelled l.late) components
        → IsOk (recognised bank pcr components digests)) }
{
    let mut locked = Locked {
        early: List::new(alloc),
        late: List::new(alloc),
    };
    let mut marks = Marks::new();
    match part_log(&mut locked, &mut marks, pcrs, log) {
        Ok(()) => {}
        Err(Memory) => return Err(LockError::Memory),
    }
    if let Some(pcr) = marks.first_lacking(pcrs) {
        return Err(LockError::NoSeparator(pcr));
    }
    if locked.early.len() > RECORD_LIMIT || locked.late.len() > RECORD_LIMIT {
        return Err(LockError::TooMany);
    }
    Ok(locked)
}
