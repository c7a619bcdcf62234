//! The records before the separators of their PCRs, and those behind them.
ghost use Rattle.std.specs.Prelude.{◌≡◌, ◌≤◌, ◌+◌, List, [], ◌∷◌, ◌++◌, true, length, map, IfSome, OnOk};
ghost use Rattle.std.specs.Option.{option_to_list};
ghost use Rattle.hash_bank.specs.Hash.{size_in};
ghost use Rattle.tcg_log.specs.Allowed.{IsWritable, has_pcr};
ghost use Rattle.cel_record.specs.ComponentText.{record_limit};
ghost use Rattle.cel_record.specs.Spelled.{spelled};
ghost use Rattle.pcr_replay.specs.Sized.{AreSized};
ghost use Rattle.pcr_replay.specs.Row.{Row};
ghost use Rattle.pcr_replay.specs.Combined.{tagged_in, firmware_row, extended_row, firmware_rows};
ghost use Rattle.component_make.specs.EarlyLate.{unplaced};
ghost use Rattle.component_make.specs.Parting.{front, side_by, IsParted, IsMarked};

use crate::locked::Locked;
use crate::marks::Marks;
use cel_record::CelRecord;
use hash_bank::{Bank, Digest, Digests};
use pl_base::{List, Memory};
use policy_digest::is_in_mask;
use tcg_log::{EV_NO_ACTION, FirmwareLog, FirmwareRecord, Tagged};

/// The type of the records by which the firmware marks that it hands over (EV_SEPARATOR).
const EV_SEPARATOR: u32 = 4;

/// How many records a component file may have.
pub(crate) const RECORD_LIMIT: usize = 256;

/// Where a record stands to the separator of its PCR.
#[derive(Drop)]
enum Side {
    /// Before it.
    Early,
    /// Behind it.
    Late,
    /// It is the separator, or of a PCR that is left out.
    Neither,
}

/// The digest that a firmware record has for the bank.
fn digest_of(digests: &[Tagged], bank: Bank) -> Option<Digest>
    requires { AreSized digests.now }
    ensures value { result ≡ tagged_in bank digests.now }
    ensures size { IfSome result (λ d. length d ≡ size_in bank) }
{
    let number = bank.algorithm();
    digests
        .iter()
        .find(|t| t.algorithm == number)
        .map(|t| t.digest)
}

/// Puts the record at the end.
fn push_record(list: &mut List<CelRecord>, measured: &FirmwareRecord) -> Result<(), Memory>
    requires sized { AreSized measured.now.digests }
    requires in_range { measured.now.pcr ≤ 23 }
    ensures { OnOk result (map spelled list.new ≡ map spelled list.old ++ unplaced (firmware_row measured.now) ∷ []) }
{
    let digests = measured.digests.as_slice();
    let sha1 = digest_of(digests, Bank::Sha1);
    let sha256 = digest_of(digests, Bank::Sha256);
    let sha384 = digest_of(digests, Bank::Sha384);
    let sha512 = digest_of(digests, Bank::Sha512);
    list.push(CelRecord {
        pcr: measured.pcr as u8,
        digests: Digests {
            sha1,
            sha256,
            sha384,
            sha512,
        },
    })?;
    Ok(())
}

/// Puts the record at the end, unless the list is too long for a component file already.
fn put(list: &mut List<CelRecord>, measured: &FirmwareRecord) -> Result<(), Memory>
    requires sized { AreSized measured.now.digests }
    requires in_range { measured.now.pcr ≤ 23 }
    requires short { length list.old ≤ record_limit + 1 }
    ensures { OnOk result (map spelled list.new ≡ front (map spelled list.old ++ unplaced (firmware_row measured.now) ∷ [])) }
{
    if list.len() > RECORD_LIMIT {
        return Ok(());
    }
    push_record(list, measured)?;
    Ok(())
}

/// On which side of its PCR's separator a record stands, by whether its PCR is one of the mask, whether a
/// separator of the PCR stands before it, and whether it is one.
fn side_of(is_inside: bool, is_behind: bool, separates: bool) -> Side
    ensures { result ≡ side_by is_inside is_behind separates }
{
    if !is_inside {
        Side::Neither
    } else if is_behind {
        Side::Late
    } else if separates {
        Side::Neither
    } else {
        Side::Early
    }
}

/// Takes in one more record of the log.
fn part_record(
    locked: &mut Locked,
    marks: &mut Marks,
    pcrs: u32,
    measured: &FirmwareRecord,
) -> Result<(), Memory>
    requires sized { AreSized measured.now.digests }
    requires in_range { has_pcr measured.now.kind measured.now.pcr ≡ true }
    requires early_short { length locked.old.early ≤ record_limit + 1 }
    requires late_short { length locked.old.late ≤ record_limit + 1 }
    ensures { OnOk result ((rows : List Row) → IsParted pcrs rows locked.old → IsMarked rows marks.old
        → IsParted pcrs (rows ++ option_to_list (extended_row measured.now)) locked.new
        × IsMarked (rows ++ option_to_list (extended_row measured.now)) marks.new) }
{
    if measured.kind == EV_NO_ACTION {
        return Ok(());
    }
    let pcr = measured.pcr as u8;
    let separates = measured.kind == EV_SEPARATOR;
    let is_behind = marks.is_separated(pcr);
    let is_inside = is_in_mask(pcrs, pcr);
    marks.mark(pcr, separates);
    match side_of(is_inside, is_behind, separates) {
        Side::Early => put(&mut locked.early, measured),
        Side::Late => put(&mut locked.late, measured),
        Side::Neither => Ok(()),
    }
}

/// Takes in the log's records, in order.
pub(crate) fn part_log(
    locked: &mut Locked,
    marks: &mut Marks,
    pcrs: u32,
    log: &FirmwareLog,
) -> Result<(), Memory>
    requires writable { IsWritable log.now }
    requires parted { IsParted pcrs [] locked.old }
    requires marked { IsMarked [] marks.old }
    ensures parted { OnOk result (IsParted pcrs (firmware_rows log.now.records) locked.new) }
    ensures marked { OnOk result (IsMarked (firmware_rows log.now.records) marks.new) }
{
    for measured in log.records.as_slice() {
        part_record(locked, marks, pcrs, measured)?;
    }
    Ok(())
}
