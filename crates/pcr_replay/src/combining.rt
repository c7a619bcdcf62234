ghost use Rattle.std.specs.Prelude.{◌≡◌, ◌++◌, IfOk, OnOk, IfSome, true, map, option_copied, length};
ghost use Rattle.std.specs.Option.{option_to_list};
ghost use Rattle.hash_bank.specs.Hash.{size_in};
ghost use Rattle.tcg_log.specs.Allowed.{IsWritable, has_pcr};
ghost use Rattle.pcr_replay.specs.Row.{rows};
ghost use Rattle.pcr_replay.specs.Combined.{tagged_in, extended_row, firmware_rows, user_row, combined_of};
ghost use Rattle.pcr_replay.specs.Sized.{AreSized};

use crate::record::{LogRecord, Origin};
use cel_record::CelRecord;
use hash_bank::{Bank, Digest, Digests};
use pl_base::{List, Memory};
use std::alloc::Global;
use tcg_log::{EV_NO_ACTION, FirmwareLog, FirmwareRecord, Tagged};

/// The digest that a firmware record has for the bank.
fn digest_of(digests: &[Tagged], bank: Bank) -> Option<Digest>
    requires { AreSized digests.now }
    ensures value { result ≡ tagged_in bank digests.now }
    ensures size { IfSome result (λ d. length d ≡ size_in bank) }
{
    let number = bank.algorithm();
    digests
        .iter()
        .find(|t| t.algorithm == number)
        .map(|t| t.digest)
}

/// Puts the record at the end, where the firmware extended it.
fn put_extended(list: &mut List<LogRecord>, measured: &FirmwareRecord) -> Result<(), Memory>
    requires sized { AreSized measured.now.digests }
    requires in_range { has_pcr measured.now.kind measured.now.pcr ≡ true }
    ensures { OnOk result (rows list.new ≡ rows list.old ++ option_to_list (extended_row measured.now)) }
{
    if measured.kind == EV_NO_ACTION {
        return Ok(());
    }
    let digests = measured.digests.as_slice();
    let sha1 = digest_of(digests, Bank::Sha1);
    let sha256 = digest_of(digests, Bank::Sha256);
    let sha384 = digest_of(digests, Bank::Sha384);
    let sha512 = digest_of(digests, Bank::Sha512);
    list.push(LogRecord {
        origin: Origin::Firmware(measured.kind),
        pcr: measured.pcr as u8,
        digests: Digests {
            sha1,
            sha256,
            sha384,
            sha512,
        },
    })?;
    Ok(())
}

/// Puts what the firmware extended at the end.
fn put_firmware(list: &mut List<LogRecord>, log: &FirmwareLog) -> Result<(), Memory>
    requires { IsWritable log.now }
    ensures { OnOk result (rows list.new ≡ rows list.old ++ firmware_rows log.now.records) }
{
    for measured in log.records.as_slice() {
        put_extended(list, measured)?;
    }
    Ok(())
}

/// Puts what userspace extended at the end.
fn put_user(list: &mut List<LogRecord>, user: &[CelRecord]) -> Result<(), Memory>
    ensures { OnOk result (rows list.new ≡ rows list.old ++ map user_row user.now) }
{
    for record in user {
        list.push(LogRecord {
            origin: Origin::User,
            pcr: record.pcr,
            digests: record.digests,
        })?;
    }
    Ok(())
}

/// What the firmware extended, in order, and then what userspace did. A firmware log that was read
/// is writable.
pub fn combined(
    alloc: Global,
    firmware: Option<&FirmwareLog>,
    user: &[CelRecord],
) -> Result<List<LogRecord>, Memory>
    requires { IfSome firmware (λ log. IsWritable log.now) }
    ensures { IfOk result (λ list. rows list ≡ combined_of (option_copied firmware.entry) user.now) }
{
    let mut list = List::new(alloc);
    if let Some(log) = firmware {
        put_firmware(&mut list, log)?;
    }
    put_user(&mut list, user)?;
    Ok(list)
}
