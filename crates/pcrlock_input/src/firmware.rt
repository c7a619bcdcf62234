//! The firmware's event log.
ghost use Rattle.std.specs.Prelude.{◌≡◌, ◌≢◌, ◌≤◌, length, is_some, option_copied, Some, Err, IfOk, IfSome};
ghost use Rattle.pl_base.specs.Faults.{HasCause};
ghost use Rattle.pl_base.specs.FileMap.{FileMap};
ghost use Rattle.tcg_log.specs.Allowed.{IsWritable};
ghost use Rattle.tcg_log.specs.Reading.{log_at};
ghost use Rattle.pcrlock_line.specs.Content.{content_found};
ghost use Rattle.pcrlock_input.specs.Answering.{Answers, IsShort};
ghost use Rattle.pcrlock_input.specs.Firmware.{firmware_limit, firmware_read, firmware_in, firmware_of};

use crate::error::InputError;
use crate::path::{is_named, path_or};
use crate::reading::read_input;
use pcrlock_answer::{limit, malformed_at, no_such_file};
use pcrlock_line::Found;
use pl_base::{Files, Name};
use std::alloc::Global;
use tcg_log::{FirmwareLog, LogError, read_log};

/// Where the kernel shows the log (Linux, securityfs), which is read where no option names another.
const USUAL_PATH: &str = "/sys/kernel/security/tpm0/binary_bios_measurements";

/// The most bytes that the log may have.
const BYTE_LIMIT: u64 = 4_194_304;

/// The log that the bytes spell.
fn log_in(alloc: Global, path: &str, bytes: &[u8]) -> Result<Option<FirmwareLog>, InputError>
    requires { length bytes.now ≤ firmware_limit }
    ensures told { Answers (λ log. log) result (firmware_read path.now (log_at bytes.now)) }
    ensures fine { result ≢ Err InputError.Failed }
    ensures writable { IfOk result (λ log. IfSome log IsWritable) }
{
    match read_log(alloc, bytes) {
        Ok(log) => Ok(Some(log)),
        Err(LogError::Malformed { place, .. }) => {
            Err(InputError::Refused(malformed_at(alloc, path, place)?))
        }
        Err(LogError::TooMany) => {
            Err(InputError::Refused(limit(alloc, "firmware-records", 16_385)?))
        }
        Err(LogError::Memory) => Err(InputError::Memory),
    }
}

/// The log of what stands at the path, which has to be there where an option names it.
fn log_found(
    alloc: Global,
    named: bool,
    path: &str,
    found: &Found,
) -> Result<Option<FirmwareLog>, InputError>
    requires { IsShort firmware_limit found.now }
    ensures told { Answers (λ log. log) result (firmware_in named path.now (content_found found.now)) }
    ensures fine { result ≢ Err InputError.Failed }
    ensures writable { IfOk result (λ log. IfSome log IsWritable) }
{
    match found {
        Found::Missing if named => Err(InputError::Refused(no_such_file(alloc, path)?)),
        Found::Missing => Ok(None),
        Found::TooLarge(size) => {
            Err(InputError::Refused(limit(alloc, "firmware-bytes", *size)?))
        }
        Found::Bytes(bytes) => log_in(alloc, path, bytes),
    }
}

/// The firmware's event log at the path that is named, else that at the path at which Linux shows
/// it. No log is there only where none is named and none stands at the usual path.
///
/// # Errors
///
/// `Refused` with `NoSuchFile` where a log that is named isn't there; with `Limit` of
/// `firmware-bytes` where it has this many bytes, more than 4,194,304; with `Malformed` at the place
/// of the first field that can't be read; and with `Limit` of `firmware-records` where it has more
/// than 16,384 records. The files stay as they are.
pub fn read_firmware_log<F: Files>(
    alloc: Global,
    files: &mut F,
    named: Option<&Name>,
) -> Result<Option<FirmwareLog>, InputError>
    ensures cause { HasCause (F.faults files.old) (F.faults files.new) (result ≡ Err InputError.Failed) }
    ensures told { (held : FileMap) → F.held files.old ≡ Some held → Answers (λ log. log) result (firmware_of held (option_copied named.entry)) }
    ensures writable { IfOk result (λ log. IfSome log IsWritable) }
    ensures same { F.held files.new ≡ F.held files.old }
{
    let path = path_or(named, USUAL_PATH);
    let found = read_input(alloc, files, path, BYTE_LIMIT)?;
    log_found(alloc, is_named(named), path, &found)
}
