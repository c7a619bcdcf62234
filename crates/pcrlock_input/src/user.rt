//! The log of what userspace measured.
ghost use Rattle.std.specs.Prelude.{◌≡◌, ◌≢◌, ◌≤◌, length, option_copied, Some, Err, IfOk};
ghost use Rattle.pl_base.specs.Faults.{HasCause};
ghost use Rattle.pl_base.specs.FileMap.{FileMap};
ghost use Rattle.userspace_log.specs.Found.{found as plain};
ghost use Rattle.userspace_log.specs.UserText.{log_of, text_limit};
ghost use Rattle.pcrlock_line.specs.Content.{content_found};
ghost use Rattle.pcrlock_input.specs.Answering.{Answers, IsShort};
ghost use Rattle.pcrlock_input.specs.User.{user_limit, user_read, user_in, user_of};

use crate::error::InputError;
use crate::path::{is_named, path_or};
use crate::reading::read_input;
use pcrlock_answer::{limit, malformed_at, no_such_file};
use pcrlock_line::Found;
use pl_base::{Files, List, Name};
use std::alloc::Global;
use userspace_log::{SeqError, UserLog, read_seq};

/// Where systemd writes the log, which is read where no option names another.
const USUAL_PATH: &str = "/run/log/systemd/tpm2-measure.log";

/// The most bytes that the log may have.
const BYTE_LIMIT: u64 = 1_048_576;

/// The log that the bytes spell.
fn log_in(alloc: Global, path: &str, bytes: &[u8]) -> Result<UserLog, InputError>
    requires { length bytes.now ≤ user_limit }
    ensures told { Answers plain result (user_read path.now (log_of bytes.now)) }
    ensures fine { result ≢ Err InputError.Failed }
    ensures few { IfOk result (λ log. length log.records ≤ text_limit) }
{
    match read_seq(alloc, bytes) {
        Ok(log) => Ok(log),
        Err(SeqError::BadSeparator(place)) => {
            Err(InputError::Refused(malformed_at(alloc, path, place)?))
        }
        Err(SeqError::BadRecord { number, .. }) => {
            Err(InputError::Refused(malformed_at(alloc, path, number)?))
        }
        Err(SeqError::TooMany) => {
            Err(InputError::Refused(limit(alloc, "userspace-records", 4097)?))
        }
        Err(SeqError::Memory) => Err(InputError::Memory),
    }
}

/// The log of what stands at the path, which has to be there where an option names it.
fn log_found(alloc: Global, named: bool, path: &str, found: &Found) -> Result<UserLog, InputError>
    requires { IsShort user_limit found.now }
    ensures told { Answers plain result (user_in named path.now (content_found found.now)) }
    ensures fine { result ≢ Err InputError.Failed }
    ensures few { IfOk result (λ log. length log.records ≤ text_limit) }
{
    match found {
        Found::Missing if named => Err(InputError::Refused(no_such_file(alloc, path)?)),
        Found::Missing => Ok(UserLog {
            records: List::new(alloc),
            skipped: 0,
        }),
        Found::TooLarge(size) => {
            Err(InputError::Refused(limit(alloc, "userspace-bytes", *size)?))
        }
        Found::Bytes(bytes) => log_in(alloc, path, bytes),
    }
}

/// The log of userspace at the path that is named, else that at the path to which systemd writes it.
/// A log that isn't named and isn't there has no records.
///
/// # Errors
///
/// `Refused` with `NoSuchFile` where a log that is named isn't there; with `Limit` of
/// `userspace-bytes` where it has this many bytes, more than 1,048,576; with `Malformed` at the place
/// where a separator or line feed lacks, or at the number of the first text that is no record; and
/// with `Limit` of `userspace-records` where it has more than 4,096 texts. The files stay as they
/// are.
pub fn read_user_log<F: Files>(
    alloc: Global,
    files: &mut F,
    named: Option<&Name>,
) -> Result<UserLog, InputError>
    ensures cause { HasCause (F.faults files.old) (F.faults files.new) (result ≡ Err InputError.Failed) }
    ensures told { (held : FileMap) → F.held files.old ≡ Some held → Answers plain result (user_of held (option_copied named.entry)) }
    ensures few { IfOk result (λ log. length log.records ≤ text_limit) }
    ensures same { F.held files.new ≡ F.held files.old }
{
    let path = path_or(named, USUAL_PATH);
    let found = read_input(alloc, files, path, BYTE_LIMIT)?;
    log_found(alloc, is_named(named), path, &found)
}
