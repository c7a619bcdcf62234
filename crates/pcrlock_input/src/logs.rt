//! Both logs of a boot.
ghost use Rattle.std.specs.Prelude.{◌≡◌, ◌≤◌, length, option_copied, Some, Err, IfOk};
ghost use Rattle.pl_base.specs.Faults.{HasCause};
ghost use Rattle.pl_base.specs.FileMap.{FileMap};
ghost use Rattle.pcr_replay.specs.Row.{rows};
ghost use Rattle.pcrlock_input.specs.Answering.{Answers};
ghost use Rattle.pcrlock_input.specs.Logs.{AreRead, IsLocality, locality_in, logs_of, plain_logs, rows_of};

use crate::error::InputError;
use crate::firmware::read_firmware_log;
use crate::user::read_user_log;
use pcr_replay::LogRecord;
use pl_base::{Files, List, Memory, Name};
use std::alloc::Global;
use tcg_log::FirmwareLog;
use userspace_log::UserLog;

/// What the firmware and what userspace logged.
#[derive(Debug, Drop)]
pub struct Logs {
    /// The firmware's log, if there is one.
    pub firmware: Option<FirmwareLog>,
    /// The log of userspace.
    pub user: UserLog,
}

/// The locality that the firmware announced, 0 where it has no log.
fn announced(firmware: &Option<FirmwareLog>) -> u8
    ensures { result ≡ locality_in firmware.now }
{
    match firmware {
        Some(log) => tcg_log::locality(log),
        None => 0,
    }
}

impl Logs {
    /// What was extended: the firmware's records that are not of the type EV_NO_ACTION, in order, and
    /// then those of userspace. Together they are at most 20,480.
    pub fn combined(&self, alloc: Global) -> Result<List<LogRecord>, Memory>
        requires { AreRead self.now }
        ensures told { IfOk result (λ list. rows list ≡ rows_of (plain_logs self.now)) }
        ensures few { IfOk result (λ list. length list ≤ 20480) }
    {
        pcr_replay::combined(alloc, self.firmware.as_ref(), self.user.records.as_slice())
    }

    /// The locality that the firmware announced, 0 where it didn't or has no log: 0, 3 or 4.
    pub fn locality(&self) -> u8
        ensures told { result ≡ locality_in self.now.firmware }
        ensures known { IsLocality result }
    {
        announced(&self.firmware)
    }
}

/// Both logs, the firmware's first, each at the path that is named or at the usual one.
///
/// # Errors
///
/// Those of [`read_firmware_log`], then those of [`read_user_log`]. The files stay as they are.
pub fn read_logs<F: Files>(
    alloc: Global,
    files: &mut F,
    firmware: Option<&Name>,
    user: Option<&Name>,
) -> Result<Logs, InputError>
    ensures cause { HasCause (F.faults files.old) (F.faults files.new) (result ≡ Err InputError.Failed) }
    ensures told { (held : FileMap) → F.held files.old ≡ Some held → Answers plain_logs result (logs_of held (option_copied firmware.entry) (option_copied user.entry)) }
    ensures read { IfOk result AreRead }
    ensures same { F.held files.new ≡ F.held files.old }
{
    let firmware = read_firmware_log(alloc, files, firmware)?;
    let user = read_user_log(alloc, files, user)?;
    Ok(Logs { firmware, user })
}
