ghost use Rattle.std.specs.Prelude.{◌≡◌};
ghost use Rattle.tcg_log.specs.Locality.{announced as announced_by, is_startup as is_startup_event, locality_of};

use crate::log::FirmwareLog;
use crate::record::{EV_NO_ACTION, FirmwareRecord};

/// What a StartupLocality event begins with.
const ANNOUNCEMENT: &[u8] = b"StartupLocality\0";

/// Whether it is a StartupLocality event, of 17 bytes.
fn is_startup(event: &[u8]) -> bool
    ensures { result ≡ is_startup_event event.now }
{
    event.len() == 17 && &event[..16] == ANNOUNCEMENT && matches!(event[16], 0 | 3 | 4)
}

/// The locality that a record announces.
fn announced(record: &FirmwareRecord) -> Option<u8>
    ensures { result ≡ announced_by record.now }
{
    let event = record.event.as_slice();
    if record.kind == EV_NO_ACTION && record.pcr == 0 && is_startup(event) {
        Some(event[16])
    } else {
        None
    }
}

/// The locality that the platform started at: the byte of the log's first StartupLocality record,
/// which is of PCR 0 and of the type EV_NO_ACTION, and 0 where there is none.
pub fn locality(log: &FirmwareLog) -> u8
    ensures { result ≡ locality_of log.now }
{
    for record in log.records.as_slice() {
        if let Some(locality) = announced(record) {
            return locality;
        }
    }
    0
}
