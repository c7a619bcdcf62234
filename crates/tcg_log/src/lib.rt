//! The firmware's event log, as the TCG PC Client Platform Firmware Profile lays it out: a Spec ID
//! record, then records with one digest per algorithm, to the end of the bytes. A log is read from
//! bytes that nobody vouches for, with the first fault's place and kind, and written as the one
//! text that is read as it.
#![tactic(auto)]

mod algorithm;
mod error;
mod log;
mod reading;
mod record;
mod spec_id;
mod startup;
mod writable;
mod writing;

pub use error::{LogError, LogKind};
pub use log::{FirmwareLog, LIMIT, RECORDS};
pub use reading::read_log;
pub use record::{EV_NO_ACTION, FirmwareRecord, Tagged};
pub use spec_id::{Algorithm, SpecId};
pub use startup::locality;
pub use writable::is_writable;
pub use writing::write_log;
