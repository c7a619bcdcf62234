//! Component files (systemd.pcrlock(5)) that are made from what a machine measured: the firmware's
//! records before and after the separators of their PCRs, with the paths of their files, or one record of
//! some bytes.
#![tactic(auto)]

mod error;
mod kind;
mod locked;
mod locking;
mod marks;
mod parting;
mod paths;
mod proper;
mod raw_record;
mod text;

pub use error::LockError;
pub use kind::FirmwareKind;
pub use locked::Locked;
pub use locking::lock_firmware;
pub use paths::{early_path, late_path};
pub use raw_record::raw;
pub use text::component_text;
