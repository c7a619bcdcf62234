//! The commands that make component files of what a machine measured, and take them out again:
//! `lock-raw`, `lock-firmware-code`, `lock-firmware-config`, `unlock-firmware-code` and
//! `unlock-firmware-config`. They use no TPM.
#![tactic(auto)]

mod firmware_lock;
mod firmware_unlock;
mod raw_lock;

pub use crate::firmware_lock::lock_firmware;
pub use crate::firmware_unlock::unlock_firmware;
pub use crate::raw_lock::lock_raw;
pub use component_make::FirmwareKind;
