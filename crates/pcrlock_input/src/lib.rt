//! The inputs that commands share: the firmware's event log, the log of userspace and the tree of
//! components, each with the answer for which a command doesn't go on without it. Every command
//! reads them through this crate, so that all of them take the same usual paths and the same limits,
//! and answer alike.
#![tactic(auto)]

mod components;
mod error;
mod firmware;
mod logs;
mod path;
mod reading;
mod user;

pub use crate::components::read_components;
pub use crate::error::InputError;
pub use crate::firmware::read_firmware_log;
pub use crate::logs::{Logs, read_logs};
pub use crate::user::read_user_log;
