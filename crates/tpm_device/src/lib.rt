//! The device that a TPM's commands go to, as a trait, and a TPM that is kept in memory.
#![tactic(auto)]

mod device;
mod soft;

pub use crate::device::{BeginError, ExecError, Tpm};
pub use crate::soft::SoftTpm;
