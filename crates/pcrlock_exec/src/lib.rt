//! `tpm-exec`: a file of commands goes to the TPM, one after the other, and each answer is printed.
#![tactic(auto)]

mod exec;
mod input;

pub use crate::exec::tpm_exec;
pub use crate::input::{Input, find_commands};
