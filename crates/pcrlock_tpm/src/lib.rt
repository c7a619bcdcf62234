//! The commands that go to the TPM alone: `tpm-extend`, and `tpm-boot`, which reads logs first.
#![tactic(auto)]

mod boot;
mod extend;

pub use crate::boot::tpm_boot;
pub use crate::extend::tpm_extend;
