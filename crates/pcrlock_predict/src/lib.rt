//! The commands that compare what a machine logged with what its TPM holds: `log` prints the records
//! and each PCR's replay beside its value, and `predict` the values that PCRs may have while the boot
//! goes on. Both read the logs, the components and then the PCRs, and change nothing. What they read and foresee serves
//! the command that makes a policy too.
#![tactic(auto)]

mod inputs;
mod logging;
mod predicting;
mod present;

pub use crate::inputs::{Inputs, read_inputs};
pub use crate::logging::log;
pub use crate::predicting::{no_digest, predict, protected, refusal};
pub use crate::present::values_ready;
