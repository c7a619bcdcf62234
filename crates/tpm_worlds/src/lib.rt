//! What lists of commands can reach on a TPM that others use too: from a state that hangs together
//! with the world around it, an object that is bound to one value of one PCR gives its bytes only
//! while the PCR holds that value, whoever sent which command.
#![tactic(auto)]

mod stepping;
mod unused;

pub use crate::stepping::step_all;
pub use crate::unused::fresh_state;
