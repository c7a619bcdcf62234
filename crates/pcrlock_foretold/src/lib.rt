//! From the newest table to the choices of variants: `make-policy` puts the table of a forecast in force, and `unseal`
//! prints a key that is bound to it exactly where each protected PCR holds a value that some choice of variants, at some
//! cut of the window, measures. The calls do nothing; they tell the laws.
#![tactic(auto)]

mod laws;

pub use crate::laws::{
    other_readings_are_refuted, policy_is_foretold, script_is_foretold, unseal_is_foretold,
};
