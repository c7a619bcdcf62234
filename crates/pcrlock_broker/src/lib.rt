//! `broker`: the commands of several clients go to the TPM through a broker, which gives each client session handles
//! of its own, and each answer is printed.
#![tactic(auto)]

mod brokering;
mod input;
mod serving;

pub use crate::brokering::{broker, clients_are_alone};
pub use crate::input::{Asked, find_asked};
