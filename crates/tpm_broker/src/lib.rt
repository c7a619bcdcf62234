//! Stands between up to 16 clients and one TPM, and gives each client session handles of its own.
#![tactic(auto)]

mod broker;
mod commands;
mod leaving;
mod plan;
mod rows;
mod serving;

pub use crate::broker::Broker;
pub use crate::plan::Plan;
pub use crate::rows::Handles;
pub use crate::serving::{each_is_answered_alone, serve};
