//! The modelled TPM 2.0 as a state machine: its commands and answers, its state and the rules that
//! every state keeps, and one step from state to state. The definitions of what it answers and
//! leaves, of the world around it and of the strings that it hashes stand in `specs/`.
#![tactic(auto)]

mod command;
mod fitting;
mod held;
mod index_commands;
mod index_rules;
mod object;
mod object_rules;
mod parts;
mod pcr_values;
mod pcrs;
mod response;
mod rules;
mod session_rules;
mod sessions;
mod state;
mod trail;

pub use crate::command::Command;
pub use crate::fitting::fits;
pub use crate::object::Object;
pub use crate::parts::Parts;
pub use crate::response::{Counter, Refusal, Response};
pub use crate::rules::StateRule;
pub use crate::sessions::Session;
pub use crate::state::{State, step};
pub use crate::trail::{Trail, TrailEntry};
