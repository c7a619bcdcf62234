//! Many callers at one TPM: each client reads an index, walks on a session of its own by the table that the
//! index holds, unseals one object and ends its session, one command of the TPM at each of its steps.
//! Commands of anyone and updates of the table come between them, in any order.
#![tactic(auto)]

mod client;
mod content;
mod event;
mod keys;
mod line;
mod outcome;
mod playing;
mod race;

pub use crate::event::Event;
pub use crate::keys::a_key_has_its_steps;
pub use crate::line::outcome_line;
pub use crate::outcome::Outcome;
pub use crate::playing::{PlayError, play};
pub use crate::race::Race;
