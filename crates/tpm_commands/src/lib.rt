//! The commands of the TPM and its answers as lines of text: a file of commands is read, one a line, as are
//! the events of a race and the commands of several clients, and each answer has a line that tells it.
#![tactic(auto)]

mod clients;
mod command;
mod digests;
mod error;
mod event;
mod events;
mod file;
mod grammar;
mod group;
mod line;
mod lines;
mod response;
mod values;
mod verb;

pub use crate::clients::read_client_commands;
pub use crate::command::read_command;
pub use crate::error::CommandsError;
pub use crate::event::EventLine;
pub use crate::events::read_events;
pub use crate::file::read_commands;
pub use crate::line::{next_line, passes_over};
pub use crate::response::{response_line, write_response};
pub use pl_text::{cut, read_number};
