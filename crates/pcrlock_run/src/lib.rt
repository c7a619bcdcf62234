//! The top of the program: words are read as a request, its command is run over the files, the TPM,
//! the random words and the two outputs that are lent, and the status tells how it ended. `run` is the
//! one public call.
#![tactic(auto)]

mod command;
mod file;
mod next;
mod script;
mod scripted;
mod setting;
mod show;
mod status;
mod top;

pub use crate::top::run;
