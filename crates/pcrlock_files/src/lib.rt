//! The files of the system as the program is handed them. One process at a time works on a state
//! file; what a command is told to write or remove is never the state file; and what was renamed or
//! removed outlasts a power cut. None of this shows in the traits: a call that isn't let through is
//! a fault, and is counted.
#![tactic(auto)]

mod apart;
mod lock;
mod place;
mod state;

pub use apart::ApartFiles;
pub use lock::lock_folder_of;
pub use state::StateFiles;
