//! `make-policy`: it foresees which values the asked PCRs may have while the boot goes on, as `predict` does, and puts
//! the table of them in force, under a new NV index or a written one.
#![tactic(auto)]

mod asked;
mod forcing;
mod foreseeing;
pub mod laws;
mod looking;
mod making;
mod pin;

pub use crate::asked::{Asked, Target};
pub use crate::foreseeing::Foreseen;
pub use crate::looking::IndexState;
pub use crate::making::make_policy;
