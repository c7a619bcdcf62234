//! The changes by which a table is put in force, under a new index or one that stands; and the command
//! that takes the policy away, `remove-policy`.
#![tactic(auto)]

mod building;
mod change;
mod changing;
mod given;
pub mod laws;
mod lines;
mod making;
mod putting;
mod removing;
mod replacing;
mod sealing;
mod standing;
mod updating;

pub use crate::given::Given;
pub use crate::making::make_new_policy;
pub use crate::removing::remove_policy;
pub use crate::replacing::{update_policy, update_with_pin};
pub use crate::standing::test_standing;
pub use crate::updating::pin_in;
