//! The command that opens a key, `unseal`: for tokens that name one value of one PCR, and for those of objects that are
//! bound to a policy's index.
#![tactic(auto)]

mod answers;
mod bound;
mod opening;
mod token;

pub use crate::bound::{open_bound, open_secret};
pub use crate::opening::unseal;
