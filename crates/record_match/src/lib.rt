//! Recognition: which variants of a tree's components explain what was measured into a PCR, why none
//! does, and which component lists one measured record.
#![tactic(auto)]

mod choosing;
mod error;
mod explaining;
mod extending;
mod following;
mod lacking;
mod listing;
mod noting;

pub use error::MatchError;
pub use explaining::explain;
pub use lacking::{RecordPlace, first_lacking};
pub use listing::listed_by;
pub use noting::Listing;
