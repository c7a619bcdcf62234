//! What the table of a prediction says, in the words of boot states: which PCRs it protects, and when it is open. The
//! calls do nothing; they tell the laws.
#![tactic(auto)]

mod laws;

pub use crate::laws::{forecasts_open, forecasts_protect};
