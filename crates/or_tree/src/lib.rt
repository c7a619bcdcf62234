//! The branches that join the lists of each row of a table into one policy, and the way from a list up
//! to the top.
#![tactic(auto)]

mod level;
mod plan;
mod row;

pub use crate::plan::{OrPlan, build};
