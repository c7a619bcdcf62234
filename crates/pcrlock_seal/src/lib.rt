//! The command that seals keys: `enroll`.
#![tactic(auto)]

mod condition;
mod enrolling;

pub use crate::enrolling::{enroll, enroll_bound};
