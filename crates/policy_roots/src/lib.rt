//! The strings that are hashed for policies tell what they stand for, and the root of a table of PCR
//! values tells the table. The calls do nothing; they tell the laws.
#![tactic(auto)]

mod laws;

pub use crate::laws::{empty_tables_are_alike, strings_differ, tables_differ};
