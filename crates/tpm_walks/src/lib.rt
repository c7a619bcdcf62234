//! A session whose digest is the root of a table of PCR values walked the table. The calls do nothing; they tell
//! the laws.
#![tactic(auto)]

mod laws;

pub use crate::laws::{
    rows_are_walked, tables_are_open_by_values, tables_are_walked, tied_trails_are_known,
    walks_are_in_order,
};
