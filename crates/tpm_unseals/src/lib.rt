//! Each Unseal of an object that the program sealed answers by what the object is bound to, whoever sent which
//! commands: the value of a PCR, or a table of an index's policy that is open. The calls do nothing; they tell the laws.
#![tactic(auto)]

mod laws;

pub use crate::laws::{authorizations_are_strict, each_unseal_opens};
