//! The client's side of a policy session: the commands by which a sealed object is opened, each in
//! its order, and what stopped them. A client reads the session's digest and compares no PCR value.
#![tactic(auto)]

mod bound;
mod error;
mod index;
mod literal;
mod present;
mod responses;
mod steps;

pub use crate::bound::unseal_bound;
pub use crate::error::UnsealError;
pub use crate::index::{IndexError, read_index};
pub use crate::literal::unseal_literal;
pub use policy_file::Literal;
pub use policy_walk::{
    Authorised, Branched, Finished, PrepareError, Prepared, StartRefusal, Started, Stopped, Walk,
    Why, prepare,
};
