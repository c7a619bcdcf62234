//! A client's walk on a policy session, as typed states that stand beside whatever else happens to the
//! TPM: each tells its next command, and is spent with the TPM's answer. A client reads the session's
//! digest and compares no PCR value.
#![tactic(auto)]

mod branch;
mod ending;
mod prepared;
mod started;
mod stopped;
mod walk;
mod why;

pub use crate::ending::{Authorised, Branched, Finished};
pub use crate::prepared::{PrepareError, Prepared, prepare};
pub use crate::started::Started;
pub use crate::stopped::Stopped;
pub use crate::walk::Walk;
pub use crate::why::{StartRefusal, Why};
