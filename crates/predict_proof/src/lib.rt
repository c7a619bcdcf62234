//! Predictions that prove themselves: each foreseen state of some PCRs with the cut and the choice of
//! variants that lead to it, a check of such a list that needs the components alone, and the file that
//! holds one.
#![tactic(auto)]

mod checking;
mod error;
mod file;
mod proof;
mod proving;
mod reaching;
mod reading;
mod values;
mod writing;

pub use checking::check;
pub use error::{CheckError, ProofError};
pub use file::ProofFile;
pub use proof::Proof;
pub use proving::prove;
pub use reading::read_proofs;
pub use writing::write_proofs;
