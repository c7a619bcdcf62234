//! The commands of proof files: `prove` writes the proofs of what is foreseen of some PCRs, and
//! `check-proof` tries each proof of such a file over the components. Neither uses a TPM.
#![tactic(auto)]

mod asked;
mod checking;
mod proving;

pub use crate::asked::Asked;
pub use crate::checking::check_proof;
pub use crate::proving::prove;
