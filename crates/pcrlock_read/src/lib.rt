//! The commands that read files of the system and print what they say: `cel` and `list-components`.
//! They use no TPM, and change nothing.
#![tactic(auto)]

mod listing;
mod printing;

pub use crate::listing::list_components;
pub use crate::printing::cel;
