//! The files that pcrlock keeps beside the TPM: the policy file, which says which index holds the policy
//! in force and by which tables of PCR values, and the token file, which says which sealed object holds a
//! key and what opens it. Each value has one text, all numbers are big-endian, and a text
//! that is refused is refused for the first of its fields that is cut or has no allowed value.
#![tactic(auto)]

mod error;
mod field;
mod left;
mod policy;
mod policy_reading;
mod policy_writing;
mod rows;
mod tables;
mod token;
mod token_reading;
mod token_writing;
mod version;

pub use error::{FileError, FileKind};
pub use policy::Policy;
pub use policy_reading::read_policy;
pub use policy_writing::write_policy;
pub use token::{Literal, Token};
pub use token_reading::read_token;
pub use token_writing::write_token;
