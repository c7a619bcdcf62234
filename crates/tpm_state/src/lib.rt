//! The state file of a TPM: the one text of a state, the reader that names the first fault or the
//! first broken rule, and the TPM that is kept in such a file.
#![tactic(auto)]

mod decoding;
mod encoding;
mod entries;
mod error;
mod field;
mod file_tpm;
mod header;
mod indices;
mod kept;
mod layout;
mod objects;
mod sessions;
mod version;

pub use crate::decoding::decode;
pub use crate::encoding::encode;
pub use crate::error::DecodeError;
pub use crate::file_tpm::FileTpm;
pub use tpm_commands::{
    CommandsError, EventLine, read_client_commands, read_commands, read_events, response_line,
};
