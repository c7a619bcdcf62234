//! The userspace log of measurements: a JSON text sequence (RFC 7464) of the TCG Canonical Event
//! Log's records, each text between the separator 0x1E and a line feed.
#![tactic(auto)]

mod error;
mod log;
mod reader;
mod writer;

pub use error::SeqError;
pub use log::UserLog;
pub use reader::read_seq;
pub use writer::write_seq;
