//! Records of what is measured into a PCR, as JSON: the members `pcr` and `digests` of the TCG
//! Canonical Event Log's records. A component file (systemd.pcrlock(5)) is an array of them, or an
//! object with such an array under `records`. JSON is read and its values are held by `serde_json`;
//! this crate says which values are records, and writes records back.
#![tactic(auto)]

mod component;
mod digests;
mod error;
mod grammar;
mod kind;
mod member;
mod reader;
mod record;
mod value;
mod writer;

pub use component::read_records;
pub use error::RecordsError;
pub use grammar::records_are_exact;
pub use kind::RecordKind;
pub use reader::read_record;
pub use record::CelRecord;
pub use value::read_value;
pub use writer::{record_text, write_cel};
