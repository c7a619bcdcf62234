//! Indices of a TPM 2.0's non-volatile memory: what a chip shows of an index, what it keeps of its
//! last write, the refusals of commands that touch one, and the Name by which a policy binds to it.
#![tactic(auto)]

mod attributes;
mod index;
mod name;
mod refusal;
mod table;

pub use crate::attributes::{CONTENT_SIZE, DEFINED_ATTRIBUTES, WRITTEN_ATTRIBUTES};
pub use crate::index::{Index, NvPublic, Written};
pub use crate::name::index_name;
pub use crate::refusal::{DefineError, NvRefusal};
pub use crate::table::{IndexTable, is_index_handle};
