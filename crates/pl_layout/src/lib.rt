//! Layouts of files: fields that stand one behind the other, how they are read and written, and the laws
//! by which what is read is what was written.
#![tactic(auto)]

mod reading;
mod writing;

pub use crate::reading::{
    CutFault, digest_of, place_of, read_bank_bytes, read_bytes, read_u8, read_u16, read_u16_le,
    read_u32, read_u32_le,
};
pub use crate::writing::{put_u16, put_u16_le, put_u32, put_u32_le};
