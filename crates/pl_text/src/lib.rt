//! What words of text spell: decimal numbers, numbers and bytes in hexadecimal digits, the names of banks and
//! the numbers of PCRs, and lists of these; the parts of a text between the places of one byte; and how numbers,
//! handles, bytes and lists of PCRs are put at the end of a text.
#![tactic(auto)]

mod banks;
mod ends;
mod hexadecimal;
mod listing;
mod mask;
mod numbers;
mod parts;
mod words;

pub use crate::banks::{read_bank, read_banks};
pub use crate::ends::{push, push_handle, push_hex, push_mask, push_number};
pub use crate::hexadecimal::{read_digest, read_handle, read_pin};
pub use crate::listing::write_numbers;
pub use crate::mask::{read_pcr, read_pcr_mask};
pub use crate::numbers::{number_in, read_number};
pub use crate::parts::cut;
pub use crate::words::{four_parts, one_part, three_parts, two_parts};
