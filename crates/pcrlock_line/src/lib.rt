//! What every command of the program shares: the machine that its objects tell, the outcome of a
//! line of words, why a line stops before its end, reading a file under a limit, and reading a PCR. The
//! definition of each command stands in the crate of its group, above this one.
#![tactic(auto)]

mod changing;
mod device;
mod pcr;
mod reading;
mod reply;
mod stop;

pub use crate::changing::{draw, remove_file, replace_file};
pub use crate::device::{ask, ready};
pub use crate::pcr::present_value;
pub use crate::reading::{Found, read_file};
pub use crate::reply::Reply;
pub use crate::stop::Stop;
