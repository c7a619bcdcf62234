//! The outside of the program as traits: files, a stream of bytes and a source of random words,
//! each with a count of its faults and, where it tells them, its contents. Beside them stand
//! their forms in memory, the real ones, and the plain types that every crate shares: `Name`,
//! `List`, `Small` and `Memory`.
#![tactic(auto)]

mod entropy;
mod fail;
mod fault_count;
mod files;
mod folders;
mod list;
mod list_entropy;
mod listing;
mod mem_files;
mod mem_sink;
mod memory;
mod name;
mod real_entropy;
mod real_files;
mod real_sink;
mod schedule;
mod sink;
mod small;

pub use entropy::{Entropy, Failed};
pub use fail::Fail;
pub use fault_count::FaultCount;
pub use files::{Entry, Files, ListError, ReadError, RemoveError, ReplaceError};
pub use folders::{folder_of, last_cut, make_folder_of, sync_folder_of};
pub use list::List;
pub use list_entropy::ListEntropy;
pub use mem_files::MemFiles;
pub use mem_sink::MemSink;
pub use memory::Memory;
pub use name::Name;
pub use real_entropy::RealEntropy;
pub use real_files::RealFiles;
pub use real_sink::RealSink;
pub use schedule::Schedule;
pub use sink::{Sink, SinkError};
pub use small::Small;
