//! What a machine measured, replayed: the records of its firmware and of its userspace as one list,
//! the digests of one PCR in it, and the value that the PCR has after their extends (TPM 2.0
//! Library Part 1, "PCR Operations").
#![tactic(auto)]

mod combining;
mod measuring;
mod record;
mod replaying;

pub use combining::combined;
pub use measuring::measured;
pub use record::{LogRecord, Origin};
pub use replaying::{replay, replay_all};
