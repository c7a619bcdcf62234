//! Tests of the readers and writers of logs and records, of digests, replays and made components.
#![tactic(auto)]

#[cfg(test)]
mod digests;
#[cfg(test)]
mod firmware_log;
#[cfg(test)]
mod json_records;
#[cfg(test)]
mod locking;
#[cfg(test)]
mod replaying;
#[cfg(test)]
mod userspace;
