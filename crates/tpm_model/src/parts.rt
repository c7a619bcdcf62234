//! The TPM's state as plain data.
use crate::{Object, Session};
use hash_bank::{Banks, Digest};
use nv_index::Index;
use pl_base::List;

/// All that a TPM's state holds.
#[derive(Debug, Drop)]
pub struct Parts {
    /// The present banks.
    pub banks: Banks,
    /// For each present bank, in the order SHA-1, SHA-256, SHA-384, SHA-512, its 24 PCR values.
    pub pcrs: List<Digest>,
    /// The extends since the restart.
    pub update_counter: u32,
    /// The number of the next session.
    pub next_session: u32,
    /// The writes of NV indices since the TPM was made.
    pub write_counter: u32,
    /// The number of the next object.
    pub next_object: u32,
    /// The open sessions, at most 64, by rising handles.
    pub sessions: List<Session>,
    /// The NV indices, at most 16, by rising handles.
    pub indices: List<Index>,
    /// The sealed objects, at most 64, by rising handles.
    pub objects: List<Object>,
}
