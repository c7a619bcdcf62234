//! What a state holds.
use crate::pcr_values::PcrValues;
use crate::{Object, Parts, Session};
use hash_bank::Banks;
use nv_index::IndexTable;
use pl_base::List;

/// The parts of a state, with room for the PCR values of all four banks.
#[derive(Debug, Drop)]
pub(crate) struct Held {
    pub(crate) banks: Banks,
    pub(crate) pcrs: PcrValues,
    pub(crate) update_counter: u32,
    pub(crate) next_session: u32,
    pub(crate) write_counter: u32,
    pub(crate) next_object: u32,
    pub(crate) sessions: List<Session>,
    pub(crate) indices: IndexTable,
    pub(crate) objects: List<Object>,
}
