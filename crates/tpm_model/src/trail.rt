//! The trail of a session: what it went through, one entry for each policy command.
ghost use Rattle.std.specs.Prelude.{◌≡◌, [], ◌∷◌, ◌++◌, ◌<◌, ◌≤◌, length, IfOk};

use hash_bank::{Bank, Digest};
use pl_base::Memory;
use policy_digest::Group;
use std::alloc::Global;
use std::marker::Model;

/// One step of a session's policy.
#[derive(Clone, Copy, Debug)]
pub enum TrailEntry {
    /// PolicyPCR over the mask's PCRs of a bank, with the digest of their values.
    Pcr {
        bank: Bank,
        pcrs: u32,
        values: Digest,
    },
    /// PolicyOR with a list of digests.
    Or {
        list: Group,
    },
    /// PolicyAuthorizeNV with the index's Name, the digest read, and the number of the write that
    /// was read.
    AuthorizeNv {
        name: Digest,
        digest: Digest,
        written: u32,
    },
}

/// At most 128 entries, in order, with room for all of them.
#[derive(Debug, Drop)]
pub struct Trail {
    entries: Vec<TrailEntry>,
}

impl Model for Trail {
    ghost use Rattle.std.specs.Prelude.{List, length, ◌≤◌};
    ghost use Rattle.std.specs.Vec.{vec_capacity, vec_len};
    ghost use Rattle.tpm_model.specs.declared.trail.TrailEntry.{TrailEntry};

    ghost Value = { List TrailEntry };

    ghost view = { λ a. a.entries.items };

    ghost invariant = { λ a. (vec_len a.entries ≤ 128) × (128 ≤ vec_capacity a.entries) };
}

/// The most entries of a trail.
const ROOM: usize = 128;

impl Trail {
    /// The empty trail, with room for 128 entries.
    pub fn new(alloc: Global) -> Result<Trail, Memory>
        ensures { IfOk result (λ trail. trail ≡ []) }
    {
        Ok(Trail {
            entries: Vec::with_capacity(alloc, ROOM)?,
        })
    }

    /// An equal trail, with room for 128 entries.
    pub fn copy(&self, alloc: Global) -> Result<Trail, Memory>
        ensures { IfOk result (λ trail. trail ≡ self.now) }
    {
        let mut entries = Vec::with_capacity(alloc, ROOM)?;
        entries.extend_from_slice(self.entries.as_slice())?;
        Ok(Trail { entries })
    }

    /// Puts the entry at the end. It takes no memory.
    pub fn push(&mut self, entry: TrailEntry)
        requires { length self.old < 128 }
        ensures { self.new ≡ self.old ++ entry ∷ [] }
    {
        self.entries.push(entry).unwrap()
    }

    /// The entries in order.
    pub fn as_slice(&self) -> &[TrailEntry]
        ensures value { result.now ≡ self.now }
        ensures bound { length self.now ≤ 128 }
    {
        self.entries.as_slice()
    }
}
