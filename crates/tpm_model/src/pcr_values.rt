//! Room for the PCR values of all banks, so that a restart takes no memory.
ghost use Rattle.std.specs.Prelude.{◌≡◌, ◌<◌, ◌≤◌, [], ◌∷◌, ◌++◌, length, take, slice_set};

use hash_bank::{Bank, Digest};
use std::marker::Model;

/// The PCRs of four banks, 24 each.
const ROOM: usize = 96;

/// At most 96 PCR values in order, in place. Contracts see the list of them.
#[derive(Debug, Drop)]
pub(crate) struct PcrValues {
    room: [Digest; 96],
    count: usize,
}

impl Model for PcrValues {
    ghost use Rattle.std.specs.Prelude.{ℕ, ◌≤◌, List, take};

    ghost Value = { List (List ℕ) };

    ghost view = { λ a. take a.count a.room };

    ghost invariant = { λ a. a.count ≤ 96 };
}

impl PcrValues {
    /// No values.
    pub(crate) fn new() -> PcrValues
        ensures { result ≡ [] }
    {
        PcrValues {
            room: [Digest::zeros(Bank::Sha1); ROOM],
            count: 0,
        }
    }

    /// These values.
    pub(crate) fn from_slice(values: &[Digest]) -> PcrValues
        requires { length values.now ≤ 96 }
        ensures { result ≡ values.now }
    {
        let mut room = [Digest::zeros(Bank::Sha1); ROOM];
        room[..values.len()].copy_from_slice(values);
        PcrValues {
            room,
            count: values.len(),
        }
    }

    /// Takes over the values of others.
    pub(crate) fn copy_from(&mut self, others: &PcrValues)
        ensures { self.new ≡ others.now }
    {
        self.room.copy_from_slice(&others.room);
        self.count = others.count;
    }

    /// The values in order.
    pub(crate) fn as_slice(&self) -> &[Digest]
        ensures value { result.now ≡ self.now }
        ensures bound { length self.now ≤ 96 }
    {
        &self.room[..self.count]
    }

    /// Puts a value at the end.
    pub(crate) fn push(&mut self, value: &Digest)
        requires { length self.old < 96 }
        ensures { self.new ≡ self.old ++ value.now ∷ [] }
    {
        self.room[self.count] = *value;
        self.count += 1;
    }

    /// Puts a value in place of the one at the index.
    pub(crate) fn set(&mut self, index: usize, value: &Digest)
        requires { index < length self.old }
        ensures { self.new ≡ slice_set self.old index value.now }
    {
        let values = &mut self.room[..self.count];
        values[index] = *value;
    }
}
