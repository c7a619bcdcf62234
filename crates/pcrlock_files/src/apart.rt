//! The files that a run is handed.
ghost use Rattle.std.specs.Prelude.{◌≡◌, ◌+◌};
ghost use Rattle.pcrlock_files.specs.Kinds.{kinds_with};

use crate::place::{Place, folder_at, name_of, places_of};
use pl_base::{
    Entry, FaultCount, Files, List, ListError, Memory, Name, ReadError, RemoveError, ReplaceError,
    make_folder_of, sync_folder_of,
};
use std::alloc::Global;
use std::rt;

/// Files among which the file of the TPM is, which is neither set nor taken out by them, whatever
/// path leads to it. The TPM's changes so far are stored before one of theirs, and each of theirs
/// is stored when its call ends.
#[derive(Drop)]
pub struct ApartFiles<'a, R, F> {
    system: &'a R,
    files: F,
    state: Name,
    places: List<Place>,
    denied: FaultCount,
}

impl<'a, R: rt::Files, F: Files + Drop> ApartFiles<'a, R, F> {
    /// The files, and the path of the TPM's file.
    pub fn new(
        alloc: Global,
        system: &'a R,
        files: F,
        state: Name,
    ) -> Result<ApartFiles<'a, R, F>, Memory> {
        let places = places_of(system, alloc, state.text())?;
        Ok(ApartFiles {
            system,
            files,
            state,
            places,
            denied: FaultCount::new(),
        })
    }
}

impl<'a, R: rt::Files, F: Files> ApartFiles<'a, R, F> {
    /// Whether a call on the path reaches the file of the TPM, or the one that its replacement writes.
    fn reaches_state(&self, path: &str) -> bool {
        match folder_at(self.system, path) {
            Some(folder) => self
                .places
                .as_slice()
                .iter()
                .any(|place| place.is_reached(folder, name_of(path))),
            None => false,
        }
    }

    /// Whether a change at the path may begin: the path isn't the TPM's, and the TPM's changes so far
    /// are stored.
    fn may_change(&self, path: &str) -> bool {
        !self.reaches_state(path) && sync_folder_of(self.system, self.state.text()).is_ok()
    }
}

impl<'a, R: rt::Files, F: Files> Files for ApartFiles<'a, R, F> {
    ghost held = { λ apart. F.held apart.files };

    ghost faults = { λ apart. F.faults apart.files + apart.denied };

    ghost readings = { λ apart. F.readings apart.files };

    ghost changes = { λ apart. F.changes apart.files + apart.denied };

    fn read(&mut self, alloc: Global, path: &str, limit: u64) -> Result<Vec<u8>, ReadError> {
        self.files.read(alloc, path, limit)
    }

    fn list(&mut self, alloc: Global, path: &str, limit: u32) -> Result<List<Entry>, ListError> {
        self.files.list(alloc, path, limit)
    }

    fn replace(&mut self, alloc: Global, path: &str, bytes: &[u8]) -> Result<(), ReplaceError> {
        // (made first, as a path through a folder that isn't there yet may lead to the TPM's, too)
        if make_folder_of(self.system, path).is_err() || !self.may_change(path) {
            self.denied.rise();
            return Err(ReplaceError::Failed);
        }
        self.files.replace(alloc, path, bytes)?;
        if sync_folder_of(self.system, path).is_err() {
            self.denied.rise();
            return Err(ReplaceError::Failed);
        }
        Ok(())
    }

    fn remove(&mut self, alloc: Global, path: &str) -> Result<(), RemoveError> {
        if !self.may_change(path) {
            self.denied.rise();
            return Err(RemoveError::Failed);
        }
        self.files.remove(alloc, path)?;
        if sync_folder_of(self.system, path).is_err() {
            self.denied.rise();
            return Err(RemoveError::Failed);
        }
        Ok(())
    }

    ghost kinds = { λ it. kinds_with (F.faults it.files) (F.readings it.files) (F.changes it.files) it.denied (F.kinds it.files) };
}
