//! The files of the TPM.
ghost use Rattle.std.specs.Prelude.{◌≡◌, ◌⊎◌, ◌+◌, ℕ, Bool, true, false, Option, None, Some, Err, List as Sequence};
ghost use Rattle.std.specs.FinMap.{get, insert};
ghost use Rattle.pl_base.specs.Faults.{HasCause};
ghost use Rattle.pl_base.specs.FileMap.{FileMap};
ghost use Rattle.pl_base.specs.FileAnswers.{ReplaceLeaves, RemoveLeaves};
ghost use Rattle.pcrlock_files.specs.Kinds.{kinds_with};

use pl_base::{Entry, FaultCount, Files, List, ListError, ReadError, RemoveError, ReplaceError};
use std::alloc::Global;

/// Files in which nothing changes unless the lock is held, and that remember whether one was asked
/// to.
#[derive(Drop)]
pub struct StateFiles<F> {
    files: F,
    is_locked: bool,
    is_changed: bool,
    denied: FaultCount,
}

impl<F: Files> StateFiles<F> {
    /// These files, of which none was changed yet, and whether the lock on them is held.
    pub fn new(files: F, is_locked: bool) -> StateFiles<F>
        ensures { result ≡ record { files = files; is_locked = is_locked; is_changed = false; denied = 0 } }
    {
        StateFiles {
            files,
            is_locked,
            is_changed: false,
            denied: FaultCount::new(),
        }
    }

    /// Whether a file was set or taken out, or a call to do so failed on its way.
    pub fn is_changed(&self) -> bool
        ensures { result ≡ self.now.is_changed }
    {
        self.is_changed
    }
}

impl<F: Files> Files for StateFiles<F> {
    ghost held = { λ state. F.held state.files };

    ghost faults = { λ state. F.faults state.files + state.denied };

    ghost readings = { λ state. F.readings state.files };

    ghost changes = { λ state. F.changes state.files + state.denied };

    fn read(&mut self, alloc: Global, path: &str, limit: u64) -> Result<Vec<u8>, ReadError> {
        self.files.read(alloc, path, limit)
    }

    fn list(&mut self, alloc: Global, path: &str, limit: u32) -> Result<List<Entry>, ListError> {
        self.files.list(alloc, path, limit)
    }

    fn replace(&mut self, alloc: Global, path: &str, bytes: &[u8]) -> Result<(), ReplaceError>
        ensures cause { HasCause (F.faults self.old.files + self.old.denied) (F.faults self.new.files + self.new.denied) (result ≡ Err ReplaceError.Failed) }
        ensures change { HasCause (F.changes self.old.files + self.old.denied) (F.changes self.new.files + self.new.denied) (result ≡ Err ReplaceError.Failed) }
        ensures no_reading { F.readings self.new.files ≡ F.readings self.old.files }
        ensures told { (files : FileMap) → F.held self.old.files ≡ Some files → ReplaceLeaves files (insert files path.now bytes.now) result (F.held self.new.files) }
        ensures alone { self.old.is_locked ≡ false → (result ≡ Err ReplaceError.Failed) × (self.new.files ≡ self.old.files) }
        ensures noticed { (self.new.is_changed ≡ true) ⊎ (self.new.files ≡ self.old.files) }
    {
        if !self.is_locked {
            self.denied.rise();
            return Err(ReplaceError::Failed);
        }
        self.is_changed = true;
        self.files.replace(alloc, path, bytes)
    }

    fn remove(&mut self, alloc: Global, path: &str) -> Result<(), RemoveError>
        ensures cause { HasCause (F.faults self.old.files + self.old.denied) (F.faults self.new.files + self.new.denied) (result ≡ Err RemoveError.Failed) }
        ensures change { HasCause (F.changes self.old.files + self.old.denied) (F.changes self.new.files + self.new.denied) (result ≡ Err RemoveError.Failed) }
        ensures no_reading { F.readings self.new.files ≡ F.readings self.old.files }
        ensures told { (files : FileMap) → F.held self.old.files ≡ Some files → RemoveLeaves files path.now result (F.held self.new.files) }
        ensures alone { self.old.is_locked ≡ false → (result ≡ Err RemoveError.Failed) × (self.new.files ≡ self.old.files) }
        ensures noticed { (self.new.is_changed ≡ true) ⊎ (self.new.files ≡ self.old.files) }
    {
        if !self.is_locked {
            self.denied.rise();
            return Err(RemoveError::Failed);
        }
        self.is_changed = true;
        self.files.remove(alloc, path)
    }

    ghost kinds = { λ it. kinds_with (F.faults it.files) (F.readings it.files) (F.changes it.files) it.denied (F.kinds it.files) };
}
