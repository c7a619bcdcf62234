ghost use Rattle.std.specs.Prelude.{◌≡◌, ◌<◌, ◌≤◌, ◌+◌, ℕ, Option, Some, List as Sequence, length, Err, IfOk};
ghost use Rattle.std.specs.FinMap.{get, insert, remove};
ghost use Rattle.pl_base.specs.Faults.{HasCause};
ghost use Rattle.pl_base.specs.FileMap.{FileMap};
ghost use Rattle.pl_base.specs.FileAnswers.{ReadGives, IsBounded, ListGives, IsShort, ReplaceLeaves, RemoveLeaves};

use crate::{List, Name};
use std::alloc::Global;

/// What stands directly below a path.
#[derive(Debug, Drop)]
pub struct Entry {
    /// One part of a path: not empty, without a slash.
    pub name: Name,
    /// Whether something stands below it in turn.
    pub folder: bool,
}

/// Why a file could not be read.
#[derive(Clone, Copy, Debug, PartialEq, Eq)]
pub enum ReadError {
    /// No file has the path.
    Missing,
    /// The file has this many bytes, more than the limit.
    TooLarge(u64),
    /// The outside refused, and the count of faults rose.
    Failed,
    /// Memory ran out.
    Memory,
}

/// Why a folder could not be listed.
#[derive(Clone, Copy, Debug, PartialEq, Eq)]
pub enum ListError {
    /// Nothing stands below the path.
    Missing,
    /// More entries than the limit stand there.
    TooMany,
    /// The outside refused, and the count of faults rose.
    Failed,
    /// Memory ran out.
    Memory,
}

/// Why a file could not be replaced.
#[derive(Clone, Copy, Debug, PartialEq, Eq)]
pub enum ReplaceError {
    /// The outside refused, and the count of faults rose.
    Failed,
    /// Memory ran out, and nothing changed.
    Memory,
}

/// Why a file could not be removed.
#[derive(Clone, Copy, Debug, PartialEq, Eq)]
pub enum RemoveError {
    /// No file has the path.
    Missing,
    /// The outside refused, and the count of faults rose.
    Failed,
    /// Memory ran out, and nothing changed.
    Memory,
}

/// Files by their paths, which are compared byte by byte.
pub trait Files {
    /// The bytes of each path, where they are told.
    ghost held: { Self → Option FileMap };

    /// How often a call failed.
    ghost faults: { Self → ℕ };

    /// How often a call failed that changes nothing: `read` or `list`.
    ghost readings: { Self → ℕ };

    /// How often a call failed that changes the files: `replace` or `remove`.
    ghost changes: { Self → ℕ };

    /// The bytes of the file at the path. Nothing changes.
    fn read(&mut self, alloc: Global, path: &str, limit: u64) -> Result<Vec<u8>, ReadError>
        ensures cause { HasCause (faults self.old) (faults self.new) (result ≡ Err ReadError.Failed) }
        ensures reading { HasCause (readings self.old) (readings self.new) (result ≡ Err ReadError.Failed) }
        ensures no_change { changes self.new ≡ changes self.old }
        ensures bounded { IsBounded limit result }
        ensures told { (files : FileMap) → held self.old ≡ Some files → ReadGives (get files path.now) limit result }
        ensures same { held self.new ≡ held self.old };

    /// What stands directly below the path, in the order of the names' bytes. Nothing changes.
    fn list(&mut self, alloc: Global, path: &str, limit: u32) -> Result<List<Entry>, ListError>
        ensures cause { HasCause (faults self.old) (faults self.new) (result ≡ Err ListError.Failed) }
        ensures reading { HasCause (readings self.old) (readings self.new) (result ≡ Err ListError.Failed) }
        ensures no_change { changes self.new ≡ changes self.old }
        ensures bounded { IsShort limit result }
        ensures told { (files : FileMap) → held self.old ≡ Some files → ListGives files path.now limit result }
        ensures same { held self.new ≡ held self.old };

    /// Sets the bytes of the path. After `Failed` the file is the old or the new one.
    fn replace(&mut self, alloc: Global, path: &str, bytes: &[u8]) -> Result<(), ReplaceError>
        ensures cause { HasCause (faults self.old) (faults self.new) (result ≡ Err ReplaceError.Failed) }
        ensures change { HasCause (changes self.old) (changes self.new) (result ≡ Err ReplaceError.Failed) }
        ensures no_reading { readings self.new ≡ readings self.old }
        ensures told { (files : FileMap) → held self.old ≡ Some files → ReplaceLeaves files (insert files path.now bytes.now) result (held self.new) };

    /// Takes the file out. After `Failed` it is there as before, or gone.
    fn remove(&mut self, alloc: Global, path: &str) -> Result<(), RemoveError>
        ensures cause { HasCause (faults self.old) (faults self.new) (result ≡ Err RemoveError.Failed) }
        ensures change { HasCause (changes self.old) (changes self.new) (result ≡ Err RemoveError.Failed) }
        ensures no_reading { readings self.new ≡ readings self.old }
        ensures told { (files : FileMap) → held self.old ≡ Some files → RemoveLeaves files path.now result (held self.new) };

    /// Each fault is of one kind.
    ghost kinds: { (files : Self) → faults files ≡ readings files + changes files };
}
