ghost use Rattle.std.specs.Prelude.{◌≡◌, ◌≢◌, ◌⊎◌, ◌+◌, ◌-◌, ◌^◌, min, refl, Option, Some, None, IsSome, [], Err, Ok, IsOk, IfSome, MatchResult, option_copied, MatchBool, ℕ, List as Sequence, if◌then◌else◌};
ghost use Rattle.std.specs.FinMap.{empty, get, insert, remove};
ghost use Rattle.pl_base.specs.Calls.{planned, FollowsPlan};
ghost use Rattle.pl_base.specs.FileAnswers.{ReadGives, IsBounded, ListGives, IsShort, ReplaceLeaves, RemoveLeaves};
ghost use Rattle.pl_base.specs.FileMap.{FileMap};
ghost use Rattle.pl_base.specs.Faults.{HasCause};
ghost use Rattle.pl_base.specs.MemoryFiles.{files_of};

use crate::fault_count::FaultCount;
use crate::listing::listing;
use crate::schedule::Schedule;
use crate::{Entry, Fail, Files, List, ListError, Memory, ReadError, RemoveError, ReplaceError};
use std::alloc::Global;
use std::collections::BTreeMap;
use std::marker::Model;

/// Files that are kept in memory, and told. A folder is there as long as a file is below it.
#[derive(Drop)]
pub struct MemFiles {
    alloc: Global,
    files: BTreeMap<String, Vec<u8>>,
    schedule: Schedule,
    readings: FaultCount,
    changes: FaultCount,
}

impl Model for MemFiles {
    ghost use Rattle.pl_base.specs.MemoryFiles.{MemoryFiles, memory_files_code, files_of};

    ghost Value = { MemoryFiles };

    ghost coded = { memory_files_code };

    ghost view = { λ a. record { held = files_of a.files.entries; calls = a.schedule; readings = a.readings; changes = a.changes } };
}

/// Sets the bytes of a path.
fn set_file(
    files: &mut BTreeMap<String, Vec<u8>>,
    alloc: Global,
    path: &str,
    bytes: &[u8],
) -> Result<(), Memory>
    ensures { MatchResult result (λ _. files_of files.new.entries ≡ insert (files_of files.old.entries) path.now bytes.now) (λ _. files.new.entries ≡ files.old.entries) }
{
    let path = String::from_str(alloc, path)?;
    let bytes = Vec::from_slice(alloc, bytes)?;
    files.insert(path, bytes)?;
    Ok(())
}

/// Takes the path out, and tells whether it was there.
fn take_file(files: &mut BTreeMap<String, Vec<u8>>, path: &str) -> bool
    ensures was { MatchBool result ((bytes : Sequence ℕ) × (get (files_of files.old.entries) path.now ≡ Some bytes)) (get (files_of files.old.entries) path.now ≡ None) }
    ensures gone { files_of files.new.entries ≡ remove (files_of files.old.entries) path.now }
{
    files.remove(path).is_some()
}

/// The bytes of a path.
fn file_at<'a>(files: &'a BTreeMap<String, Vec<u8>>, path: &str) -> Option<&'a [u8]>
    ensures { option_copied result ≡ get (files_of files.now.entries) path.now }
{
    match files.get(path) {
        Some(bytes) => Some(bytes.as_slice()),
        None => None,
    }
}

/// A copy of the bytes of a file, where there are not too many.
fn copy_of(alloc: Global, file: Option<&[u8]>, limit: u64) -> Result<Vec<u8>, ReadError>
    ensures gives { ReadGives (option_copied file.entry) limit result }
    ensures fine { result ≢ Err ReadError.Failed }
{
    let Some(bytes) = file else {
        return Err(ReadError::Missing);
    };
    let size = bytes.len() as u64;
    if size > limit {
        return Err(ReadError::TooLarge(size));
    }
    match Vec::from_slice(alloc, bytes) {
        Ok(copy) => Ok(copy),
        Err(_) => Err(ReadError::Memory),
    }
}

impl MemFiles {
    /// No files, and these calls of `read`, `list`, `replace` and `remove` fail.
    pub fn new(alloc: Global, fails: List<Fail>) -> MemFiles
        ensures { result ≡ record { held = empty; calls = record { fails = fails; made = 0; faults = 0 }; readings = 0; changes = 0 } }
    {
        MemFiles {
            alloc,
            files: BTreeMap::new(alloc),
            schedule: Schedule::new(fails),
            readings: FaultCount::new(),
            changes: FaultCount::new(),
        }
    }

    /// Sets the bytes of a path. This is no call that fails or is counted.
    pub fn put(&mut self, path: &str, bytes: &[u8]) -> Result<(), Memory>
        ensures { MatchResult result (λ _. self.new ≡ record self.old { held = insert self.old.held path.now bytes.now }) (λ _. self.new ≡ self.old) }
    {
        set_file(&mut self.files, self.alloc, path, bytes)
    }

    /// The bytes of a path, if there is such a file. This is no call that fails or is counted.
    pub fn get(&self, path: &str) -> Option<&[u8]>
        ensures { option_copied result ≡ get self.now.held path.now }
    {
        file_at(&self.files, path)
    }

    /// Sets the bytes of a path, as `put`.
    fn set(&mut self, path: &str, bytes: &[u8]) -> Result<(), ReplaceError>
        ensures { MatchResult result (λ _. self.new ≡ record self.old { held = insert self.old.held path.now bytes.now }) (λ error. (error ≡ ReplaceError.Memory) × (self.new ≡ self.old)) }
    {
        match self.put(path, bytes) {
            Ok(()) => Ok(()),
            Err(_) => Err(ReplaceError::Memory),
        }
    }

    /// Takes the path out, and tells whether it was there.
    fn take(&mut self, path: &str) -> bool
        ensures was { MatchBool result ((bytes : Sequence ℕ) × (get self.old.held path.now ≡ Some bytes)) (get self.old.held path.now ≡ None) }
        ensures gone { self.new ≡ record self.old { held = remove self.old.held path.now } }
    {
        take_file(&mut self.files, path)
    }

    /// Counts a fault of `read` or `list`.
    fn fail_reading(&mut self)
        ensures rose { HasCause self.old.readings self.new.readings (Unit {0}) }
        ensures total { HasCause (self.old.readings + self.old.changes) (self.new.readings + self.new.changes) (Unit {0}) }
        ensures call { HasCause self.old.calls.faults self.new.calls.faults (Unit {0}) }
        ensures value { self.new ≡ record self.old { calls = record self.old.calls { faults = min (self.old.calls.faults + 1) (2 ^ 64 - 1) }; readings = min (self.old.readings + 1) (2 ^ 64 - 1) } }
    {
        self.schedule.fault();
        self.readings.rise();
    }

    /// Counts a fault of `replace` or `remove`.
    fn fail_change(&mut self)
        ensures rose { HasCause self.old.changes self.new.changes (Unit {0}) }
        ensures total { HasCause (self.old.readings + self.old.changes) (self.new.readings + self.new.changes) (Unit {0}) }
        ensures call { HasCause self.old.calls.faults self.new.calls.faults (Unit {0}) }
        ensures value { self.new ≡ record self.old { calls = record self.old.calls { faults = min (self.old.calls.faults + 1) (2 ^ 64 - 1) }; changes = min (self.old.changes + 1) (2 ^ 64 - 1) } }
    {
        self.schedule.fault();
        self.changes.rise();
    }
}

impl Files for MemFiles {
    ghost held = { λ files. Some files.held };

    ghost faults = { λ files. files.readings + files.changes };

    ghost readings = { λ files. files.readings };

    ghost changes = { λ files. files.changes };

    fn read(&mut self, alloc: Global, path: &str, limit: u64) -> Result<Vec<u8>, ReadError>
        ensures cause { HasCause (self.old.readings + self.old.changes) (self.new.readings + self.new.changes) (result ≡ Err ReadError.Failed) }
        ensures reading { HasCause self.old.readings self.new.readings (result ≡ Err ReadError.Failed) }
        ensures no_change { self.new.changes ≡ self.old.changes }
        ensures counts { HasCause self.old.calls.faults self.new.calls.faults (result ≡ Err ReadError.Failed) }
        ensures bounded { IsBounded limit result }
        ensures told { (files : FileMap) → Some self.old.held ≡ Some files → ReadGives (get files path.now) limit result }
        ensures same { Some self.new.held ≡ Some self.old.held }
        ensures plan { FollowsPlan self.old.calls self.new.calls (result ≡ Err ReadError.Failed) (IsOk result) }
        ensures still { ¬ (result ≡ Err ReadError.Failed) → (self.new.calls.faults ≡ self.old.calls.faults) × (self.new.readings ≡ self.old.readings) }
        ensures each { IsSome (planned self.old.calls) → result ≡ Err ReadError.Failed }
    {
        if self.schedule.next_call().is_some() {
            self.fail_reading();
            return Err(ReadError::Failed);
        }
        copy_of(alloc, file_at(&self.files, path), limit)
    }

    fn list(&mut self, alloc: Global, path: &str, limit: u32) -> Result<List<Entry>, ListError>
        ensures cause { HasCause (self.old.readings + self.old.changes) (self.new.readings + self.new.changes) (result ≡ Err ListError.Failed) }
        ensures reading { HasCause self.old.readings self.new.readings (result ≡ Err ListError.Failed) }
        ensures no_change { self.new.changes ≡ self.old.changes }
        ensures counts { HasCause self.old.calls.faults self.new.calls.faults (result ≡ Err ListError.Failed) }
        ensures bounded { IsShort limit result }
        ensures told { (files : FileMap) → Some self.old.held ≡ Some files → ListGives files path.now limit result }
        ensures same { Some self.new.held ≡ Some self.old.held }
        ensures plan { FollowsPlan self.old.calls self.new.calls (result ≡ Err ListError.Failed) (IsOk result) }
        ensures still { ¬ (result ≡ Err ListError.Failed) → (self.new.calls.faults ≡ self.old.calls.faults) × (self.new.readings ≡ self.old.readings) }
        ensures each { IsSome (planned self.old.calls) → result ≡ Err ListError.Failed }
    {
        if self.schedule.next_call().is_some() {
            self.fail_reading();
            return Err(ListError::Failed);
        }
        listing(&self.files, alloc, path, limit)
    }

    fn replace(&mut self, alloc: Global, path: &str, bytes: &[u8]) -> Result<(), ReplaceError>
        ensures cause { HasCause (self.old.readings + self.old.changes) (self.new.readings + self.new.changes) (result ≡ Err ReplaceError.Failed) }
        ensures change { HasCause self.old.changes self.new.changes (result ≡ Err ReplaceError.Failed) }
        ensures no_reading { self.new.readings ≡ self.old.readings }
        ensures counts { HasCause self.old.calls.faults self.new.calls.faults (result ≡ Err ReplaceError.Failed) }
        ensures told { (files : FileMap) → Some self.old.held ≡ Some files → ReplaceLeaves files (insert files path.now bytes.now) result (Some self.new.held) }
        ensures plan { FollowsPlan self.old.calls self.new.calls (result ≡ Err ReplaceError.Failed) (IsOk result) }
        ensures still { ¬ (result ≡ Err ReplaceError.Failed) → (self.new.calls.faults ≡ self.old.calls.faults) × (self.new.changes ≡ self.old.changes) }
        ensures each { IsSome (planned self.old.calls) → (result ≡ Err ReplaceError.Failed) ⊎ (result ≡ Err ReplaceError.Memory) }
        ensures done { IfSome (planned self.old.calls) (λ fail. result ≡ Err ReplaceError.Failed → self.new.held ≡ (if fail.done then insert self.old.held path.now bytes.now else self.old.held)) }
    {
        match self.schedule.next_call() {
            None => self.set(path, bytes),
            Some(fail) => {
                if fail.done {
                    self.set(path, bytes)?;
                }
                self.fail_change();
                Err(ReplaceError::Failed)
            }
        }
    }

    fn remove(&mut self, _alloc: Global, path: &str) -> Result<(), RemoveError>
        ensures cause { HasCause (self.old.readings + self.old.changes) (self.new.readings + self.new.changes) (result ≡ Err RemoveError.Failed) }
        ensures change { HasCause self.old.changes self.new.changes (result ≡ Err RemoveError.Failed) }
        ensures no_reading { self.new.readings ≡ self.old.readings }
        ensures counts { HasCause self.old.calls.faults self.new.calls.faults (result ≡ Err RemoveError.Failed) }
        ensures told { (files : FileMap) → Some self.old.held ≡ Some files → RemoveLeaves files path.now result (Some self.new.held) }
        ensures plan { FollowsPlan self.old.calls self.new.calls (result ≡ Err RemoveError.Failed) (IsOk result) }
        ensures still { ¬ (result ≡ Err RemoveError.Failed) → (self.new.calls.faults ≡ self.old.calls.faults) × (self.new.changes ≡ self.old.changes) }
        ensures each { IsSome (planned self.old.calls) → result ≡ Err RemoveError.Failed }
        ensures done { IfSome (planned self.old.calls) (λ fail. result ≡ Err RemoveError.Failed → self.new.held ≡ (if fail.done then remove self.old.held path.now else self.old.held)) }
    {
        match self.schedule.next_call() {
            None => {
                if self.take(path) {
                    Ok(())
                } else {
                    Err(RemoveError::Missing)
                }
            }
            Some(fail) => {
                if fail.done {
                    self.take(path);
                }
                self.fail_change();
                Err(RemoveError::Failed)
            }
        }
    }

    ghost kinds = { λ _. refl };
}

#[cfg(test)]
mod tests {
    use super::*;
    use std::test::Fail as TestFail;

    fn files_with(alloc: Global, call: u64, done: bool) -> Result<MemFiles, Memory> {
        let mut fails = List::new(alloc);
        fails.push(Fail { call, done })?;
        let mut files = MemFiles::new(alloc, fails);
        for path in ["d/a/x", "d/a/y/z", "d/a-b", "d/b", "d//c", "d", "dd/e"] {
            files.put(path, path.as_bytes())?;
        }
        Ok(files)
    }

    /// Names come in their own order, which isn't that of the paths, and a folder once.
    #[test]
    fn lists_what_is_below(rt: HostRuntime) -> Result<(), TestFail> {
        let alloc = rt.alloc();
        let mut files = files_with(alloc, 3, false)?;
        let listed = files.list(alloc, "d", 3)?;
        assert_eq!(rt; listed.len(), 3);
        let expected = [("a", true), ("a-b", false), ("b", false)];
        for (entry, (name, folder)) in listed.as_slice().iter().zip(expected) {
            assert_eq!(rt; entry.name.text(), name);
            assert_eq!(rt; entry.folder, folder);
        }
        assert_eq!(rt; files.list(alloc, "d", 2).err(), Some(ListError::TooMany));
        assert_eq!(rt; files.list(alloc, "d/b", 9).err(), Some(ListError::Missing));
        assert_eq!(rt; files.list(alloc, "d", 9).err(), Some(ListError::Failed));
        Ok(())
    }

    /// A read, a replacement and a removal, of which the one of a number fails.
    #[test]
    fn keeps_what_was_set(rt: HostRuntime) -> Result<(), TestFail> {
        let alloc = rt.alloc();
        let cases = [
            (9, false, true, true),
            (1, false, false, true),
            (1, true, true, true),
            (2, false, true, false),
            (2, true, true, true),
        ];
        for (call, done, replaced, removed) in cases {
            let mut files = files_with(alloc, call, done)?;
            assert_eq!(rt;
                files.read(alloc, "d/b", 2).err(),
                Some(ReadError::TooLarge(3))
            );
            assert_eq!(rt; files.replace(alloc, "d/b", b"new").is_err(), call == 1);
            assert_eq!(rt; files.remove(alloc, "d/a/x").is_err(), call == 2);
            let text: &[u8] = if replaced { b"new" } else { b"d/b" };
            assert_eq!(rt; files.get("d/b"), Some(text));
            assert_eq!(rt; files.get("d/a/x").is_none(), removed);
            assert_eq!(rt;
                files.remove(alloc, "none").err(),
                Some(RemoveError::Missing)
            );
            assert_eq!(rt;
                files.read(alloc, "none", 2).err(),
                Some(ReadError::Missing)
            );
        }
        Ok(())
    }
}
