ghost use Rattle.std.specs.Prelude.{◌≡◌, ◌≤◌, ◌+◌, refl, ℕ, Option, None, Some, Err, IfOk, IsErr, vec_len};
ghost use Rattle.std.specs.FinMap.{get, insert};
ghost use Rattle.pl_base.specs.Faults.{HasCause};
ghost use Rattle.pl_base.specs.FileMap.{FileMap};
ghost use Rattle.pl_base.specs.FileAnswers.{ReadGives, IsBounded, ListGives, IsShort, ReplaceLeaves, RemoveLeaves};

use crate::fault_count::FaultCount;
use crate::folders::make_folder_of;
use crate::{Entry, Files, List, ListError, Name, ReadError, RemoveError, ReplaceError};
use std::alloc::Global;
use std::fs::{DirEntry, OpenFile, OpenOptions, ReadDir};
use std::io::{ErrorKind, Read, Write};
use std::os::unix::fs::OpenOptionsExt;
use std::{fs, io, rt};

/// Who may read and write a file that is made: its owner alone, since a file may hold keys.
const OWNER_ONLY: u32 = 0o600;

/// The files of the system. It tells nothing of them, and counts each answer that is an error.
#[derive(Drop)]
pub struct RealFiles<R> {
    files: R,
    readings: FaultCount,
    changes: FaultCount,
}

/// Reads to the end of the file, whatever length the system tells. Past the limit the bytes are
/// only counted.
fn read_file<R: rt::Files>(
    files: &R,
    alloc: Global,
    path: &str,
    limit: u64,
) -> Result<Vec<u8>, ReadError>
    ensures { IsBounded limit result }
{
    let file = match fs::open(files, path) {
        Ok(file) => file,
        Err(error) if error.kind() == ErrorKind::NotFound => return Err(ReadError::Missing),
        Err(_) => return Err(ReadError::Failed),
    };
    let mut front = file.take(limit.saturating_add(1));
    let mut bytes = Vec::new(alloc);
    if let Err(error) = front.read_to_end(&mut bytes) {
        return Err(read_failure(error));
    }
    let size = bytes.len() as u64;
    if size <= limit {
        return Ok(bytes);
    }
    drop(bytes);
    match io::copy(&mut front.into_inner(), &mut io::sink()) {
        Ok(more) => Err(ReadError::TooLarge(size.saturating_add(more))),
        Err(error) => Err(read_failure(error)),
    }
}

/// Why an opened file could not be read on.
fn read_failure(error: io::Error) -> ReadError
    ensures { (limit : ℕ) → IsBounded limit (Err result) }
{
    match error.kind() {
        ErrorKind::OutOfMemory => ReadError::Memory,
        _ => ReadError::Failed,
    }
}

/// Lists a folder in the order of the names' bytes.
fn list_folder<R: rt::Files>(
    files: &R,
    alloc: Global,
    path: &str,
    limit: u32,
) -> Result<List<Entry>, ListError>
    ensures { IsShort limit result }
{
    let folder = match fs::read_dir(&(files, alloc), path) {
        Ok(folder) => folder,
        Err(error) if error.kind() == ErrorKind::NotFound => return Err(ListError::Missing),
        Err(error) => return Err(list_failure(error)),
    };
    let mut entries = entries_of(files, alloc, folder, limit)?;
    if entries.is_empty() {
        return Err(ListError::Missing);
    }
    entries.sort_unstable_by(|a, b| a.name.text().cmp(b.name.text()));
    Ok(List::from_vec(entries))
}

/// The entries of an opened folder, in the order in which the system gives them.
fn entries_of<R: rt::Files, S: rt::Files + Clone + Drop>(
    files: &R,
    alloc: Global,
    folder: ReadDir<S, Global>,
    limit: u32,
) -> Result<Vec<Entry>, ListError>
    ensures { IfOk result (λ entries. vec_len entries ≤ limit) }
{
    let mut entries = Vec::new(alloc);
    for found in folder {
        let found = found.map_err(list_failure)?;
        if entries.len() >= limit as usize {
            return Err(ListError::TooMany);
        }
        let entry = entry_of(files, alloc, &found)?;
        entries.push(entry).map_err(|_| ListError::Memory)?;
    }
    Ok(entries)
}

/// Why a folder could not be read on.
fn list_failure(error: io::Error) -> ListError {
    match error.kind() {
        ErrorKind::OutOfMemory => ListError::Memory,
        _ => ListError::Failed,
    }
}

/// The entry of a name that was found in a folder. A link counts as what it leads to.
fn entry_of<R: rt::Files, S: rt::Files>(
    files: &R,
    alloc: Global,
    found: &DirEntry<S, Global>,
) -> Result<Entry, ListError> {
    let folder = match fs::metadata(files, found.path()) {
        Ok(metadata) => metadata.is_dir(),
        Err(error) if error.kind() == ErrorKind::NotFound => false,
        Err(_) => return Err(ListError::Failed),
    };
    match Name::from_text(alloc, found.file_name()) {
        Ok(name) => Ok(Entry { name, folder }),
        Err(_) => Err(ListError::Memory),
    }
}

/// Writes a file beside the path, and renames it over the path once the system has stored it.
fn replace_file<R: rt::Files>(
    files: &R,
    alloc: Global,
    path: &str,
    bytes: &[u8],
) -> Result<(), ReplaceError> {
    let Ok(beside) = format!(in alloc; "{path}.new") else {
        return Err(ReplaceError::Memory);
    };
    let beside = beside.as_str();
    if write_new(files, path, beside, bytes).is_ok() && fs::rename(files, beside, path).is_ok() {
        return Ok(());
    }
    let _ = fs::remove_file(files, beside);
    Err(ReplaceError::Failed)
}

/// Makes a new file beside the path with these bytes.
fn write_new<R: rt::Files>(files: &R, path: &str, beside: &str, bytes: &[u8]) -> io::Result<()> {
    let mut file = match create(files, beside) {
        Ok(file) => file,
        Err(_) => {
            make_room(files, path, beside)?;
            create(files, beside)?
        }
    };
    file.write_all(bytes)?;
    file.sync_all()
}

/// Opens a file that isn't there yet.
fn create<R: rt::Files>(files: &R, path: &str) -> io::Result<R::File> {
    OpenOptions::new()
        .write(true)
        .create_new(true)
        .mode(OWNER_ONLY)
        .open(files, path)
}

/// Makes the folders that the path lacks, and takes out what stands in the way of a file beside it.
/// Each of the two is a call of the system, so they wait until the file can't be opened.
fn make_room<R: rt::Files>(files: &R, path: &str, beside: &str) -> io::Result<()> {
    make_folder_of(files, path)?;
    remove_leftover(files, beside)
}

/// Takes out a file that a replacement left that was cut off.
fn remove_leftover<R: rt::Files>(files: &R, beside: &str) -> io::Result<()> {
    match fs::remove_file(files, beside) {
        Err(error) if error.kind() != ErrorKind::NotFound => Err(error),
        _ => Ok(()),
    }
}

/// Takes the file out of its folder.
fn remove_file<R: rt::Files>(files: &R, path: &str) -> Result<(), RemoveError> {
    match fs::remove_file(files, path) {
        Ok(()) => Ok(()),
        Err(error) if error.kind() == ErrorKind::NotFound => Err(RemoveError::Missing),
        Err(_) => Err(RemoveError::Failed),
    }
}

impl<R: rt::Files> RealFiles<R> {
    /// The files that the runtime reaches.
    pub fn new(files: R) -> RealFiles<R> {
        RealFiles {
            files,
            readings: FaultCount::new(),
            changes: FaultCount::new(),
        }
    }
}

impl<R: rt::Files> Files for RealFiles<R> {
    ghost held = { λ _. None };

    ghost faults = { λ files. files.readings + files.changes };

    ghost readings = { λ files. files.readings };

    ghost changes = { λ files. files.changes };

    fn read(&mut self, alloc: Global, path: &str, limit: u64) -> Result<Vec<u8>, ReadError>
        ensures cause { HasCause (self.old.readings + self.old.changes) (self.new.readings + self.new.changes) (result ≡ Err ReadError.Failed) }
        ensures reading { HasCause self.old.readings self.new.readings (result ≡ Err ReadError.Failed) }
        ensures no_change { self.new.changes ≡ self.old.changes }
        ensures counts { HasCause self.old.readings self.new.readings (IsErr result) }
        ensures bounded { IsBounded limit result }
        ensures told { (files : FileMap) → None ≡ Some files → ReadGives (get files path.now) limit result }
        ensures same { ◌≡◌ {A = Option FileMap} None None }
    {
        let outcome = read_file(&self.files, alloc, path, limit);
        self.readings.counted(outcome)
    }

    fn list(&mut self, alloc: Global, path: &str, limit: u32) -> Result<List<Entry>, ListError>
        ensures cause { HasCause (self.old.readings + self.old.changes) (self.new.readings + self.new.changes) (result ≡ Err ListError.Failed) }
        ensures reading { HasCause self.old.readings self.new.readings (result ≡ Err ListError.Failed) }
        ensures no_change { self.new.changes ≡ self.old.changes }
        ensures counts { HasCause self.old.readings self.new.readings (IsErr result) }
        ensures bounded { IsShort limit result }
        ensures told { (files : FileMap) → None ≡ Some files → ListGives files path.now limit result }
        ensures same { ◌≡◌ {A = Option FileMap} None None }
    {
        let outcome = list_folder(&self.files, alloc, path, limit);
        self.readings.counted(outcome)
    }

    fn replace(&mut self, alloc: Global, path: &str, bytes: &[u8]) -> Result<(), ReplaceError>
        ensures cause { HasCause (self.old.readings + self.old.changes) (self.new.readings + self.new.changes) (result ≡ Err ReplaceError.Failed) }
        ensures change { HasCause self.old.changes self.new.changes (result ≡ Err ReplaceError.Failed) }
        ensures no_reading { self.new.readings ≡ self.old.readings }
        ensures counts { HasCause self.old.changes self.new.changes (IsErr result) }
        ensures told { (files : FileMap) → None ≡ Some files → ReplaceLeaves files (insert files path.now bytes.now) result None }
    {
        let outcome = replace_file(&self.files, alloc, path, bytes);
        self.changes.counted(outcome)
    }

    fn remove(&mut self, _alloc: Global, path: &str) -> Result<(), RemoveError>
        ensures cause { HasCause (self.old.readings + self.old.changes) (self.new.readings + self.new.changes) (result ≡ Err RemoveError.Failed) }
        ensures change { HasCause self.old.changes self.new.changes (result ≡ Err RemoveError.Failed) }
        ensures no_reading { self.new.readings ≡ self.old.readings }
        ensures counts { HasCause self.old.changes self.new.changes (IsErr result) }
        ensures told { (files : FileMap) → None ≡ Some files → RemoveLeaves files path.now result None }
    {
        let outcome = remove_file(&self.files, path);
        self.changes.counted(outcome)
    }

    ghost kinds = { λ _. refl };
}

#[cfg(test)]
mod tests {
    use super::*;
    use std::os::unix::fs::PermissionsExt;
    use std::test::Fail;

    /// A folder of the test's own.
    const FOLDER: &str = "real_files_test";

    fn has_bytes(
        files: &mut RealFiles<&HostRuntime>,
        alloc: Global,
        path: &str,
        bytes: &[u8],
    ) -> bool {
        match files.read(alloc, path, 1024) {
            Ok(read) => read.as_slice() == bytes,
            Err(_) => false,
        }
    }

    #[test]
    fn keeps_files(rt: HostRuntime) -> Result<(), Fail> {
        let alloc = rt.alloc();
        let _ = fs::remove_dir_all(&rt, FOLDER);
        let mut files = RealFiles::new(&rt);
        assert_eq!(rt;
            files.list(alloc, FOLDER, 9).err(),
            Some(ListError::Missing)
        );
        assert_eq!(rt;
            files.read(alloc, "real_files_test/deep/a-b", 9).err(),
            Some(ReadError::Missing)
        );
        assert_eq!(rt;
            files.remove(alloc, "real_files_test/deep/a-b").err(),
            Some(RemoveError::Missing)
        );

        files.replace(alloc, "real_files_test/deep/a-b", b"old")?;
        fs::write(&rt, "real_files_test/deep/a-b.new", "left over")?;
        files.replace(alloc, "real_files_test/deep/a-b", b"text")?;
        files.replace(alloc, "real_files_test/deep/a/x", b"")?;
        for (made, expected) in [
            ("real_files_test/deep/a-b", 0o600),
            ("real_files_test/deep", 0o700),
            ("real_files_test", 0o700),
        ] {
            let mode = fs::metadata(&rt, made)?.permissions().mode();
            assert_eq!(rt; mode & 0o777, expected);
        }

        assert!(rt; has_bytes(&mut files, alloc, "real_files_test/deep/a-b", b"text"));
        assert!(rt; has_bytes(&mut files, alloc, "real_files_test/deep/a/x", b""));
        assert_eq!(rt;
            files.read(alloc, "real_files_test/deep/a-b", 3).err(),
            Some(ReadError::TooLarge(4))
        );
        // a file of the kernel, whose length it tells as 0
        assert!(rt; has_bytes(&mut files, alloc, "/proc/sys/kernel/ostype", b"Linux\n"));

        let listed = files.list(alloc, "real_files_test/deep", 2)?;
        assert_eq!(rt; listed.len(), 2);
        for (entry, (name, folder)) in listed.as_slice().iter().zip([("a", true), ("a-b", false)]) {
            assert_eq!(rt; entry.name.text(), name);
            assert_eq!(rt; entry.folder, folder);
        }
        assert_eq!(rt;
            files.list(alloc, "real_files_test/deep", 1).err(),
            Some(ListError::TooMany)
        );

        // a folder in place of a file, and paths below a file
        assert_eq!(rt;
            files.read(alloc, "real_files_test/deep", 9).err(),
            Some(ReadError::Failed)
        );
        assert_eq!(rt;
            files.read(alloc, "real_files_test/deep/a-b/x", 9).err(),
            Some(ReadError::Failed)
        );
        assert_eq!(rt;
            files.list(alloc, "real_files_test/deep/a-b", 9).err(),
            Some(ListError::Failed)
        );
        assert_eq!(rt;
            files
                .replace(alloc, "real_files_test/deep/a-b/x", b"")
                .err(),
            Some(ReplaceError::Failed)
        );
        assert_eq!(rt;
            files.replace(alloc, "real_files_test/deep/a", b"").err(),
            Some(ReplaceError::Failed)
        );
        assert_eq!(rt;
            files.remove(alloc, "real_files_test/deep/a-b/x").err(),
            Some(RemoveError::Failed)
        );

        files.remove(alloc, "real_files_test/deep/a-b")?;
        assert_eq!(rt;
            files.read(alloc, "real_files_test/deep/a-b", 9).err(),
            Some(ReadError::Missing)
        );
        fs::remove_dir_all(&rt, FOLDER)?;
        Ok(())
    }
}
