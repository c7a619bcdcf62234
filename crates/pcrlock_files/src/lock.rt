//! The lock that lets one process at a time work on the state files of a folder.

use pl_base::{folder_of, make_folder_of};
use std::fs;
use std::fs::File;

/// Waits until no other process holds the lock on the folder of a path, and takes it (flock(2),
/// exclusive): the system gives it back when the file is dropped or the process ends, however that
/// comes. A folder that isn't there is made first, since a lock on the file itself would hold
/// nothing once a rename puts another in its place. None where the folder can't be made or opened,
/// or its file system has no locks.
///
/// A process that takes the lock of one folder twice waits for itself, for ever.
pub fn lock_folder_of(system: &HostRuntime, path: &str) -> Option<File> {
    make_folder_of(system, path).ok()?;
    let folder = fs::open(system, folder_of(path)).ok()?;
    folder.lock().ok()?;
    Some(folder)
}
