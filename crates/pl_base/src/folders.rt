//! The folder of a path on the system: where it is, that it is made, and what in it is durable.
ghost use Rattle.std.specs.Prelude.{◌≡◌, ◌++◌, ◌∷◌, false, nat_eq, MatchOption};
ghost use Rattle.std.specs.List.{list_any};
ghost use Rattle.pl_base.specs.FileMap.{slash};

use std::fs::{DirBuilder, OpenFile};
use std::io::ErrorKind;
use std::os::unix::fs::DirBuilderExt;
use std::{fs, io, rt};

/// Who may enter a folder that is made: its owner alone, since a file in it may hold keys.
const OWNER_ONLY: u32 = 0o700;

/// What stands before the last slash of a path and behind it, where it has a slash.
pub fn last_cut(path: &str) -> Option<(&str, &str)>
    ensures { MatchOption result (list_any (nat_eq slash) path.now ≡ false) (λ parts. (path.now ≡ parts.0.now ++ slash ∷ parts.1.now) × (list_any (nat_eq slash) parts.1.now ≡ false)) }
{
    path.rsplit_once('/')
}

/// The folder that holds the last name of a path.
pub fn folder_of(path: &str) -> &str {
    match last_cut(path) {
        None => ".",
        Some(("", _)) => "/",
        Some((folder, _)) => folder,
    }
}

/// Makes the folders that a path lacks, which only their owner may enter (mode 0700).
pub fn make_folder_of<R: rt::Files>(files: &R, path: &str) -> io::Result<()> {
    DirBuilder::new()
        .recursive(true)
        .mode(OWNER_ONLY)
        .create(files, folder_of(path))
}

/// Has the system store what was renamed or removed in the folder of a path, so that a power cut
/// doesn't undo it (fsync(2) of the folder). A folder that may not be opened, or whose file system
/// stores no folder by itself, is passed over; any other failure is told.
pub fn sync_folder_of<R: rt::Files>(files: &R, path: &str) -> io::Result<()> {
    let Ok(folder) = fs::open(files, folder_of(path)) else {
        return Ok(());
    };
    match folder.sync_all() {
        Err(error) if !is_unable(error.kind()) => Err(error),
        _ => Ok(()),
    }
}

/// Whether a file system answers thus because it can't sync a folder, and not because that failed.
fn is_unable(kind: ErrorKind) -> bool {
    matches!(
        kind,
        ErrorKind::InvalidInput | ErrorKind::Unsupported | ErrorKind::ReadOnlyFilesystem
    )
}

#[cfg(test)]
mod tests {
    use super::*;
    use std::os::unix::fs::PermissionsExt;
    use std::test::Fail;

    #[test]
    fn finds_the_folder(rt: HostRuntime) -> Result<(), Fail> {
        for (path, folder) in [
            ("file", "."),
            ("/file", "/"),
            ("a/b/file", "a/b"),
            ("a/", "a"),
            ("./file", "."),
        ] {
            assert_eq!(rt; folder_of(path), folder);
        }
        Ok(())
    }

    #[test]
    fn makes_and_syncs_folders(rt: HostRuntime) -> Result<(), Fail> {
        let path = "folders_test/deep/file";
        make_folder_of(&rt, path)?;
        make_folder_of(&rt, path)?;
        for folder in ["folders_test", "folders_test/deep"] {
            let mode = fs::metadata(&rt, folder)?.permissions().mode();
            assert_eq!(rt; mode & 0o777, 0o700);
        }
        sync_folder_of(&rt, path)?;
        sync_folder_of(&rt, "folders_test/none/file")?;
        sync_folder_of(&rt, "/proc/file")?;
        fs::remove_dir_all(&rt, "folders_test")?;
        Ok(())
    }
}
