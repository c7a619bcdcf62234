//! Where a file stands on the system, by its folder itself and not by a path to it.
ghost use Rattle.std.specs.Prelude.{◌≡◌, ◌↔◌, ◌⊎◌, ◌++◌, ◌∷◌, ℕ, List as Sequence, false, nat_eq, IsTrue};
ghost use Rattle.std.specs.List.{list_any};
ghost use Rattle.pl_base.specs.FileMap.{slash};
ghost use Rattle.pcrlock_files.specs.Beside.{AreBeside, new_of};

use pl_base::{List, Memory, Name, folder_of, last_cut};
use std::alloc::Global;
use std::fs::Metadata;
use std::os::unix::fs::MetadataExt;
use std::{fs, rt};

/// A folder on the system, which links and `..` lead to, too: the device and the number there
/// (stat(2), st_dev and st_ino).
#[derive(Clone, Copy, PartialEq, Eq)]
pub struct Folder {
    device: u64,
    number: u64,
}

/// A folder, and a name in it.
#[derive(Drop)]
pub struct Place {
    folder: Folder,
    name: Name,
}

/// The folder that a path's last name stands in, where there is one.
pub fn folder_at<R: rt::Files>(system: &R, path: &str) -> Option<Folder> {
    let found: Metadata = fs::metadata(system, folder_of(path)).ok()?;
    Some(Folder {
        device: found.dev(),
        number: found.ino(),
    })
}

/// The last name of a path.
pub fn name_of(path: &str) -> &str
    ensures plain { list_any (nat_eq slash) result.now ≡ false }
    ensures last { (result.now ≡ path.now) ⊎ ((front : Sequence ℕ) × (path.now ≡ front ++ slash ∷ result.now)) }
{
    match last_cut(path) {
        Some((_, name)) => name,
        None => path,
    }
}

/// Whether a name is that of the file that a replacement of the other writes first.
fn is_new_of(name: &str, other: &str) -> bool
    ensures { IsTrue result ↔ (name.now ≡ new_of other.now) }
{
    match name.strip_suffix(".new") {
        Some(front) => front == other,
        None => false,
    }
}

/// Whether a call on the one name reaches a file of the other: they are equal, or the one is the
/// other with `.new` behind it.
pub fn is_beside(name: &str, other: &str) -> bool
    ensures { IsTrue result ↔ AreBeside name.now other.now }
{
    name == other || is_new_of(name, other) || is_new_of(other, name)
}

impl Place {
    /// Whether a call on a name in a folder reaches what stands here.
    pub fn is_reached(&self, folder: Folder, name: &str) -> bool
        ensures { IsTrue result ↔ ((folder ≡ self.now.folder) × AreBeside name.now self.now.name) }
    {
        self.folder == folder && is_beside(name, self.name.text())
    }
}

/// Adds the place of a path, where its folder is there.
fn add_place<R: rt::Files>(
    system: &R,
    alloc: Global,
    path: &str,
    places: &mut List<Place>,
) -> Result<(), Memory> {
    let Some(folder) = folder_at(system, path) else {
        return Ok(());
    };
    let name = Name::from_text(alloc, name_of(path))?;
    places.push(Place { folder, name })
}

/// The places of a path: its own, and where it is a link that of the file that it leads to.
pub fn places_of<R: rt::Files>(
    system: &R,
    alloc: Global,
    path: &str,
) -> Result<List<Place>, Memory> {
    let mut places = List::new(alloc);
    add_place(system, alloc, path, &mut places)?;
    if let Ok(target) = fs::canonicalize(&(system, alloc), path) {
        add_place(system, alloc, target.as_str(), &mut places)?;
    }
    Ok(places)
}
