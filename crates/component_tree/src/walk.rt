//! Walking folders of components.

ghost use Rattle.std.specs.Prelude.{◌≡◌, Some, Err, IfOk};
ghost use Rattle.std.specs.BTreeMap.{IsOrdered};
ghost use Rattle.pl_base.specs.Faults.{HasCause};
ghost use Rattle.pl_base.specs.FileMap.{FileMap};
ghost use Rattle.component_tree.specs.Names.{folder_ending, stem_of};
ghost use Rattle.component_tree.specs.Places.{place_cmp};
ghost use Rattle.component_tree.specs.Step.{Answers};
ghost use Rattle.component_tree.specs.Taken.{entries_of, with_variants, with_entry, with_entries, with_folder, with_folders, taken_in};

use crate::error::{TreeError, TreeLimit};
use crate::name::{is_good_name, stem};
use crate::taken::{Overlay, note_own, note_variants, path_below};
use pl_base::{Entry, Files, List, ListError, Name};
use std::alloc::Global;
use std::collections::BTreeMap;

/// The ending of the name of a folder of variants.
const FOLDER_ENDING: &str = ".pcrlock.d";

const ENTRY_LIMIT: u32 = 4096;

/// The entries of a folder; none where it isn't there.
fn list_folder<F: Files>(
    alloc: Global,
    files: &mut F,
    folder: &str,
) -> Result<List<Entry>, TreeError>
    ensures cause { HasCause (F.faults files.old) (F.faults files.new) (result ≡ Err TreeError.Failed) }
    ensures told { (map : FileMap) → F.held files.old ≡ Some map → Answers (λ entries. entries) result (entries_of map folder.now) }
    ensures same { F.held files.new ≡ F.held files.old }
{
    match files.list(alloc, folder, ENTRY_LIMIT) {
        Ok(entries) => Ok(entries),
        Err(ListError::Missing) => Ok(List::new(alloc)),
        Err(ListError::TooMany) => Err(TreeError::TooMany(TreeLimit::Entries)),
        Err(ListError::Failed) => Err(TreeError::Failed),
        Err(ListError::Memory) => Err(TreeError::Memory),
    }
}

/// Takes the files of a component's variants, if the name is that of a folder of them.
fn walk_variants<F: Files>(
    alloc: Global,
    files: &mut F,
    taken: &mut Overlay,
    name: &str,
    path: Name,
) -> Result<(), TreeError>
    ensures cause { HasCause (F.faults files.old) (F.faults files.new) (result ≡ Err TreeError.Failed) }
    ensures told { (map : FileMap) → F.held files.old ≡ Some map → Answers (λ _. taken.new.first.entries) result (with_variants map (stem_of folder_ending name.now) taken.old.first.entries path) }
    ensures same { F.held files.new ≡ F.held files.old }
{
    let Some(id) = stem(name, FOLDER_ENDING) else {
        return Ok(());
    };
    if !is_good_name(id) {
        return Err(TreeError::BadName(path));
    }
    let entries = list_folder(alloc, files, path.text())?;
    note_variants(alloc, taken, id, path.text(), entries.as_slice())
}

/// Takes what an entry of a folder of components gives.
fn walk_entry<F: Files>(
    alloc: Global,
    files: &mut F,
    taken: &mut Overlay,
    folder: &str,
    entry: &Entry,
) -> Result<(), TreeError>
    ensures cause { HasCause (F.faults files.old) (F.faults files.new) (result ≡ Err TreeError.Failed) }
    ensures told { (map : FileMap) → F.held files.old ≡ Some map → Answers (λ _. taken.new.first.entries) result (with_entry map taken.old.first.entries folder.now entry.now) }
    ensures same { F.held files.new ≡ F.held files.old }
{
    let name = entry.name.text();
    let path = path_below(alloc, folder, name)?;
    if entry.folder {
        walk_variants(alloc, files, taken, name, path)
    } else {
        note_own(alloc, taken, name, path)
    }
}

/// Takes what a folder of components gives.
fn walk_folder<F: Files>(
    alloc: Global,
    files: &mut F,
    taken: &mut Overlay,
    folder: &str,
) -> Result<(), TreeError>
    ensures cause { HasCause (F.faults files.old) (F.faults files.new) (result ≡ Err TreeError.Failed) }
    ensures told { (map : FileMap) → F.held files.old ≡ Some map → Answers (λ _. taken.new.first.entries) result (with_folder map taken.old.first.entries folder.now) }
    ensures same { F.held files.new ≡ F.held files.old }
{
    let entries = list_folder(alloc, files, folder)?;
    for entry in entries.as_slice() {
        walk_entry(alloc, files, taken, folder, entry)?;
    }
    Ok(())
}

/// The component files that the folders give together, each with the paths that it may be taken from.
pub(crate) fn walk<F: Files>(
    alloc: Global,
    files: &mut F,
    folders: &[Name],
) -> Result<Overlay, TreeError>
    ensures cause { HasCause (F.faults files.old) (F.faults files.new) (result ≡ Err TreeError.Failed) }
    ensures told { (map : FileMap) → F.held files.old ≡ Some map → Answers (λ taken. taken.first.entries) result (taken_in map folders.now) }
    ensures in_order { IfOk result (λ taken. IsOrdered place_cmp taken.first) }
    ensures same { F.held files.new ≡ F.held files.old }
{
    let mut taken = Overlay {
        first: BTreeMap::new(alloc),
        behind: BTreeMap::new(alloc),
    };
    for folder in folders {
        walk_folder(alloc, files, &mut taken, folder.text())?;
    }
    // That the places are in order is known of a map whose entries were counted.
    let _count = taken.first.len();
    Ok(taken)
}
