//! Component files by their places, each with the path that it is taken from.

ghost use Rattle.std.specs.Prelude.{◌≡◌, ◌≢◌, Some, None, Err, IfOk, OnOk};
ghost use Rattle.pl_base.specs.FileMap.{path_below as below};
ghost use Rattle.component_tree.specs.Names.{file_ending, stem_of};
ghost use Rattle.component_tree.specs.Step.{Answers};
ghost use Rattle.component_tree.specs.Taken.{noted, named, with_variant_entry, with_variant_entries, with_own};

use crate::error::TreeError;
use crate::name::{is_good_name, stem};
use crate::place::Place;
use pl_base::{Entry, List, Memory, Name};
use std::alloc::Global;
use std::collections::BTreeMap;

/// The ending of a component file's name.
pub(crate) const FILE_ENDING: &str = ".pcrlock";

/// Component files by their places.
#[derive(Drop)]
pub(crate) struct Overlay {
    /// The path of each in the first folder that has it.
    pub first: BTreeMap<Place, Name>,
    /// The paths in the folders behind that one, in their order, where these have it too.
    pub behind: BTreeMap<Place, List<Name>>,
}

/// The path of a name directly below a folder.
pub(crate) fn path_below(alloc: Global, folder: &str, name: &str) -> Result<Name, Memory>
    ensures { IfOk result (λ path. path ≡ below folder.now name.now) }
{
    let mut path = String::new(alloc);
    path.push_str(folder)?;
    path.push('/')?;
    path.push_str(name)?;
    Name::from_text(alloc, path.as_str())
}

/// Notes one more path of a place.
fn note_behind(
    alloc: Global,
    behind: &mut BTreeMap<Place, List<Name>>,
    place: Place,
    path: Name,
) -> Result<(), Memory> {
    if let Some(paths) = behind.get_mut(&place) {
        return paths.push(path);
    }
    let mut paths = List::new(alloc);
    paths.push(path)?;
    behind.insert(place, paths)?;
    Ok(())
}

/// Notes a file with a path: as that of its place, or behind it where an earlier folder has one.
fn note(alloc: Global, taken: &mut Overlay, place: Place, path: Name) -> Result<(), Memory>
    ensures { OnOk result (taken.new.first.entries ≡ noted taken.old.first.entries place path) }
{
    if taken.first.contains_key(&place) {
        return note_behind(alloc, &mut taken.behind, place, path);
    }
    taken.first.insert(place, path)?;
    Ok(())
}

/// Notes a file in a place, where the name that it gives is good.
fn note_named(
    alloc: Global,
    taken: &mut Overlay,
    name: &str,
    place: Place,
    path: Name,
) -> Result<(), TreeError>
    ensures gives { Answers (λ _. taken.new.first.entries) result (named name.now taken.old.first.entries place path) }
    ensures fine { result ≢ Err TreeError.Failed }
{
    if !is_good_name(name) {
        return Err(TreeError::BadName(path));
    }
    note(alloc, taken, place, path)?;
    Ok(())
}

/// Notes the file of a component's variant, if the entry is one.
fn note_variant(
    alloc: Global,
    taken: &mut Overlay,
    id: &str,
    folder: &str,
    entry: &Entry,
) -> Result<(), TreeError>
    ensures gives { Answers (λ _. taken.new.first.entries) result (with_variant_entry taken.old.first.entries id.now folder.now entry.now) }
    ensures fine { result ≢ Err TreeError.Failed }
{
    if entry.folder {
        return Ok(());
    }
    let name = entry.name.text();
    let Some(variant) = stem(name, FILE_ENDING) else {
        return Ok(());
    };
    let place = Place {
        id: Name::from_text(alloc, id)?,
        file: Some(Name::from_text(alloc, name)?),
    };
    let path = path_below(alloc, folder, name)?;
    note_named(alloc, taken, variant, place, path)
}

/// Notes the files of a component's variants in a folder of them.
pub(crate) fn note_variants(
    alloc: Global,
    taken: &mut Overlay,
    id: &str,
    folder: &str,
    entries: &[Entry],
) -> Result<(), TreeError>
    ensures gives { Answers (λ _. taken.new.first.entries) result (with_variant_entries taken.old.first.entries id.now folder.now entries.now) }
    ensures fine { result ≢ Err TreeError.Failed }
{
    for entry in entries {
        note_variant(alloc, taken, id, folder, entry)?;
    }
    Ok(())
}

/// Notes a component's own file, if the name has the ending.
pub(crate) fn note_own(
    alloc: Global,
    taken: &mut Overlay,
    name: &str,
    path: Name,
) -> Result<(), TreeError>
    ensures gives { Answers (λ _. taken.new.first.entries) result (with_own (stem_of file_ending name.now) taken.old.first.entries path) }
    ensures fine { result ≢ Err TreeError.Failed }
{
    let Some(id) = stem(name, FILE_ENDING) else {
        return Ok(());
    };
    let place = Place {
        id: Name::from_text(alloc, id)?,
        file: None,
    };
    note_named(alloc, taken, id, place, path)
}
