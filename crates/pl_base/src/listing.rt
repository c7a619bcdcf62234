//! What stands directly below a path, found in one pass over the paths below it. Names are
//! collected in a map, as their order isn't that of the paths: `a/b` stands behind `a-b`, and `a`
//! before it.
ghost use Rattle.std.specs.Prelude.{◌≡◌, ◌≢◌, ◌++◌, ◌∷◌, [], ℕ, List as Sequence, Bool, string_bytes, ◌<◌, false, true, cond, Option, None, Some, Ok, Err, MatchOption, IfOk, length, if◌then◌else◌};
ghost use Rattle.std.specs.List.{list_any};
ghost use Rattle.std.specs.Prelude.{nat_eq};
ghost use Rattle.std.specs.Str.{bytes_eq};
ghost use Rattle.std.specs.BTreeMap.{get_by_text, keys};
ghost use Rattle.pl_base.specs.FileMap.{slash};
ghost use Rattle.pl_base.specs.FileAnswers.{ListGives, IsShort};
ghost use Rattle.pl_base.specs.Listing.{told_of, told_by_all, joined, entries_of, is_part};
ghost use Rattle.pl_base.specs.MemoryFiles.{files_of};

use crate::{Entry, List, ListError, Memory, Name};
use std::alloc::Global;
use std::collections::BTreeMap;

/// The character behind the slash: all paths below a path stand between the path with a slash and
/// the path with this one behind it.
const AFTER_SLASH: char = '0';

/// What follows the path and a slash in a held path.
fn rest_below<'a>(held: &'a str, path: &str) -> Option<&'a str>
    ensures { MatchOption result ((rest : Sequence ℕ) → held.now ≢ path.now ++ slash ∷ rest) (λ rest. held.now ≡ path.now ++ slash ∷ rest.now) }
{
    match held.strip_prefix(path) {
        Some(rest) => rest.strip_prefix('/'),
        None => None,
    }
}

/// The first part of a path, and whether more follows.
fn first_part(rest: &str) -> (&str, bool)
    ensures plain { list_any (nat_eq slash) result.0.now ≡ false }
    ensures whole { (more : Sequence ℕ) × (rest.now ≡ (if result.1 then result.0.now ++ slash ∷ more else result.0.now)) }
{
    match rest.split_once('/') {
        Some((part, _)) => (part, true),
        None => (rest, false),
    }
}

/// The name directly below the path on the way to a held path, and whether it is a folder.
fn name_below<'a>(held: &'a str, path: &str) -> Option<(&'a str, bool)>
    ensures { MatchOption result ((name : Sequence ℕ) → told_of path.now name held.now ≡ None) (λ found. (name : Sequence ℕ) → told_of path.now name held.now ≡ cond (bytes_eq name found.0.now) (Some found.1) None) }
{
    match rest_below(held, path) {
        Some(rest) => {
            let (name, folder) = first_part(rest);
            if name.is_empty() {
                None
            } else {
                Some((name, folder))
            }
        }
        None => None,
    }
}

/// Whether a name is a folder, given whether it was known as one, and whether it is told as one.
fn is_folder(known: Option<bool>, folder: bool) -> bool
    ensures { Some result ≡ joined known (Some folder) }
{
    match known {
        Some(known) => known || folder,
        None => folder,
    }
}

/// Notes that the name stands there, and whether as a folder.
fn note(
    names: &mut BTreeMap<String, bool>,
    alloc: Global,
    name: &str,
    folder: bool,
) -> Result<(), Memory>
    ensures { IfOk result (λ _. (other : Sequence ℕ) → get_by_text names.new other ≡ joined (get_by_text names.old other) (cond (bytes_eq other name.now) (Some folder) None)) }
{
    let folder = is_folder(names.get(name).copied(), folder);
    names.insert(String::from_str(alloc, name)?, folder)?;
    Ok(())
}

/// The path with an ASCII character behind it.
fn path_with(alloc: Global, path: &str, behind: char) -> Result<String, Memory>
    requires { behind < 128 }
    ensures { IfOk result (λ text. string_bytes text ≡ path.now ++ behind ∷ []) }
{
    let mut text = String::from_str(alloc, path)?;
    text.push(behind)?;
    Ok(text)
}

/// All names directly below the path, and whether they are folders.
fn names_below(
    files: &BTreeMap<String, Vec<u8>>,
    alloc: Global,
    path: &str,
) -> Result<BTreeMap<String, bool>, Memory>
    ensures { IfOk result (λ names. (name : Sequence ℕ) → get_by_text names name ≡ told_by_all path.now name (keys files.now)) }
{
    let from = path_with(alloc, path, '/')?;
    let to = path_with(alloc, path, AFTER_SLASH)?;
    let mut names = BTreeMap::new(alloc);
    for (held, _) in files.range(from..to) {
        if let Some((name, folder)) = name_below(held.as_str(), path) {
            note(&mut names, alloc, name, folder)?;
        }
    }
    Ok(names)
}

/// The entries of the names, in their order.
fn entries(names: &BTreeMap<String, bool>, alloc: Global) -> Result<Vec<Entry>, Memory>
    ensures { IfOk result (λ entries. entries.items ≡ entries_of names.now.entries) }
{
    let mut entries = Vec::new(alloc);
    for (name, folder) in names {
        let name = Name::from_text(alloc, name.as_str())?;
        entries.push(Entry {
            name,
            folder: *folder,
        })?;
    }
    Ok(entries)
}

/// What stands directly below the path, where there are not too many.
pub fn listing(
    files: &BTreeMap<String, Vec<u8>>,
    alloc: Global,
    path: &str,
    limit: u32,
) -> Result<List<Entry>, ListError>
    ensures gives { ListGives (files_of files.now.entries) path.now limit result }
    ensures bounded { IsShort limit result }
    ensures fine { result ≢ Err ListError.Failed }
{
    let Ok(names) = names_below(files, alloc, path) else {
        return Err(ListError::Memory);
    };
    let count = names.len();
    if count == 0 {
        return Err(ListError::Missing);
    }
    if count > limit as usize {
        return Err(ListError::TooMany);
    }
    match entries(&names, alloc) {
        Ok(entries) => Ok(List::from_vec(entries)),
        Err(_) => Err(ListError::Memory),
    }
}
