//! Loading the tree.

ghost use Rattle.std.specs.Prelude.{◌≡◌, ◌≢◌, ◌≤◌, [], length, map, option_map, Some, Err, IfOk, IfSome};
ghost use Rattle.pl_base.specs.Faults.{HasCause};
ghost use Rattle.pl_base.specs.FileMap.{FileMap};
ghost use Rattle.cel_record.specs.Spelled.{spelled};
ghost use Rattle.component_tree.specs.Limits.{record_limit};
ghost use Rattle.component_tree.specs.PlainTree.{plain, records_in_all};
ghost use Rattle.component_tree.specs.Reading.{with_found, loaded, tree_in};
ghost use Rattle.component_tree.specs.Taken.{AreThere};
ghost use Rattle.component_tree.specs.Growth.{IsWithin, IsUpTo};
ghost use Rattle.component_tree.specs.Step.{Answers};
ghost use Rattle.component_tree.specs.TreeOf.{IsTreeOf};

use crate::error::TreeError;
use crate::growing::add_records;
use crate::place::Place;
use crate::reading::read_place;
use crate::taken::Overlay;
use crate::tree::{Component, Tree};
use crate::walk::walk;
use cel_record::CelRecord;
use pl_base::{Files, List, Name};
use std::alloc::Global;

/// What was found of a place, as one more variant if there is one. It answers how many records there
/// are then in all.
fn add_found(
    alloc: Global,
    components: &mut List<Component>,
    total: usize,
    place: &Place,
    found: Option<List<CelRecord>>,
) -> Result<usize, TreeError>
    requires within { IsWithin (plain components.old) }
    requires in_order { IsUpTo place.now.id (plain components.old) }
    requires counted { total ≡ records_in_all (plain components.old) }
    requires fits { IfSome found (λ rs. length rs ≤ record_limit) }
    ensures gives { Answers (λ _. plain components.new) result (with_found (plain components.old) place.now (option_map (λ rs. map spelled rs) found)) }
    ensures fine { result ≢ Err TreeError.Failed }
    ensures within { IfOk result (λ _. IsWithin (plain components.new)) }
    ensures in_order { IfOk result (λ _. IsUpTo place.now.id (plain components.new)) }
    ensures counted { IfOk result (λ n. n ≡ records_in_all (plain components.new)) }
{
    match found {
        Some(records) => add_records(alloc, components, total, place, records),
        None => Ok(total),
    }
}

/// The components of the files, which stand in the order of their places.
fn load<F: Files>(alloc: Global, files: &mut F, taken: &Overlay) -> Result<Tree, TreeError>
    requires there { (map : FileMap) → F.held files.old ≡ Some map → AreThere map taken.now.first.entries }
    ensures cause { HasCause (F.faults files.old) (F.faults files.new) (result ≡ Err TreeError.Failed) }
    ensures told { (map : FileMap) → F.held files.old ≡ Some map → Answers (λ tree. plain tree.components) result (loaded map [] taken.now.first.entries) }
    ensures same { F.held files.new ≡ F.held files.old }
{
    // That the places are in order is known of a map whose entries were counted.
    let _count = taken.first.len();
    let mut components = List::new(alloc);
    let mut total = 0;
    for (place, path) in &taken.first {
        let found = match read_place(alloc, files, place, path, &taken.behind) {
            Ok(found) => found,
            Err(error) => return Err(error),
        };
        match add_found(alloc, &mut components, total, place, found) {
            Ok(count) => total = count,
            Err(error) => return Err(error),
        }
    }
    Ok(Tree { components })
}

/// The tree of the components in the folders, of which the first hides what stands under the same
/// names in those behind it.
///
/// A component `X` has the variant of the file `X.pcrlock`, named `-`, and those of the files in the
/// folder `X.pcrlock.d` whose names end in `.pcrlock`, named without that ending (systemd.pcrlock(5)).
/// An empty file gives no variant and hides those of its name; a component without a variant is
/// none. Folders that aren't there are empty, and all other entries are passed over. A listed file that
/// isn't there when it is read, as a link that leads nowhere, is taken as not listed; over files that
/// tell their map there is none.
///
/// # Errors
///
/// The folders are listed in their order, each with its folders of variants in the order of the
/// entries: `Failed`, `TooMany(Entries)` and `BadName` come as they are met. Then the files are read
/// in the order of the tree: `Failed`, `TooMany(FileBytes)`, `Malformed` and `TooMany(Records)` come
/// for the file itself, then `TooMany` of `Variants`, `Components` and `Total` for the variant that it
/// gives. `Failed` comes only where the files' count of faults rose, and `Memory` may come at any
/// step. The files are not changed.
#[tactic(auto, unfolding(crate::specs::Reading::tree_in))]
pub fn load_tree<F: Files>(
    alloc: Global,
    files: &mut F,
    folders: &[Name],
) -> Result<Tree, TreeError>
    ensures cause { HasCause (F.faults files.old) (F.faults files.new) (result ≡ Err TreeError.Failed) }
    ensures told { (map : FileMap) → F.held files.old ≡ Some map → Answers (λ tree. plain tree.components) result (tree_in map folders.now) }
    ensures selected { (map : FileMap) → F.held files.old ≡ Some map → IfOk result (λ tree. IsTreeOf map folders.now (plain tree.components)) }
    ensures same { F.held files.new ≡ F.held files.old }
{
    let taken = walk(alloc, files, folders)?;
    load(alloc, files, &taken)
}
