//! The tree of components.
ghost use Rattle.std.specs.Prelude.{◌≡◌, Some, Err, IfOk};
ghost use Rattle.pl_base.specs.Faults.{HasCause};
ghost use Rattle.pl_base.specs.FileMap.{FileMap};
ghost use Rattle.component_tree.specs.PlainTree.{plain};
ghost use Rattle.component_tree.specs.TreeOf.{IsTreeOf};
ghost use Rattle.pcrlock_input.specs.Answering.{Answers};
ghost use Rattle.pcrlock_input.specs.Components.{place_in as place_of, limit_answer, components_of};

use crate::error::InputError;
use cel_record::RecordsError;
use component_tree::{Tree, TreeError, TreeLimit, load_tree};
use pcrlock_answer::{Answer, Place, limit};
use pl_base::{Files, Memory, Name};
use std::alloc::Global;

/// Where a component file is malformed.
fn place_in(kind: RecordsError) -> Place
    ensures { result ≡ place_of kind }
{
    match kind {
        RecordsError::NotJson => Place::Json,
        RecordsError::BadRecord { number, .. } => Place::At(u64::from(number)),
        RecordsError::NotRecords | RecordsError::TooMany | RecordsError::Memory => Place::Records,
    }
}

/// The answer for a limit that is passed.
fn passed(alloc: Global, passed: TreeLimit) -> Result<Answer, Memory>
    ensures { IfOk result (λ answer. answer ≡ limit_answer passed) }
{
    match passed {
        TreeLimit::Entries => limit(alloc, "entries", 4097),
        TreeLimit::FileBytes(size) => limit(alloc, "component-bytes", size),
        TreeLimit::Components => limit(alloc, "components", 257),
        TreeLimit::Variants => limit(alloc, "variants", 65),
        TreeLimit::Records => limit(alloc, "records", 257),
        TreeLimit::Total => limit(alloc, "total", 65_537),
    }
}

/// The tree of the components in the folders, of which the first hides what stands under the same
/// names in those behind it.
///
/// # Errors
///
/// `Refused` with `Malformed` at `name` for the path of an entry with a bad name, and at the record's
/// number, `json` or `records` for a component file that is no list of records; with `Limit` of
/// `entries` 4,097, `component-bytes` and the file's length, `records` 257, `variants` 65,
/// `components` 257 and `total` 65,537. They come in the order of [`load_tree`]. The files stay as
/// they are.
pub fn read_components<F: Files>(
    alloc: Global,
    files: &mut F,
    folders: &[Name],
) -> Result<Tree, InputError>
    ensures cause { HasCause (F.faults files.old) (F.faults files.new) (result ≡ Err InputError.Failed) }
    ensures told { (held : FileMap) → F.held files.old ≡ Some held → Answers (λ tree. plain tree.components) result (components_of held folders.now) }
    ensures selected { (held : FileMap) → F.held files.old ≡ Some held → IfOk result (λ tree. IsTreeOf held folders.now (plain tree.components)) }
    ensures same { F.held files.new ≡ F.held files.old }
{
    match load_tree(alloc, files, folders) {
        Ok(tree) => Ok(tree),
        Err(TreeError::BadName(path)) => Err(InputError::Refused(Answer::Malformed {
            path,
            place: Place::BadName,
        })),
        Err(TreeError::Malformed { path, kind }) => Err(InputError::Refused(Answer::Malformed {
            path,
            place: place_in(kind),
        })),
        Err(TreeError::TooMany(limit)) => Err(InputError::Refused(passed(alloc, limit)?)),
        Err(TreeError::Failed) => Err(InputError::Failed),
        Err(TreeError::Memory) => Err(InputError::Memory),
    }
}
