//! `list-components`: the variants of all components.
ghost use Rattle.std.specs.Prelude.{◌≡◌, ℕ, List as Sequence, Option as Maybe, Some, Err, IfOk, IfErr};
ghost use Rattle.pl_base.specs.Faults.{HasCause};
ghost use Rattle.pl_base.specs.FileMap.{FileMap};
ghost use Rattle.tpm_device.specs.Stored.{Stored};
ghost use Rattle.pcrlock_line.specs.Causes.{HasCauses};
ghost use Rattle.pcrlock_line.specs.Machine.{Machine, Tells};
ghost use Rattle.pcrlock_line.specs.Outcome.{Gives};
ghost use Rattle.pcrlock_input.specs.Answering.{Answers};
ghost use Rattle.pcrlock_read.specs.ComponentLines.{listed_of, list_components_line};

use pcrlock_input::{InputError, read_components};
use pcrlock_line::{Reply, Stop};
use pcrlock_words::components_text;
use pl_base::{Files, Name};
use std::alloc::Global;

/// The text of the components in the folders.
fn listed<F: Files>(alloc: Global, files: &mut F, folders: &[Name]) -> Result<Vec<u8>, InputError>
    ensures cause { HasCause (F.faults files.old) (F.faults files.new) (result ≡ Err InputError.Failed) }
    ensures told { (held : FileMap) → F.held files.old ≡ Some held → Answers (λ text. text.items) result (listed_of held folders.now) }
    ensures same { F.held files.new ≡ F.held files.old }
{
    let tree = read_components(alloc, files, folders)?;
    Ok(components_text(alloc, &tree)?)
}

/// Prints the variants of the components in the folders, of which the first hides what stands under
/// the same names in those behind it: a line for each, with the component's id, the variant's name
/// and the number of its records.
///
/// The answers for which it prints nothing are those of reading the components, the first whose cause
/// holds:
///
/// | Answer | Cause |
/// |---|---|
/// | `Limit`, `entries` 4097 | a folder has more than 4,096 entries |
/// | `Malformed` at `name` | an entry gives a component or variant a bad name |
/// | `Limit`, `component-bytes` | a component file has this many bytes, more than 1,048,576 |
/// | `Malformed` at `json`, `records` or a number | it is no list of records |
/// | `Limit`, `records` 257 | it has more than 256 records |
/// | `Limit`, `variants` 65, `components` 257, `total` 65537 | there are more than 64, 256 or 65,536 records in all |
///
/// The files stay as they are. It stops with `ReadFault` or `Memory`.
pub fn list_components<F: Files>(
    alloc: Global,
    files: &mut F,
    folders: &[Name],
) -> Result<Reply, Stop>
    ensures causes { HasCauses (F.faults files.old, 0, 0, 0) (F.faults files.new, 0, 0, 0) result }
    ensures told { (stored : Maybe Stored) (words : Maybe (Sequence (Sequence ℕ))) (m : Machine) → Tells (F.held files.old) stored words m
        → IfOk result (λ reply. Gives (F.held files.new) stored words reply (list_components_line folders.now m)) }
    ensures stops { (stored : Maybe Stored) (words : Maybe (Sequence (Sequence ℕ))) (m : Machine) → Tells (F.held files.old) stored words m
        → IfErr result (λ _. Tells (F.held files.new) stored words m) }
    ensures same { F.held files.new ≡ F.held files.old }
{
    match listed(alloc, files, folders) {
        Ok(text) => Ok(Reply::Fine(text)),
        Err(InputError::Refused(answer)) => Ok(Reply::Refused(answer)),
        Err(InputError::Failed) => Err(Stop::ReadFault),
        Err(InputError::Memory) => Err(Stop::Memory),
    }
}
