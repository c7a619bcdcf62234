//! Reading component files.

ghost use Rattle.std.specs.Prelude.{◌≡◌, ◌≢◌, ◌≤◌, map, length, option_map, true, Some, None, Err, IfOk, IfSome};
ghost use Rattle.std.specs.FinMap.{contains_key};
ghost use Rattle.pl_base.specs.Faults.{HasCause};
ghost use Rattle.pl_base.specs.FileMap.{FileMap};
ghost use Rattle.cel_record.specs.Spelled.{spelled};
ghost use Rattle.component_tree.specs.Limits.{record_limit};
ghost use Rattle.component_tree.specs.Contents.{records_in, HasFew};
ghost use Rattle.component_tree.specs.Reading.{records_of, records_at, refusal_of, IsRefusalOr};
ghost use Rattle.component_tree.specs.Step.{Answers};

use crate::error::{TreeError, TreeLimit};
use crate::place::Place;
use cel_record::{CelRecord, RecordsError, read_records};
use pl_base::{Files, List, Name, ReadError};
use std::alloc::Global;
use std::collections::BTreeMap;

const BYTE_LIMIT: u64 = 1_048_576;

/// The path of a file that is no list of records, and what is wrong with it.
fn malformed(alloc: Global, path: &Name, kind: RecordsError) -> TreeError
    ensures gives { IsRefusalOr TreeError.Memory (TreeError.Malformed path.now kind) result }
    ensures fine { result ≢ TreeError.Failed }
{
    match path.copy(alloc) {
        Ok(path) => TreeError::Malformed { path, kind },
        Err(_) => TreeError::Memory,
    }
}

/// Why the file at the path is refused.
fn refusal(alloc: Global, path: &Name, kind: RecordsError) -> TreeError
    ensures gives { IsRefusalOr TreeError.Memory (refusal_of path.now kind) result }
    ensures fine { result ≢ TreeError.Failed }
{
    match kind {
        RecordsError::TooMany => TreeError::TooMany(TreeLimit::Records),
        RecordsError::Memory => TreeError::Memory,
        RecordsError::NotJson => malformed(alloc, path, kind),
        RecordsError::NotRecords => malformed(alloc, path, kind),
        RecordsError::BadRecord { .. } => malformed(alloc, path, kind),
    }
}

/// What stands at a path.
#[derive(Drop)]
enum Contents {
    /// No file.
    Missing,
    /// A file of no bytes.
    Empty,
    /// The records of a file.
    Records(List<CelRecord>),
}

/// What the bytes of the file at the path are.
fn read_bytes(alloc: Global, path: &Name, bytes: &[u8]) -> Result<Contents, TreeError>
    ensures gives { Answers records_in result (records_of path.now bytes.now) }
    ensures fine { result ≢ Err TreeError.Failed }
    ensures there { result ≢ Ok Contents.Missing }
    ensures few { IfOk result HasFew }
{
    if bytes.is_empty() {
        return Ok(Contents::Empty);
    }
    match read_records(alloc, bytes) {
        Ok(records) => Ok(Contents::Records(records)),
        Err(kind) => Err(refusal(alloc, path, kind)),
    }
}

/// What stands at the path.
fn read_file<F: Files>(alloc: Global, files: &mut F, path: &Name) -> Result<Contents, TreeError>
    ensures cause { HasCause (F.faults files.old) (F.faults files.new) (result ≡ Err TreeError.Failed) }
    ensures told { (map_of : FileMap) → F.held files.old ≡ Some map_of → Answers records_in result (records_at map_of path.now) }
    ensures there { (map_of : FileMap) → F.held files.old ≡ Some map_of → contains_key map_of path.now ≡ true → result ≢ Ok Contents.Missing }
    ensures few { IfOk result HasFew }
    ensures same { F.held files.new ≡ F.held files.old }
{
    match files.read(alloc, path.text(), BYTE_LIMIT) {
        Ok(bytes) => read_bytes(alloc, path, &bytes),
        Err(ReadError::Missing) => Ok(Contents::Missing),
        Err(ReadError::TooLarge(size)) => Err(TreeError::TooMany(TreeLimit::FileBytes(size))),
        Err(ReadError::Failed) => Err(TreeError::Failed),
        Err(ReadError::Memory) => Err(TreeError::Memory),
    }
}

/// The records of the first of these files that is there, and none where it is empty or none is.
fn read_behind<F: Files>(
    alloc: Global,
    files: &mut F,
    paths: &[Name],
) -> Result<Option<List<CelRecord>>, TreeError>
    ensures cause { HasCause (F.faults files.old) (F.faults files.new) (result ≡ Err TreeError.Failed) }
    ensures few { IfOk result (λ found. IfSome found (λ rs. length rs ≤ record_limit)) }
    ensures same { F.held files.new ≡ F.held files.old }
{
    for path in paths {
        match read_file(alloc, files, path) {
            Ok(Contents::Missing) => {}
            Ok(Contents::Empty) => return Ok(None),
            Ok(Contents::Records(records)) => return Ok(Some(records)),
            Err(error) => return Err(error),
        }
    }
    Ok(None)
}

/// The records of the file of a place, and none where it is empty. A file that isn't there when it is
/// read is taken as not listed: the next one of its place is read, if there is one.
pub(crate) fn read_place<F: Files>(
    alloc: Global,
    files: &mut F,
    place: &Place,
    path: &Name,
    behind: &BTreeMap<Place, List<Name>>,
) -> Result<Option<List<CelRecord>>, TreeError>
    ensures cause { HasCause (F.faults files.old) (F.faults files.new) (result ≡ Err TreeError.Failed) }
    ensures told { (map_of : FileMap) → F.held files.old ≡ Some map_of → contains_key map_of path.now ≡ true → Answers (λ found. option_map (λ rs. map spelled rs) found) result (records_at map_of path.now) }
    ensures few { IfOk result (λ found. IfSome found (λ rs. length rs ≤ record_limit)) }
    ensures same { F.held files.new ≡ F.held files.old }
{
    match read_file(alloc, files, path) {
        Ok(Contents::Missing) => match behind.get(place) {
            Some(paths) => read_behind(alloc, files, paths.as_slice()),
            None => Ok(None),
        },
        Ok(Contents::Empty) => Ok(None),
        Ok(Contents::Records(records)) => Ok(Some(records)),
        Err(error) => Err(error),
    }
}
