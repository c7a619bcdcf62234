//! Component files (systemd.pcrlock(5)).
ghost use Rattle.std.specs.Prelude.{◌≡◌, ◌≤◌, ◌<◌, ◌^◌, map};
ghost use Rattle.serde_json.specs.View.{view, items_view};
ghost use Rattle.cel_record.specs.Answers.{Answers};
ghost use Rattle.cel_record.specs.ComponentText.{component_of, numbered, records_from, values_of, with_record};
ghost use Rattle.cel_record.specs.RecordText.{record_of};
ghost use Rattle.cel_record.specs.Spelled.{spelled};
ghost use Rattle.cel_record.specs.Step.{Gives};

use crate::error::RecordsError;
use crate::reader::read_record;
use crate::record::CelRecord;
use crate::value::{array_under, read_value};
use hash_bank::Digest;
use pl_base::List;
use serde_json::Value;
use std::alloc::Global;

// How many records one file may have.
const RECORD_LIMIT: usize = 256;

// The record that the value of this number is.
fn numbered_record(number: u32, value: &Value) -> Result<CelRecord, RecordsError>
    ensures { Gives spelled result (numbered number (record_of (view value.now))) }
{
    match read_record(value) {
        Ok(record) => Ok(record),
        Err(kind) => Err(RecordsError::BadRecord { number, kind }),
    }
}

// Puts the record that the value of this number is at the end.
fn add_record(records: &mut List<CelRecord>, number: u32, value: &Value) -> Result<(), RecordsError>
    ensures { Answers (λ _. map spelled records.new) result
        (with_record (map spelled records.old) (numbered number (record_of (view value.now)))) }
{
    let record = numbered_record(number, value)?;
    // A move of a record is checked only where the types in it are named.
    let _sha1: &Option<Digest> = &record.digests.sha1;
    records.push(record)?;
    Ok(())
}

// The records of an array.
fn records_of(alloc: Global, values: &[Value]) -> Result<List<CelRecord>, RecordsError>
    ensures { Answers (λ l. map spelled l) result (records_from 0 (items_view values.now)) }
{
    let mut records = List::new(alloc);
    for (number, value) in values.iter().enumerate() {
        if number == RECORD_LIMIT {
            return Err(RecordsError::TooMany);
        }
        add_record(&mut records, number as u32, value)?;
    }
    Ok(records)
}

// The values that a file's value lists.
fn values_under(value: &Value) -> Result<&Vec<Value>, RecordsError>
    ensures { Gives (λ v. items_view v.now.items) result (values_of (view value.now)) }
{
    value
        .as_array()
        .or(array_under(value, "records"))
        .ok_or(RecordsError::NotRecords)
}

/// The records of a component file (systemd.pcrlock(5)): those of an array, or of the array `records`
/// of an object, at most 256.
///
/// # Errors
///
/// `NotJson` where the bytes are no JSON text, then `NotRecords` where the value lists no values; then
/// for the first value that is no record `BadRecord` with its number and kind, or `TooMany` where 256
/// records stand before a further value. `Memory` may come at any step.
pub fn read_records(alloc: Global, bytes: &[u8]) -> Result<List<CelRecord>, RecordsError>
    ensures { Answers (λ l. map spelled l) result (component_of bytes.now) }
{
    let Some(value) = read_value(alloc, bytes)? else {
        return Err(RecordsError::NotJson);
    };
    let values = values_under(&value)?;
    records_of(alloc, values)
}
