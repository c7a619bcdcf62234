//! The tables of a policy.
ghost use Rattle.std.specs.Prelude.{◌≡◌, ◌==◌, ◌≤◌, ◌++◌, ◌∷◌, [], length, true, OnOk};
ghost use Rattle.std.specs.List.{AllByRecursion, flat_map, list_all};
ghost use Rattle.hash_bank.specs.Hash.{algorithm_in};
ghost use Rattle.pl_layout.specs.Reading.{repeat_at};
ghost use Rattle.policy_digest.specs.declared.table.Table.{Table as TableValue};
ghost use Rattle.policy_digest.specs.Table.{valid_table};
ghost use Rattle.policy_file.specs.PolicyText.{all_single, is_single, row_text, table_text, version_of};
ghost use Rattle.policy_file.specs.PolicyReading.{Reads, row_at, table_at, tables_at};

use crate::error::FileError;
use crate::left::{read_bank, read_count};
use crate::rows::{put_row, read_row};
use crate::version::Version;
use hash_bank::Bank;
use pl_base::{List, Memory};
use pl_layout::put_u16;
use policy_digest::{Row, Table, pcr_count};
use std::alloc::Global;

/// The most rows of a table.
const MOST_ROWS: u8 = 24;

/// The most tables of a policy.
const MOST_TABLES: u8 = 2;

/// So many rows.
fn read_rows(
    alloc: Global,
    all: usize,
    version: Version,
    bank: Bank,
    count: u8,
    bytes: &[u8],
) -> Result<(List<Row>, &[u8]), FileError>
    ensures { Reads (λ x. (x.0, x.1.now)) result (repeat_at (row_at all version bank) count [] bytes.now) }
{
    let mut rows = List::new(alloc);
    let mut rest = bytes;
    for _ in 0..count {
        match read_row(alloc, all, version, bank, rows.as_slice(), rest) {
            Ok((row, after)) => {
                rows.push(row)?;
                rest = after;
            }
            Err(error) => return Err(error),
        }
    }
    Ok((rows, rest))
}

/// A table.
#[tactic(auto, unfolding(crate::specs::PolicyReading::table_at))]
fn read_table(
    alloc: Global,
    all: usize,
    version: Version,
    bytes: &[u8],
) -> Result<(Table, &[u8]), FileError>
    ensures { Reads (λ x. (x.0, x.1.now)) result (table_at all version bytes.now) }
{
    let (bank, rest) = read_bank(all, bytes)?;
    let (count, rest) = read_count(all, MOST_ROWS, rest)?;
    let (rows, rest) = read_rows(alloc, all, version, bank, count, rest)?;
    Ok((Table { bank, rows }, rest))
}

/// So many tables.
fn read_some(
    alloc: Global,
    all: usize,
    version: Version,
    count: u8,
    bytes: &[u8],
) -> Result<(List<Table>, &[u8]), FileError>
    ensures { Reads (λ x. (x.0, x.1.now)) result (repeat_at (λ before. table_at all version) count [] bytes.now) }
{
    let mut tables = List::new(alloc);
    let mut rest = bytes;
    for _ in 0..count {
        match read_table(alloc, all, version, rest) {
            Ok((table, after)) => {
                tables.push(table)?;
                rest = after;
            }
            Err(error) => return Err(error),
        }
    }
    Ok((tables, rest))
}

/// The tables behind their number.
#[tactic(auto, unfolding(crate::specs::PolicyReading::tables_at))]
pub(crate) fn read_tables(
    alloc: Global,
    all: usize,
    version: Version,
    bytes: &[u8],
) -> Result<(List<Table>, &[u8]), FileError>
    ensures { Reads (λ x. (x.0, x.1.now)) result (tables_at all version bytes.now) }
{
    let (count, rest) = read_count(all, MOST_TABLES, bytes)?;
    read_some(alloc, all, version, count, rest)
}

/// Whether a row is of one PCR.
fn is_of_one(row: &Row) -> bool
    ensures { result ≡ is_single row.now }
{
    pcr_count(row.pcrs) == 1
}

/// Whether each row of a table is of one PCR.
fn has_single_rows(table: &Table) -> bool
    ensures { result ≡ list_all is_single table.now.rows }
{
    table.rows.as_slice().iter().all(is_of_one)
}

/// Whether each row of all tables is of one PCR.
pub(crate) fn are_single(tables: &[Table]) -> bool
    ensures { result ≡ all_single tables.now }
{
    tables.iter().all(has_single_rows)
}

/// The version in which tables are written.
pub(crate) fn version(tables: &[Table]) -> Version
    ensures { result ≡ version_of tables.now }
{
    if are_single(tables) {
        Version::One
    } else {
        Version::Two
    }
}

/// Writes rows one after the other.
fn put_rows(out: &mut Vec<u8>, version: Version, rows: &[Row]) -> Result<(), Memory>
    requires { AllByRecursion (λ r. length r.choices ≤ 512) rows.now }
    ensures { OnOk result (out.new.items ≡ out.old.items ++ flat_map (row_text version) rows.now) }
{
    for row in rows {
        put_row(out, version, row)?;
    }
    Ok(())
}

/// Writes a table.
fn put_table(out: &mut Vec<u8>, version: Version, table: &Table) -> Result<(), Memory>
    requires { valid_table table.now ≡ true }
    ensures { OnOk result (out.new.items ≡ out.old.items ++ table_text version table.now) }
{
    let rows = table.rows.as_slice();
    put_u16(out, table.bank.algorithm())?;
    out.push(rows.len() as u8)?;
    put_rows(out, version, rows)?;
    Ok(())
}

/// Writes the tables behind their number.
pub(crate) fn put_tables(
    out: &mut Vec<u8>,
    version: Version,
    tables: &[Table],
) -> Result<(), Memory>
    requires few { length tables.now ≤ 2 }
    requires valid { AllByRecursion (λ (t : TableValue). valid_table t ≡ true) tables.now }
    ensures { OnOk result (out.new.items ≡ out.old.items ++ (length tables.now ∷ flat_map (table_text version) tables.now)) }
{
    out.push(tables.len() as u8)?;
    for table in tables {
        put_table(out, version, table)?;
    }
    Ok(())
}
