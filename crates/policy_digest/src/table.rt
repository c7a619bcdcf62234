//! Tables of the PCR values that a policy allows.
ghost use Rattle.std.specs.Prelude.{◌≡◌, ◌==◌, length, IfOk};
ghost use Rattle.std.specs.List.{list_all};
ghost use Rattle.hash_bank.specs.Hash.{size_in};
ghost use Rattle.policy_digest.specs.Table.{differ, each_pair, fits, precedes, valid_row, valid_table};

use crate::mask::pcr_count;
use crate::values::Values;
use hash_bank::{Bank, Digest};
use pl_base::{List, Memory};
use std::alloc::Global;

// A mask of PCRs is below this.
const MASK_END: u32 = 1 << 24;

// The most lists of a row, and the most rows of a table.
const MOST_CHOICES: usize = 512;

const MOST_ROWS: usize = 24;

/// One row: some PCRs, and the lists of values that they may have together.
#[derive(Debug, Drop)]
pub struct Row {
    /// The row's PCRs, of which bit i stands for PCR i.
    pub pcrs: u32,
    /// The lists, each with one value for each PCR of the mask, ascending by PCR.
    pub choices: List<Values>,
}

/// The PCR values that a policy allows: in each row the row's PCRs have to hold one of its lists.
#[derive(Debug, Drop)]
pub struct Table {
    /// The bank of the values.
    pub bank: Bank,
    /// The rows.
    pub rows: List<Row>,
}

/// Whether the digest has the bank's length.
fn has_size(bank: Bank, digest: &Digest) -> bool
    ensures { result ≡ (length digest.now == size_in bank) }
{
    digest.as_slice().len() == bank.size()
}

/// Whether each of the digests has the bank's length.
fn have_size(bank: Bank, values: &[Digest]) -> bool
    ensures { result ≡ list_all (λ d. length d == size_in bank) values.now }
{
    values.iter().all(|digest| has_size(bank, digest))
}

/// Whether each digest has the bank's length, and there are so many.
fn is_fitting(bank: Bank, count: usize, values: &[Digest]) -> bool
    ensures { result ≡ fits bank count values.now }
{
    values.len() == count && have_size(bank, values)
}

/// Whether each of the lists has so many digests of the bank's length.
fn are_fitting(bank: Bank, count: usize, choices: &[Values]) -> bool
    ensures { result ≡ list_all (fits bank count) choices.now }
{
    choices
        .iter()
        .all(|values| is_fitting(bank, count, values.as_slice()))
}

/// Whether none of the others is the same as the list.
fn differs_from_all(values: &Values, others: &[Values]) -> bool
    ensures { result ≡ list_all (differ values.now) others.now }
{
    others.iter().all(|other| !values.is_same(other))
}

/// Whether no two of the lists are the same.
fn are_distinct(choices: &[Values]) -> bool
    ensures { result ≡ each_pair differ choices.now }
{
    for (place, values) in choices.iter().enumerate() {
        if !differs_from_all(values, &choices[place + 1..]) {
            return false;
        }
    }
    true
}

impl Row {
    /// Whether the row may stand in a table of the bank: its mask is not 0 and below 2^24, and it has
    /// 1 to 512 lists, no two the same, each with one digest of the bank's length for each PCR.
    pub fn is_valid(&self, bank: Bank) -> bool
        ensures { result ≡ valid_row bank self.now }
    {
        let choices = self.choices.as_slice();
        0 < self.pcrs
            && self.pcrs < MASK_END
            && 1 <= choices.len()
            && choices.len() <= MOST_CHOICES
            && are_fitting(bank, pcr_count(self.pcrs), choices)
            && are_distinct(choices)
    }

    /// An equal row with memory of its own.
    pub fn copy(&self, alloc: Global) -> Result<Row, Memory>
        ensures { IfOk result (λ row. row ≡ self.now) }
    {
        let mut choices = List::new(alloc);
        for values in self.choices.as_slice() {
            choices.push(values.copy(alloc)?)?;
        }
        Ok(Row {
            pcrs: self.pcrs,
            choices,
        })
    }
}

/// Whether the rows share no PCR, and the first has the lower lowest PCR.
fn is_before(a: &Row, b: &Row) -> bool
    ensures { result ≡ precedes a.now b.now }
{
    a.pcrs & b.pcrs == 0 && a.pcrs.trailing_zeros() < b.pcrs.trailing_zeros()
}

/// Whether the row is before each of the others.
fn is_before_all(row: &Row, others: &[Row]) -> bool
    ensures { result ≡ list_all (precedes row.now) others.now }
{
    others.iter().all(|other| is_before(row, other))
}

/// Whether each row is before those behind it.
fn are_in_order(rows: &[Row]) -> bool
    ensures { result ≡ each_pair precedes rows.now }
{
    for (place, row) in rows.iter().enumerate() {
        if !is_before_all(row, &rows[place + 1..]) {
            return false;
        }
    }
    true
}

/// Whether each of the rows is valid.
fn are_valid(bank: Bank, rows: &[Row]) -> bool
    ensures { result ≡ list_all (valid_row bank) rows.now }
{
    rows.iter().all(|row| row.is_valid(bank))
}

impl Table {
    /// Whether the table is a policy: it has 1 to 24 valid rows, in the order of their lowest PCRs, and
    /// no PCR is in two rows.
    pub fn is_valid(&self) -> bool
        ensures { result ≡ valid_table self.now }
    {
        let rows = self.rows.as_slice();
        1 <= rows.len()
            && rows.len() <= MOST_ROWS
            && are_valid(self.bank, rows)
            && are_in_order(rows)
    }

    /// An equal table with memory of its own.
    pub fn copy(&self, alloc: Global) -> Result<Table, Memory>
        ensures { IfOk result (λ table. table ≡ self.now) }
    {
        let mut rows = List::new(alloc);
        for row in self.rows.as_slice() {
            rows.push(row.copy(alloc)?)?;
        }
        Ok(Table {
            bank: self.bank,
            rows,
        })
    }
}
