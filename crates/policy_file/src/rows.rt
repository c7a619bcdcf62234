//! The rows of a table.
ghost use Rattle.std.specs.Prelude.{◌≡◌, ◌<◌, ◌≤◌, ◌^◌, ◌++◌, [], length, true, IfOk, OnOk};
ghost use Rattle.std.specs.List.{flat_map, list_all};
ghost use Rattle.hash_bank.specs.Hash.{size_in};
ghost use Rattle.pl_layout.specs.Reading.{repeat_at};
ghost use Rattle.policy_digest.specs.Mask.{pcrs_of};
ghost use Rattle.policy_digest.specs.Strings.{values_string};
ghost use Rattle.policy_digest.specs.Table.{differ, precedes, valid_row};
ghost use Rattle.policy_file.specs.PolicyText.{alone_in, mask_text, row_text};
ghost use Rattle.policy_file.specs.PolicyReading.{Reads, follows, list_at, mask_at, pcrs_at, row_at, values_at};

use crate::error::{FileError, FileKind};
use crate::left::{fault_at, read_lists_number};
use crate::version::Version;
use hash_bank::{Bank, Digest};
use pl_base::{List, Memory};
use pl_layout::{digest_of, put_u16, put_u32, read_bank_bytes, read_u8, read_u32};
use policy_digest::{Row, Values, is_in_mask, mask_of_pcr, pcr_count};
use std::alloc::Global;

/// The number of PCRs of a TPM (TCG PC Client Platform TPM Profile).
const PCR_COUNT: u8 = 24;

/// A mask of PCRs is below this.
const MASK_END: u32 = 1 << 24;

/// The PCRs of a row, as a mask.
#[tactic(auto, unfolding(crate::specs::PolicyReading::mask_at))]
fn read_mask(all: usize, version: Version, bytes: &[u8]) -> Result<(u32, &[u8]), FileError>
    ensures exact { Reads (λ x. (x.0, x.1.now)) result (mask_at all version bytes.now) }
    ensures some { IfOk result (λ x. 0 < x.0) }
    ensures below { IfOk result (λ x. x.0 < 2 ^ 24) }
{
    match version {
        Version::One => {
            let (pcr, rest) = read_u8::<FileError>(all, bytes)?;
            if PCR_COUNT <= pcr {
                return Err(fault_at(FileKind::Value, all, bytes));
            }
            Ok((mask_of_pcr(pcr), rest))
        }
        Version::Two => {
            let (mask, rest) = read_u32::<FileError>(all, bytes)?;
            if mask == 0 || MASK_END <= mask {
                return Err(fault_at(FileKind::Value, all, bytes));
            }
            Ok((mask, rest))
        }
    }
}

/// Whether the mask may stand behind the row.
fn is_before(row: &Row, mask: u32) -> bool
    ensures { result ≡ precedes row.now (record { pcrs = mask; choices = [] }) }
{
    row.pcrs & mask == 0 && row.pcrs.trailing_zeros() < mask.trailing_zeros()
}

/// Whether the mask may stand behind all of the rows.
fn does_follow(before: &[Row], mask: u32) -> bool
    ensures { result ≡ follows before.now mask }
{
    before.iter().all(|row| is_before(row, mask))
}

/// The PCRs of a row that stands behind others.
#[tactic(auto, unfolding(crate::specs::PolicyReading::pcrs_at))]
fn read_pcrs<'a>(
    all: usize,
    version: Version,
    before: &[Row],
    bytes: &'a [u8],
) -> Result<(u32, &'a [u8]), FileError>
    ensures exact { Reads (λ x. (x.0, x.1.now)) result (pcrs_at all version before.now bytes.now) }
    ensures some { IfOk result (λ x. 0 < x.0) }
    ensures below { IfOk result (λ x. x.0 < 2 ^ 24) }
{
    let (mask, rest) = read_mask(all, version, bytes)?;
    if !does_follow(before, mask) {
        return Err(fault_at(FileKind::Value, all, bytes));
    }
    Ok((mask, rest))
}

/// The number of the PCRs of a mask.
#[tactic(auto, using(policy_digest::proofs::MaskLists::some_listed, policy_digest::proofs::MaskLists::few_listed))]
fn count_of(mask: u32) -> usize
    requires some { 0 < mask }
    requires below { mask < 2 ^ 24 }
    ensures value { result ≡ length (pcrs_of mask) }
    ensures some { 1 ≤ result }
    ensures few { result ≤ 24 }
{
    pcr_count(mask)
}

/// So many values.
#[tactic(auto, unfolding(crate::specs::PolicyReading::values_at))]
fn read_values(
    alloc: Global,
    all: usize,
    bank: Bank,
    count: usize,
    bytes: &[u8],
) -> Result<(Vec<Digest>, &[u8]), FileError>
    ensures exact { Reads (λ x. (x.0.items, x.1.now)) result (values_at all bank count bytes.now) }
    ensures count { IfOk result (λ x. length x.0.items ≡ count) }
{
    let mut values = Vec::new(alloc);
    let mut rest = bytes;
    for _ in 0..count {
        let (next, after) = read_bank_bytes::<FileError>(all, bank, rest)?;
        values.push(digest_of(next))?;
        rest = after;
    }
    Ok((values, rest))
}

/// Whether the list is none of those before it.
fn is_new(values: &Values, before: &[Values]) -> bool
    ensures { result ≡ list_all (λ b. differ b values.now) before.now }
{
    before.iter().all(|other| !other.is_same(values))
}

/// A list of values that is none of those before it.
#[tactic(auto, unfolding(crate::specs::PolicyReading::list_at))]
fn read_list<'a>(
    alloc: Global,
    all: usize,
    bank: Bank,
    count: usize,
    before: &[Values],
    bytes: &'a [u8],
) -> Result<(Values, &'a [u8]), FileError>
    requires some { 1 ≤ count }
    requires few { count ≤ 24 }
    ensures { Reads (λ x. (x.0, x.1.now)) result (list_at all bank count before.now bytes.now) }
{
    let (list, rest) = read_values(alloc, all, bank, count, bytes)?;
    let Some(values) = Values::from_vec(list) else {
        unreachable!()
    };
    if !is_new(&values, before) {
        return Err(fault_at(FileKind::Value, all, bytes));
    }
    Ok((values, rest))
}

/// So many lists of values, each for so many PCRs.
fn read_lists(
    alloc: Global,
    all: usize,
    bank: Bank,
    count: usize,
    number: u16,
    bytes: &[u8],
) -> Result<(List<Values>, &[u8]), FileError>
    requires some { 1 ≤ count }
    requires few { count ≤ 24 }
    ensures { Reads (λ x. (x.0, x.1.now)) result (repeat_at (list_at all bank count) number [] bytes.now) }
{
    let mut lists = List::new(alloc);
    let mut rest = bytes;
    for _ in 0..number {
        match read_list(alloc, all, bank, count, lists.as_slice(), rest) {
            Ok((values, after)) => {
                lists.push(values)?;
                rest = after;
            }
            Err(error) => return Err(error),
        }
    }
    Ok((lists, rest))
}

/// A row that stands behind others.
#[tactic(auto, unfolding(crate::specs::PolicyReading::row_at))]
pub(crate) fn read_row<'a>(
    alloc: Global,
    all: usize,
    version: Version,
    bank: Bank,
    before: &[Row],
    bytes: &'a [u8],
) -> Result<(Row, &'a [u8]), FileError>
    ensures { Reads (λ x. (x.0, x.1.now)) result (row_at all version bank before.now bytes.now) }
{
    let (pcrs, rest) = read_pcrs(all, version, before, bytes)?;
    let (number, rest) = read_lists_number(all, rest)?;
    let (choices, rest) = read_lists(alloc, all, bank, count_of(pcrs), number, rest)?;
    Ok((Row { pcrs, choices }, rest))
}

/// Writes the number of a PCR, where it is in the mask.
fn put_number(out: &mut Vec<u8>, mask: u32, pcr: u8) -> Result<(), Memory>
    requires { pcr ≤ 23 }
    ensures { OnOk result (out.new.items ≡ out.old.items ++ alone_in mask pcr) }
{
    if is_in_mask(mask, pcr) {
        out.push(pcr)?;
    }
    Ok(())
}

/// Writes the numbers of the PCRs of a mask.
fn put_numbers(out: &mut Vec<u8>, mask: u32) -> Result<(), Memory>
    ensures { OnOk result (out.new.items ≡ out.old.items ++ pcrs_of mask) }
{
    for pcr in 0..PCR_COUNT {
        put_number(out, mask, pcr)?;
    }
    Ok(())
}

/// Writes the PCRs of a row.
fn put_mask(out: &mut Vec<u8>, version: Version, mask: u32) -> Result<(), Memory>
    ensures { OnOk result (out.new.items ≡ out.old.items ++ mask_text version mask) }
{
    match version {
        Version::One => put_numbers(out, mask),
        Version::Two => put_u32(out, mask),
    }
}

/// Writes the values of a list.
#[tactic(auto, using(crate::proofs::RowLaws::joined))]
fn put_values(out: &mut Vec<u8>, values: &Values) -> Result<(), Memory>
    ensures { OnOk result (out.new.items ≡ out.old.items ++ values_string values.now) }
{
    for value in values.as_slice() {
        out.extend_from_slice(value.as_slice())?;
    }
    Ok(())
}

/// Writes lists of values one after the other.
fn put_lists(out: &mut Vec<u8>, lists: &[Values]) -> Result<(), Memory>
    ensures { OnOk result (out.new.items ≡ out.old.items ++ flat_map values_string lists.now) }
{
    for values in lists {
        put_values(out, values)?;
    }
    Ok(())
}

/// Writes a row.
pub(crate) fn put_row(out: &mut Vec<u8>, version: Version, row: &Row) -> Result<(), Memory>
    requires { length row.now.choices ≤ 512 }
    ensures { OnOk result (out.new.items ≡ out.old.items ++ row_text version row.now) }
{
    put_mask(out, version, row.pcrs)?;
    put_u16(out, row.choices.len() as u16)?;
    put_lists(out, row.choices.as_slice())?;
    Ok(())
}
