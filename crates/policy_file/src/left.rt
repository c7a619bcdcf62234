//! The fields of a policy file: their faults, and numbers with an allowed range.
ghost use Rattle.std.specs.Prelude.{◌≡◌};
ghost use Rattle.policy_file.specs.declared.error.FileKind.TheVariants.{Cut};
ghost use Rattle.policy_file.specs.PolicyReading.{Reads, bank_at, count_at, fault, handle_at, lists_number_at};

use crate::error::{FileError, FileKind};
use hash_bank::Bank;
use pl_layout::{CutFault, place_of, read_u8, read_u16, read_u32};

/// The most lists of a row.
const MOST_LISTS: u16 = 512;

/// The fault of the field that begins with these bytes, the last of all that there are.
pub(crate) fn fault_at(kind: FileKind, all: usize, bytes: &[u8]) -> FileError
    ensures { result ≡ fault kind all bytes.now }
{
    FileError::Malformed {
        place: place_of(all, bytes),
        kind,
    }
}

impl CutFault for FileError {
    ghost cut_at = { fault Cut };

    fn cut(all: usize, bytes: &[u8]) -> FileError {
        fault_at(FileKind::Cut, all, bytes)
    }
}

/// A handle within a range.
#[tactic(auto, unfolding(crate::specs::PolicyReading::handle_at))]
pub(crate) fn read_handle(
    all: usize,
    low: u32,
    high: u32,
    bytes: &[u8],
) -> Result<(u32, &[u8]), FileError>
    ensures { Reads (λ x. (x.0, x.1.now)) result (handle_at all low high bytes.now) }
{
    let (handle, rest) = read_u32::<FileError>(all, bytes)?;
    if handle < low || high < handle {
        return Err(fault_at(FileKind::Value, all, bytes));
    }
    Ok((handle, rest))
}

/// The number of a row's lists.
#[tactic(auto, unfolding(crate::specs::PolicyReading::lists_number_at))]
pub(crate) fn read_lists_number(all: usize, bytes: &[u8]) -> Result<(u16, &[u8]), FileError>
    ensures { Reads (λ x. (x.0, x.1.now)) result (lists_number_at all bytes.now) }
{
    let (number, rest) = read_u16::<FileError>(all, bytes)?;
    if number < 1 || MOST_LISTS < number {
        return Err(fault_at(FileKind::Value, all, bytes));
    }
    Ok((number, rest))
}

/// A number of one byte, from 1 to the most.
#[tactic(auto, unfolding(crate::specs::PolicyReading::count_at))]
pub(crate) fn read_count(all: usize, most: u8, bytes: &[u8]) -> Result<(u8, &[u8]), FileError>
    ensures { Reads (λ x. (x.0, x.1.now)) result (count_at all most bytes.now) }
{
    let (number, rest) = read_u8::<FileError>(all, bytes)?;
    if number < 1 || most < number {
        return Err(fault_at(FileKind::Value, all, bytes));
    }
    Ok((number, rest))
}

/// The bank of an algorithm (TPM 2.0 Library Part 2, TPM_ALG_ID).
#[tactic(auto, unfolding(crate::specs::PolicyReading::bank_at))]
pub(crate) fn read_bank(all: usize, bytes: &[u8]) -> Result<(Bank, &[u8]), FileError>
    ensures { Reads (λ x. (x.0, x.1.now)) result (bank_at all bytes.now) }
{
    let (number, rest) = read_u16::<FileError>(all, bytes)?;
    match Bank::from_algorithm(number) {
        Some(bank) => Ok((bank, rest)),
        None => Err(fault_at(FileKind::Value, all, bytes)),
    }
}
