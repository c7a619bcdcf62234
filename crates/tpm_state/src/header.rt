//! What a state file begins with: its version, the present banks, their values and the counters.
ghost use Rattle.std.specs.Prelude.{◌≡◌, ◌<◌, ◌≤◌, ◌^◌, ◌∷◌, [], ◌++◌, length, OnOk, IfOk};
ghost use Rattle.tpm_state.specs.Field.{Gives};
ghost use Rattle.tpm_state.specs.Header.{magic_text, banks_byte, counters_text, version_at, banks_of, bank_at, values_at, counters_at};

use crate::DecodeError;
use crate::field::{fault_at, read_digests};
use crate::version::Version;
use hash_bank::{Bank, Banks, Digest};
use pl_base::Memory;
use pl_layout::{put_u32, read_bytes, read_u32};
use std::alloc::Global;

/// `PLTPM`, and version 1 in three bytes.
const MAGIC_ONE: [u8; 8] = [80, 76, 84, 80, 77, 0, 0, 1];

/// `PLTPM`, and version 2 in three bytes.
const MAGIC_TWO: [u8; 8] = [80, 76, 84, 80, 77, 0, 0, 2];

/// The values of a bank.
const PCRS: u8 = 24;

/// The counters of a state.
#[derive(Clone, Copy, Debug, PartialEq, Eq)]
pub struct Counters {
    /// The extends since the restart.
    pub update_counter: u32,
    /// The number of the next session.
    pub next_session: u32,
    /// The writes of NV indices since the TPM was made.
    pub write_counter: u32,
    /// The number of the next object.
    pub next_object: u32,
}

/// The version that the magic names.
#[tactic(auto, unfolding(crate::specs::Header::version_at))]
pub(crate) fn read_version(all: usize, bytes: &[u8]) -> Result<(Version, &[u8]), DecodeError>
    ensures { Gives (λ x. (x.0, x.1.now)) result (version_at all bytes.now) }
{
    let (magic, rest) = read_bytes::<DecodeError>(all, 8, bytes)?;
    if magic == MAGIC_TWO.as_slice() {
        Ok((Version::Two, rest))
    } else if magic == MAGIC_ONE.as_slice() {
        Ok((Version::One, rest))
    } else {
        Err(fault_at(all, bytes))
    }
}

/// The banks whose bits are set in the byte.
pub(crate) fn read_banks(byte: u8) -> Banks
    ensures { result ≡ banks_of byte }
{
    Banks {
        sha1: byte % 2 == 1,
        sha256: byte / 2 % 2 == 1,
        sha384: byte / 4 % 2 == 1,
        sha512: byte / 8 % 2 == 1,
    }
}

/// The values of a bank where it is present, behind those that were read.
#[tactic(auto, unfolding(crate::specs::Header::bank_at))]
fn read_bank(
    all: usize,
    present: bool,
    bank: Bank,
    before: Vec<Digest>,
    bytes: &[u8],
) -> Result<(Vec<Digest>, &[u8]), DecodeError>
    ensures { Gives (λ x. (x.0.items, x.1.now)) result (bank_at all present bank before.items bytes.now) }
{
    if !present {
        return Ok((before, bytes));
    }
    if bytes.len() < usize::from(PCRS) * bank.size() {
        return Err(fault_at(all, bytes));
    }
    read_digests(all, bank, PCRS, before, bytes)
}

/// The values of all present banks.
#[tactic(auto, unfolding(crate::specs::Header::values_at))]
pub(crate) fn read_values(
    alloc: Global,
    all: usize,
    banks: Banks,
    bytes: &[u8],
) -> Result<(Vec<Digest>, &[u8]), DecodeError>
    ensures { Gives (λ x. (x.0.items, x.1.now)) result (values_at all banks bytes.now) }
{
    let values = Vec::new(alloc);
    let (values, rest) = read_bank(all, banks.sha1, Bank::Sha1, values, bytes)?;
    let (values, rest) = read_bank(all, banks.sha256, Bank::Sha256, values, rest)?;
    let (values, rest) = read_bank(all, banks.sha384, Bank::Sha384, values, rest)?;
    read_bank(all, banks.sha512, Bank::Sha512, values, rest)
}

/// The counters.
#[tactic(auto, unfolding(crate::specs::Header::counters_at))]
pub(crate) fn read_counters(all: usize, bytes: &[u8]) -> Result<(Counters, &[u8]), DecodeError>
    ensures { Gives (λ x. (x.0, x.1.now)) result (counters_at all bytes.now) }
{
    let (update_counter, rest) = read_u32::<DecodeError>(all, bytes)?;
    let (next_session, rest) = read_u32::<DecodeError>(all, rest)?;
    let (write_counter, rest) = read_u32::<DecodeError>(all, rest)?;
    let (next_object, rest) = read_u32::<DecodeError>(all, rest)?;
    let counters = Counters {
        update_counter,
        next_session,
        write_counter,
        next_object,
    };
    Ok((counters, rest))
}

/// Writes the magic of version 2.
pub(crate) fn put_magic(out: &mut Vec<u8>) -> Result<(), Memory>
    ensures { OnOk result (out.new.items ≡ out.old.items ++ magic_text Version.Two) }
{
    out.extend_from_slice(&MAGIC_TWO)?;
    Ok(())
}

/// The byte that tells the present banks.
fn byte_of(banks: Banks) -> u8
    ensures { result ≡ banks_byte banks }
{
    let sha1 = if banks.sha1 { 1 } else { 0 };
    let sha256 = if banks.sha256 { 2 } else { 0 };
    let sha384 = if banks.sha384 { 4 } else { 0 };
    let sha512 = if banks.sha512 { 8 } else { 0 };
    sha1 + sha256 + sha384 + sha512
}

/// Writes which banks are present.
pub(crate) fn put_banks(out: &mut Vec<u8>, banks: Banks) -> Result<(), Memory>
    ensures { OnOk result (out.new.items ≡ out.old.items ++ banks_byte banks ∷ []) }
{
    out.push(byte_of(banks))?;
    Ok(())
}

/// Writes the counters.
pub(crate) fn put_counters(out: &mut Vec<u8>, counters: Counters) -> Result<(), Memory>
    ensures { OnOk result (out.new.items ≡ out.old.items ++ counters_text counters) }
{
    put_u32(out, counters.update_counter)?;
    put_u32(out, counters.next_session)?;
    put_u32(out, counters.write_counter)?;
    put_u32(out, counters.next_object)?;
    Ok(())
}
