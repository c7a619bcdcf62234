//! The entries of a session's trail.
ghost use Rattle.std.specs.Prelude.{◌≡◌, ◌<◌, ◌≤◌, ◌^◌, ◌∷◌, [], ◌++◌, length, OnOk, IfOk};
ghost use Rattle.hash_bank.specs.Hash.{size_in};
ghost use Rattle.pl_layout.specs.Reading.{bytes_at, repeat_at};
ghost use Rattle.tpm_state.specs.Field.{Gives, fault, counted_at, counted_text, digest_text};
ghost use Rattle.tpm_state.specs.Entries.{mask_text, entry_text, mask_at, bank_number_at, pcr_entry_at, or_entry_at, nv_entry_at, entry_at};

use crate::DecodeError;
use crate::field::{fault_at, put_digests, read_digests};
use hash_bank::{Bank, Digest};
use pl_base::Memory;
use pl_layout::{
    digest_of, put_u16, put_u32, read_bank_bytes, read_bytes, read_u8, read_u16, read_u32,
};
use policy_digest::Group;
use std::alloc::Global;
use tpm_model::{Trail, TrailEntry};

/// The most entries of a trail.
const ENTRIES: u8 = 128;

/// The most digests of a PolicyOR.
const BRANCHES: u8 = 8;

/// The mask of PCRs that three selection bytes tell.
#[tactic(auto, unfolding(crate::specs::Entries::mask_at))]
fn read_mask(all: usize, bytes: &[u8]) -> Result<(u32, &[u8]), DecodeError>
    ensures { Gives (λ x. (x.0, x.1.now)) result (mask_at all bytes.now) }
{
    let (mask, rest) = read_bytes::<DecodeError>(all, 3, bytes)?;
    let pcrs = u32::from(mask[0]) + 256 * u32::from(mask[1]) + 65536 * u32::from(mask[2]);
    Ok((pcrs, rest))
}

/// A bank, by the number of its algorithm.
#[tactic(auto, unfolding(crate::specs::Entries::bank_number_at))]
fn read_bank_number(all: usize, bytes: &[u8]) -> Result<(Bank, &[u8]), DecodeError>
    ensures { Gives (λ x. (x.0, x.1.now)) result (bank_number_at all bytes.now) }
{
    let (number, rest) = read_u16::<DecodeError>(all, bytes)?;
    match Bank::from_algorithm(number) {
        Some(bank) => Ok((bank, rest)),
        None => Err(fault_at(all, bytes)),
    }
}

/// What follows the tag of a PolicyPCR.
#[tactic(auto, unfolding(crate::specs::Entries::pcr_entry_at))]
fn read_pcr_entry(all: usize, hash: Bank, bytes: &[u8]) -> Result<(TrailEntry, &[u8]), DecodeError>
    ensures { Gives (λ x. (x.0, x.1.now)) result (pcr_entry_at all hash bytes.now) }
{
    let (bank, rest) = read_bank_number(all, bytes)?;
    let (pcrs, rest) = read_mask(all, rest)?;
    let (values, rest) = read_bank_bytes::<DecodeError>(all, hash, rest)?;
    let values = digest_of(values);
    Ok((TrailEntry::Pcr { bank, pcrs, values }, rest))
}

/// The digests of a PolicyOR behind their number.
#[tactic(auto, unfolding(pl_layout::specs::Reading::counted_at))]
fn read_list(
    alloc: Global,
    all: usize,
    hash: Bank,
    bytes: &[u8],
) -> Result<(Vec<Digest>, &[u8]), DecodeError>
    ensures exact { Gives (λ x. (x.0.items, x.1.now)) result (counted_at all 2 8 (bytes_at (fault all) (size_in hash)) bytes.now) }
    ensures some { IfOk result (λ x. 2 ≤ length x.0.items) }
    ensures few { IfOk result (λ x. length x.0.items ≤ 8) }
{
    let (count, rest) = read_u8::<DecodeError>(all, bytes)?;
    if count < 2 || BRANCHES < count {
        return Err(fault_at(all, bytes));
    }
    read_digests(all, hash, count, Vec::new(alloc), rest)
}

/// What follows the tag of a PolicyOR.
#[tactic(auto, unfolding(crate::specs::Entries::or_entry_at))]
fn read_or_entry(
    alloc: Global,
    all: usize,
    hash: Bank,
    bytes: &[u8],
) -> Result<(TrailEntry, &[u8]), DecodeError>
    ensures { Gives (λ x. (x.0, x.1.now)) result (or_entry_at all hash bytes.now) }
{
    let (digests, rest) = read_list(alloc, all, hash, bytes)?;
    let Some(list) = Group::from_slice(&digests) else {
        unreachable!()
    };
    Ok((TrailEntry::Or { list }, rest))
}

/// What follows the tag of a PolicyAuthorizeNV.
#[tactic(auto, unfolding(crate::specs::Entries::nv_entry_at))]
fn read_nv_entry(all: usize, bytes: &[u8]) -> Result<(TrailEntry, &[u8]), DecodeError>
    ensures { Gives (λ x. (x.0, x.1.now)) result (nv_entry_at all bytes.now) }
{
    let (name, rest) = read_bytes::<DecodeError>(all, 32, bytes)?;
    let (digest, rest) = read_bytes::<DecodeError>(all, 32, rest)?;
    let (written, rest) = read_u32::<DecodeError>(all, rest)?;
    let entry = TrailEntry::AuthorizeNv {
        name: digest_of(name),
        digest: digest_of(digest),
        written,
    };
    Ok((entry, rest))
}

/// An entry, of a session of the hash.
#[tactic(auto, unfolding(crate::specs::Entries::entry_at))]
fn read_entry(
    alloc: Global,
    all: usize,
    hash: Bank,
    bytes: &[u8],
) -> Result<(TrailEntry, &[u8]), DecodeError>
    ensures { Gives (λ x. (x.0, x.1.now)) result (entry_at all hash bytes.now) }
{
    let (tag, rest) = read_u8::<DecodeError>(all, bytes)?;
    match tag {
        1 => read_pcr_entry(all, hash, rest),
        2 => read_or_entry(alloc, all, hash, rest),
        3 => read_nv_entry(all, rest),
        _ => Err(fault_at(all, bytes)),
    }
}

/// So many entries, of a session of the hash.
fn read_entries(
    alloc: Global,
    all: usize,
    hash: Bank,
    count: u8,
    bytes: &[u8],
) -> Result<(Trail, &[u8]), DecodeError>
    requires { count ≤ 128 }
    ensures { Gives (λ x. (x.0, x.1.now)) result (repeat_at (λ before. entry_at all hash) count [] bytes.now) }
{
    let mut trail = Trail::new(alloc)?;
    let mut rest = bytes;
    for _ in 0..count {
        match read_entry(alloc, all, hash, rest) {
            Ok((entry, after)) => {
                trail.push(entry);
                rest = after;
            }
            Err(error) => return Err(error),
        }
    }
    Ok((trail, rest))
}

/// The trail of a session of the hash.
#[tactic(auto, unfolding(pl_layout::specs::Reading::counted_at))]
pub(crate) fn read_trail(
    alloc: Global,
    all: usize,
    hash: Bank,
    bytes: &[u8],
) -> Result<(Trail, &[u8]), DecodeError>
    ensures { Gives (λ x. (x.0, x.1.now)) result (counted_at all 0 128 (entry_at all hash) bytes.now) }
{
    let (count, rest) = read_u8::<DecodeError>(all, bytes)?;
    if ENTRIES < count {
        return Err(fault_at(all, bytes));
    }
    read_entries(alloc, all, hash, count, rest)
}

/// Writes the three selection bytes of a mask.
fn put_mask(out: &mut Vec<u8>, pcrs: u32) -> Result<(), Memory>
    ensures { OnOk result (out.new.items ≡ out.old.items ++ mask_text pcrs) }
{
    let first = (pcrs % 256) as u8;
    let second = (pcrs / 256 % 256) as u8;
    let third = (pcrs / 65536 % 256) as u8;
    out.extend_from_slice(&[first, second, third])?;
    Ok(())
}

/// Writes the digests of a PolicyOR behind their number.
fn put_list(out: &mut Vec<u8>, digests: &[Digest]) -> Result<(), Memory>
    requires { length digests.now ≤ 8 }
    ensures { OnOk result (out.new.items ≡ out.old.items ++ counted_text digest_text digests.now) }
{
    out.push(digests.len() as u8)?;
    put_digests(out, digests)
}

/// Writes an entry behind its tag.
fn put_entry(out: &mut Vec<u8>, entry: &TrailEntry) -> Result<(), Memory>
    ensures { OnOk result (out.new.items ≡ out.old.items ++ entry_text entry.now) }
{
    match entry {
        TrailEntry::Pcr { bank, pcrs, values } => {
            out.push(1)?;
            put_u16(out, bank.algorithm())?;
            put_mask(out, *pcrs)?;
            out.extend_from_slice(values.as_slice())?;
        }
        TrailEntry::Or { list } => {
            out.push(2)?;
            put_list(out, list.as_slice())?;
        }
        TrailEntry::AuthorizeNv {
            name,
            digest,
            written,
        } => {
            out.push(3)?;
            out.extend_from_slice(name.as_slice())?;
            out.extend_from_slice(digest.as_slice())?;
            put_u32(out, *written)?;
        }
    }
    Ok(())
}

/// Writes the entries of a trail behind their number.
pub(crate) fn put_trail(out: &mut Vec<u8>, trail: &Trail) -> Result<(), Memory>
    ensures { OnOk result (out.new.items ≡ out.old.items ++ counted_text entry_text trail.now) }
{
    let entries = trail.as_slice();
    out.push(entries.len() as u8)?;
    for entry in entries {
        put_entry(out, entry)?;
    }
    Ok(())
}
