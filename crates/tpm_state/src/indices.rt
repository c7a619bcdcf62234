//! NV indices.
ghost use Rattle.std.specs.Prelude.{◌≡◌, ◌<◌, ◌≤◌, ◌^◌, ◌∷◌, [], ◌++◌, length, Option, OnOk, IfOk};
ghost use Rattle.std.specs.List.{flat_map};
ghost use Rattle.nv_index.specs.Table.{has_written as is_set};
ghost use Rattle.pl_layout.specs.Reading.{repeat_at};
ghost use Rattle.tpm_state.specs.Field.{Gives, counted_at, counted_text};
ghost use Rattle.tpm_state.specs.Indices.{written_text, index_text, written_at, index_at};

use crate::DecodeError;
use crate::field::fault_at;
use nv_index::{CONTENT_SIZE, Index, NvPublic, Written};
use pl_base::{Memory, Small};
use pl_layout::{digest_of, put_u16, put_u32, read_bytes, read_u8, read_u16, read_u32};
use std::alloc::Global;

/// The most indices.
const INDICES: u8 = 16;

/// The attribute WRITTEN (TPM 2.0 Library Part 2, TPMA_NV).
const WRITTEN: u32 = 0x2000_0000;

/// Whether the attributes have WRITTEN.
fn has_written(attributes: u32) -> bool
    ensures { result ≡ is_set attributes }
{
    attributes / WRITTEN % 2 == 1
}

/// The last write, where there is one.
#[tactic(auto, unfolding(crate::specs::Indices::written_at))]
fn read_written(
    all: usize,
    is_written: bool,
    bytes: &[u8],
) -> Result<(Option<Written>, &[u8]), DecodeError>
    ensures { Gives (λ x. (x.0, x.1.now)) result (written_at all is_written bytes.now) }
{
    if !is_written {
        return Ok((None, bytes));
    }
    let (number, rest) = read_u32::<DecodeError>(all, bytes)?;
    let (value, rest) = read_bytes::<DecodeError>(all, usize::from(CONTENT_SIZE), rest)?;
    let Some(value) = Small::from_slice(value) else {
        unreachable!()
    };
    Ok((Some(Written { number, value }), rest))
}

#[tactic(auto, unfolding(crate::specs::Indices::index_at))]
fn read_index(all: usize, bytes: &[u8]) -> Result<(Index, &[u8]), DecodeError>
    ensures { Gives (λ x. (x.0, x.1.now)) result (index_at all bytes.now) }
{
    let (handle, rest) = read_u32::<DecodeError>(all, bytes)?;
    let (attributes, rest) = read_u32::<DecodeError>(all, rest)?;
    let (policy, rest) = read_bytes::<DecodeError>(all, 32, rest)?;
    let (size, rest) = read_u16::<DecodeError>(all, rest)?;
    let public = NvPublic {
        handle,
        attributes,
        policy: digest_of(policy),
        size,
    };
    match read_written(all, has_written(attributes), rest) {
        Ok((written, rest)) => Ok((Index { public, written }, rest)),
        Err(error) => Err(error),
    }
}

/// So many indices.
fn read_some(
    alloc: Global,
    all: usize,
    count: u8,
    bytes: &[u8],
) -> Result<(Vec<Index>, &[u8]), DecodeError>
    ensures { Gives (λ x. (x.0.items, x.1.now)) result (repeat_at (λ before. index_at all) count [] bytes.now) }
{
    let mut indices = Vec::new(alloc);
    let mut rest = bytes;
    for _ in 0..count {
        match read_index(all, rest) {
            Ok((index, after)) => {
                indices.push(index)?;
                rest = after;
            }
            Err(error) => return Err(error),
        }
    }
    Ok((indices, rest))
}

/// The indices behind their number.
#[tactic(auto, unfolding(pl_layout::specs::Reading::counted_at))]
pub(crate) fn read_indices(
    alloc: Global,
    all: usize,
    bytes: &[u8],
) -> Result<(Vec<Index>, &[u8]), DecodeError>
    ensures { Gives (λ x. (x.0.items, x.1.now)) result (counted_at all 0 16 (index_at all) bytes.now) }
{
    let (count, rest) = read_u8::<DecodeError>(all, bytes)?;
    if INDICES < count {
        return Err(fault_at(all, bytes));
    }
    read_some(alloc, all, count, rest)
}

/// Writes the last write, where there is one.
fn put_written(out: &mut Vec<u8>, written: &Option<Written>) -> Result<(), Memory>
    ensures { OnOk result (out.new.items ≡ out.old.items ++ written_text written.now) }
{
    if let Some(written) = written {
        put_u32(out, written.number)?;
        out.extend_from_slice(written.value.as_slice())?;
    }
    Ok(())
}

fn put_index(out: &mut Vec<u8>, index: &Index) -> Result<(), Memory>
    ensures { OnOk result (out.new.items ≡ out.old.items ++ index_text index.now) }
{
    put_u32(out, index.public.handle)?;
    put_u32(out, index.public.attributes)?;
    out.extend_from_slice(index.public.policy.as_slice())?;
    put_u16(out, index.public.size)?;
    put_written(out, &index.written)?;
    Ok(())
}

/// Writes the indices behind their number.
pub(crate) fn put_indices(out: &mut Vec<u8>, indices: &[Index]) -> Result<(), Memory>
    requires { length indices.now ≤ 16 }
    ensures { OnOk result (out.new.items ≡ out.old.items ++ counted_text index_text indices.now) }
{
    out.push(indices.len() as u8)?;
    for index in indices {
        put_index(out, index)?;
    }
    Ok(())
}
