//! The whole of a state file, but for the rules of a state.
ghost use Rattle.std.specs.Prelude.{◌≡◌, ◌<◌, ◌≤◌, ◌^◌, ◌∷◌, [], ◌++◌, length, OnOk, IfOk};
ghost use Rattle.tpm_state.specs.Field.{Gives};
ghost use Rattle.tpm_state.specs.Layout.{lists_text, lists_at, layout_at};

use crate::DecodeError;
use crate::field::fault_at;
use crate::header::{read_banks, read_counters, read_values, read_version};
use crate::indices::{put_indices, read_indices};
use crate::objects::{put_objects, read_objects};
use crate::sessions::{put_sessions, read_sessions};
use crate::version::Version;
use hash_bank::Digest;
use nv_index::Index;
use pl_base::{List, Memory};
use pl_layout::read_u8;
use std::alloc::Global;
use tpm_model::{Object, Parts, Session};

/// What stands behind the values, with the banks and the values that were read.
#[tactic(auto, unfolding(crate::specs::Layout::lists_at))]
fn read_lists(
    alloc: Global,
    all: usize,
    version: Version,
    byte: u8,
    values: Vec<Digest>,
    bytes: &[u8],
) -> Result<(Parts, &[u8]), DecodeError>
    ensures { Gives (λ x. (x.0, x.1.now)) result (lists_at all version byte values.items bytes.now) }
{
    let (counters, rest) = read_counters(all, bytes)?;
    let (sessions, rest) = read_sessions(alloc, all, version, rest)?;
    let (indices, rest) = read_indices(alloc, all, rest)?;
    let (objects, rest) = read_objects(alloc, all, version, rest)?;
    let parts = Parts {
        banks: read_banks(byte),
        pcrs: List::from_vec(values),
        update_counter: counters.update_counter,
        next_session: counters.next_session,
        write_counter: counters.write_counter,
        next_object: counters.next_object,
        sessions: List::from_vec(sessions),
        indices: List::from_vec(indices),
        objects: List::from_vec(objects),
    };
    Ok((parts, rest))
}

/// The parts that the bytes spell in one of the versions, with the byte that tells the banks.
#[tactic(auto, unfolding(crate::specs::Layout::layout_at))]
pub(crate) fn read_layout(alloc: Global, bytes: &[u8]) -> Result<(u8, Parts), DecodeError>
    ensures { Gives (λ x. x) result (layout_at bytes.now) }
{
    let all = bytes.len();
    let (version, rest) = read_version(all, bytes)?;
    let (byte, rest) = read_u8::<DecodeError>(all, rest)?;
    let (values, rest) = read_values(alloc, all, read_banks(byte), rest)?;
    let (parts, rest) = read_lists(alloc, all, version, byte, values, rest)?;
    if rest.is_empty() {
        Ok((byte, parts))
    } else {
        Err(fault_at(all, rest))
    }
}

/// Writes the sessions, the indices and the objects.
pub(crate) fn put_lists(
    out: &mut Vec<u8>,
    sessions: &[Session],
    indices: &[Index],
    objects: &[Object],
) -> Result<(), Memory>
    requires sessions { length sessions.now ≤ 64 }
    requires indices { length indices.now ≤ 16 }
    requires objects { length objects.now ≤ 64 }
    ensures { OnOk result (out.new.items ≡ out.old.items ++ lists_text Version.Two sessions.now indices.now objects.now) }
{
    put_sessions(out, sessions)?;
    put_indices(out, indices)?;
    put_objects(out, objects)?;
    Ok(())
}
