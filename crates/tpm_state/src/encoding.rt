//! Writing a state file.
ghost use Rattle.std.specs.Prelude.{◌≡◌, ◌++◌, ◌≤◌, length, Ok, IfOk, OnOk};
ghost use Rattle.tpm_model.specs.Rules.{HasRules};
ghost use Rattle.tpm_state.specs.declared.version.Version.TheVariants.{Two};
ghost use Rattle.tpm_state.specs.Layout.{counters_of, body_text, text_of};
ghost use Rattle.tpm_state.specs.Decoding.{state_of};
ghost use Rattle.tpm_state.specs.Storing.{most_bytes};

use crate::field::put_digests;
use crate::header::{Counters, put_banks, put_counters, put_magic};
use crate::layout::put_lists;
use pl_base::Memory;
use std::alloc::Global;
use tpm_model::{Session, State};

/// At most so many bytes stand before the records of a state: magic, banks, counters and the
/// numbers of records.
const HEAD: usize = 28;

/// The most bytes of a PCR's value.
const VALUE: usize = 64;

/// The most bytes of a session without its entries.
const SESSION: usize = 60;

/// The most bytes of an entry.
const ENTRY: usize = 386;

/// The most bytes of an index.
const INDEX: usize = 80;

/// The most bytes of an object.
const OBJECT: usize = 183;

/// Room for a session.
fn session_room(session: &Session) -> usize
    ensures { result ≤ 49468 }
{
    SESSION + ENTRY * session.trail.as_slice().len()
}

/// Room for sessions.
fn sessions_room(sessions: &[Session]) -> usize {
    let mut room = 0usize;
    for session in sessions {
        room = room.saturating_add(session_room(session));
    }
    room
}

/// Room for the text of a state, so that it is written without a move.
fn room(state: &State) -> usize {
    let values = VALUE.saturating_mul(state.pcrs().len());
    let indices = INDEX.saturating_mul(state.indices().len());
    let objects = OBJECT.saturating_mul(state.objects().len());
    HEAD.saturating_add(values)
        .saturating_add(sessions_room(state.sessions()))
        .saturating_add(indices)
        .saturating_add(objects)
}

/// The counters of a state.
fn counters(state: &State) -> Counters
    ensures { result ≡ counters_of state.now }
{
    Counters {
        update_counter: state.update_counter(),
        next_session: state.next_session(),
        write_counter: state.write_counter(),
        next_object: state.next_object(),
    }
}

/// Writes what stands behind the magic.
fn put_body(out: &mut Vec<u8>, state: &State) -> Result<(), Memory>
    ensures text { OnOk result (out.new.items ≡ out.old.items ++ body_text Two state.now) }
    ensures rules { HasRules state.now }
{
    let values = state.pcrs();
    put_banks(out, state.banks())?;
    put_digests(out, values)?;
    put_counters(out, counters(state))?;
    put_lists(out, state.sessions(), state.indices(), state.objects())?;
    Ok(())
}

/// Writes the text of a state.
fn put_state(out: &mut Vec<u8>, state: &State) -> Result<(), Memory>
    ensures text { OnOk result (out.new.items ≡ out.old.items ++ text_of Two state.now) }
    ensures rules { OnOk result (HasRules state.now) }
{
    put_magic(out)?;
    put_body(out, state)?;
    Ok(())
}

/// The text of a state, in version 2 of the layout: the one that [`crate::decode`] reads as it.
pub fn encode(alloc: Global, state: &State) -> Result<Vec<u8>, Memory>
    // It is the text of the state, no longer than a file may be.
    ensures spelled { IfOk result (λ text. text.items ≡ text_of Two state.now) }
    ensures short { IfOk result (λ text. length text.items ≤ most_bytes) }
    // It is read as the state.
    ensures reads_back { IfOk result (λ text. state_of text.items ≡ Ok state.now) }
{
    let mut out = Vec::with_capacity(alloc, room(state))?;
    put_state(&mut out, state)?;
    Ok(out)
}
