//! Sessions.
ghost use Rattle.std.specs.Prelude.{◌≡◌, ◌<◌, ◌≤◌, ◌^◌, ◌∷◌, [], ◌++◌, length, Option, OnOk, IfOk};
ghost use Rattle.std.specs.List.{flat_map};
ghost use Rattle.pl_layout.specs.Reading.{repeat_at};
ghost use Rattle.tpm_state.specs.Field.{Gives, counted_at, counted_text};
ghost use Rattle.tpm_state.specs.Sessions.{hash_text, noted_text, session_text, hash_at, noted_number_at, noted_at, session_at};

use crate::DecodeError;
use crate::entries::{put_trail, read_trail};
use crate::field::fault_at;
use crate::version::Version;
use hash_bank::Bank;
use pl_base::Memory;
use pl_layout::{digest_of, put_u16, put_u32, read_bank_bytes, read_u8, read_u16, read_u32};
use std::alloc::Global;
use tpm_model::Session;

/// The most open sessions.
const SESSIONS: u8 = 64;

/// The hash of a session; in version 1 it isn't written.
#[tactic(auto, unfolding(crate::specs::Sessions::hash_at))]
fn read_hash(all: usize, version: Version, bytes: &[u8]) -> Result<(Bank, &[u8]), DecodeError>
    ensures { Gives (λ x. (x.0, x.1.now)) result (hash_at all version bytes.now) }
{
    match version {
        Version::One => Ok((Bank::Sha256, bytes)),
        Version::Two => {
            let (number, rest) = read_u16::<DecodeError>(all, bytes)?;
            match number {
                0x000B => Ok((Bank::Sha256, rest)),
                0x000C => Ok((Bank::Sha384, rest)),
                _ => Err(fault_at(all, bytes)),
            }
        }
    }
}

/// A counter that was noted.
#[tactic(auto, unfolding(crate::specs::Sessions::noted_number_at))]
fn read_noted_number(all: usize, bytes: &[u8]) -> Result<(Option<u32>, &[u8]), DecodeError>
    ensures { Gives (λ x. (x.0, x.1.now)) result (noted_number_at all bytes.now) }
{
    let (noted, rest) = read_u32::<DecodeError>(all, bytes)?;
    Ok((Some(noted), rest))
}

/// The noted counter behind its flag.
#[tactic(auto, unfolding(crate::specs::Sessions::noted_at))]
fn read_noted(all: usize, bytes: &[u8]) -> Result<(Option<u32>, &[u8]), DecodeError>
    ensures { Gives (λ x. (x.0, x.1.now)) result (noted_at all bytes.now) }
{
    let (flag, rest) = read_u8::<DecodeError>(all, bytes)?;
    match flag {
        0 => Ok((None, rest)),
        1 => read_noted_number(all, rest),
        _ => Err(fault_at(all, bytes)),
    }
}

#[tactic(auto, unfolding(crate::specs::Sessions::session_at))]
fn read_session(
    alloc: Global,
    all: usize,
    version: Version,
    bytes: &[u8],
) -> Result<(Session, &[u8]), DecodeError>
    ensures { Gives (λ x. (x.0, x.1.now)) result (session_at all version bytes.now) }
{
    let (handle, rest) = read_u32::<DecodeError>(all, bytes)?;
    let (hash, rest) = read_hash(all, version, rest)?;
    let (digest, rest) = read_bank_bytes::<DecodeError>(all, hash, rest)?;
    let (noted, rest) = read_noted(all, rest)?;
    match read_trail(alloc, all, hash, rest) {
        Ok((trail, rest)) => {
            let session = Session {
                hash,
                handle,
                digest: digest_of(digest),
                noted,
                trail,
            };
            Ok((session, rest))
        }
        Err(error) => Err(error),
    }
}

/// So many sessions.
fn read_some(
    alloc: Global,
    all: usize,
    version: Version,
    count: u8,
    bytes: &[u8],
) -> Result<(Vec<Session>, &[u8]), DecodeError>
    ensures { Gives (λ x. (x.0.items, x.1.now)) result (repeat_at (λ before. session_at all version) count [] bytes.now) }
{
    let mut sessions = Vec::new(alloc);
    let mut rest = bytes;
    for _ in 0..count {
        match read_session(alloc, all, version, rest) {
            Ok((session, after)) => {
                sessions.push(session)?;
                rest = after;
            }
            Err(error) => return Err(error),
        }
    }
    Ok((sessions, rest))
}

/// The sessions behind their number.
#[tactic(auto, unfolding(pl_layout::specs::Reading::counted_at))]
pub(crate) fn read_sessions(
    alloc: Global,
    all: usize,
    version: Version,
    bytes: &[u8],
) -> Result<(Vec<Session>, &[u8]), DecodeError>
    ensures { Gives (λ x. (x.0.items, x.1.now)) result (counted_at all 0 64 (session_at all version) bytes.now) }
{
    let (count, rest) = read_u8::<DecodeError>(all, bytes)?;
    if SESSIONS < count {
        return Err(fault_at(all, bytes));
    }
    read_some(alloc, all, version, count, rest)
}

/// Writes the noted counter behind its flag.
fn put_noted(out: &mut Vec<u8>, noted: Option<u32>) -> Result<(), Memory>
    ensures { OnOk result (out.new.items ≡ out.old.items ++ noted_text noted) }
{
    match noted {
        None => out.push(0)?,
        Some(noted) => {
            out.push(1)?;
            put_u32(out, noted)?;
        }
    }
    Ok(())
}

/// Writes a session in version 2.
fn put_session(out: &mut Vec<u8>, session: &Session) -> Result<(), Memory>
    ensures { OnOk result (out.new.items ≡ out.old.items ++ session_text Version.Two session.now) }
{
    put_u32(out, session.handle)?;
    put_u16(out, session.hash.algorithm())?;
    out.extend_from_slice(session.digest.as_slice())?;
    put_noted(out, session.noted)?;
    put_trail(out, &session.trail)?;
    Ok(())
}

/// Writes the sessions behind their number.
pub(crate) fn put_sessions(out: &mut Vec<u8>, sessions: &[Session]) -> Result<(), Memory>
    requires { length sessions.now ≤ 64 }
    ensures { OnOk result (out.new.items ≡ out.old.items ++ counted_text (session_text Version.Two) sessions.now) }
{
    out.push(sessions.len() as u8)?;
    for session in sessions {
        put_session(out, session)?;
    }
    Ok(())
}
