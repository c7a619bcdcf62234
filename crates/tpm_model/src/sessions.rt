//! Policy sessions, and the commands on them.
ghost use Rattle.std.specs.Prelude.{◌≡◌, ◌+◌, ◌<◌, ◌≤◌, ◌==◌, true, false, [], ◌∷◌, ◌++◌, length, slice_get, slice_set, Some, IsSomeAnd, option_copied, position, IfOk, OnErr};
ghost use Rattle.std.specs.List.{list_all};
ghost use Rattle.std.specs.Str.{bytes_eq};
ghost use Rattle.tpm_model.specs.Pcrs.{HasValues};
ghost use Rattle.tpm_model.specs.Sessions.{is_session_hash as allowed, session_place as place_of_session, session_at};
ghost use Rattle.tpm_model.specs.SessionCommands.{content_in, has_size as size_has, is_wrong_list as wrong_list_is, start_session, noted_before as noted_before_of, with_entry, with_pcrs, policy_authorize_nv, policy_or, policy_pcr, policy_get_digest, flush_session};
ghost use Rattle.tpm_model.specs.Held.{parts_of};
ghost use Rattle.tpm_model.specs.SessionRules.{keeps_session_order};
ghost use Rattle.tpm_model.specs.Shape.{HasShape, IsSessionShape};
ghost use Rattle.tpm_model.specs.declared.sessions.Session.{Session as SessionValue};

use crate::held::Held;
use crate::pcrs::present_values_digest;
use crate::session_rules::is_listed;
use crate::{Refusal, Response, Trail, TrailEntry};
use hash_bank::{Bank, Digest};
use nv_index::index_name;
use pl_base::{List, Memory};
use policy_digest::{Group, policy_authorize_nv_in, policy_or_in, policy_pcr_in};
use std::alloc::Global;
use std::mem;

/// An open policy session (TPM 2.0 Library Part 1, "Policy Sessions").
#[derive(Debug, Drop)]
pub struct Session {
    /// Its hash, SHA-256 or SHA-384.
    pub hash: Bank,
    /// Its handle, from 0x03000000 on.
    pub handle: u32,
    /// Its policy digest, of the hash's size.
    pub digest: Digest,
    /// The PCR update counter when it last looked at PCRs.
    pub noted: Option<u32>,
    /// What it went through.
    pub trail: Trail,
}

/// The most open sessions.
const OPEN_SESSIONS: usize = 64;

/// The handle of the session with number 0.
const FIRST_SESSION: u32 = 0x0300_0000;

/// The number that no session has any more.
const SESSION_NUMBERS: u32 = 0x0100_0000;

/// The masks are below this number.
const MASKS: u32 = 1 << 24;

/// The most entries of a trail.
const TRAIL_ENTRIES: usize = 128;

/// Whether a session may have the hash.
pub(crate) fn is_session_hash(hash: Bank) -> bool
    ensures { result ≡ allowed hash }
{
    match hash {
        Bank::Sha256 | Bank::Sha384 => true,
        Bank::Sha1 | Bank::Sha512 => false,
    }
}

/// The place of the session of the handle, or the number of sessions where there is none. Sessions stand
/// by rising handles, so each look halves what is left.
fn session_place(held: &Held, handle: u32) -> usize
    requires { keeps_session_order (parts_of held.now) ≡ true }
    ensures { result ≡ place_of_session handle held.now.sessions }
{
    let sessions = held.sessions.as_slice();
    let place = sessions.partition_point(|session| session.handle < handle);
    match sessions.get(place) {
        Some(session) if session.handle == handle => place,
        _ => sessions.len(),
    }
}

/// The session of the handle.
pub(crate) fn find_session(held: &Held, handle: u32) -> Option<&Session>
    requires { keeps_session_order (parts_of held.now) ≡ true }
    ensures { option_copied result ≡ session_at handle held.now.sessions }
{
    held.sessions.as_slice().get(session_place(held, handle))
}

/// StartSession. It reserves the session's whole trail.
pub(crate) fn session_started(
    alloc: Global,
    held: &mut Held,
    hash: Bank,
) -> Result<Response, Memory>
    ensures ok { IfOk result (λ answer. (answer, parts_of held.new) ≡ start_session hash (parts_of held.old)) }
    ensures err { OnErr result (parts_of held.new ≡ parts_of held.old) }
{
    if !is_session_hash(hash) {
        return Ok(Response::Refused(Refusal::Value));
    }
    if held.sessions.len() >= OPEN_SESSIONS {
        return Ok(Response::Refused(Refusal::SessionsFull));
    }
    if held.next_session >= SESSION_NUMBERS {
        return Ok(Response::Refused(Refusal::HandlesEnd));
    }
    let handle = FIRST_SESSION + held.next_session;
    let session = Session {
        hash,
        handle,
        digest: Digest::zeros(hash),
        noted: None,
        trail: Trail::new(alloc)?,
    };
    held.sessions.push(session)?;
    held.next_session += 1;
    Ok(Response::Session(handle))
}

/// The counter that was noted, where it isn't this one.
pub(crate) fn noted_before(noted: Option<u32>, now: u32) -> Option<u32>
    ensures { result ≡ noted_before_of noted now }
{
    noted.filter(|noted| *noted != now)
}

/// Puts an entry at the end of the session's trail, with the digest that it gives, and notes the
/// counter. It takes no memory.
fn note(
    alloc: Global,
    sessions: &mut List<Session>,
    place: usize,
    digest: &Digest,
    now: u32,
    entry: &TrailEntry,
)
    requires { IsSomeAnd (slice_get sessions.old place) (λ session. length session.trail < 128) }
    ensures { (session : SessionValue) → slice_get sessions.old place ≡ Some session
        → sessions.new ≡ slice_set sessions.old place (with_pcrs digest.now now entry.now session) }
{
    let mut open = mem::replace(sessions, List::new(alloc)).into_vec();
    let session = &mut open[place];
    session.digest = *digest;
    session.noted = Some(now);
    session.trail.push(*entry);
    *sessions = List::from_vec(open);
}

/// PolicyPcr.
pub(crate) fn pcrs_bound(
    alloc: Global,
    held: &mut Held,
    handle: u32,
    bank: Bank,
    pcrs: u32,
) -> Response
    requires shape { HasShape (parts_of held.old) }
    requires order { keeps_session_order (parts_of held.old) ≡ true }
    ensures { (result, parts_of held.new) ≡ policy_pcr handle bank pcrs (parts_of held.old) }
{
    let place = session_place(held, handle);
    let Some(session) = held.sessions.as_slice().get(place) else {
        return Response::Refused(Refusal::Handle(handle));
    };
    if pcrs >= MASKS {
        return Response::Refused(Refusal::Value);
    }
    if !held.banks.has(bank) {
        return Response::Refused(Refusal::BankAbsent(bank));
    }
    let now = held.update_counter;
    if let Some(noted) = noted_before(session.noted, now) {
        return Response::Refused(Refusal::PcrChanged { noted, now });
    }
    if session.trail.as_slice().len() >= TRAIL_ENTRIES {
        return Response::Refused(Refusal::TrailFull);
    }
    let values = present_values_digest(held.banks, held.pcrs.as_slice(), session.hash, bank, pcrs);
    let digest = policy_pcr_in(session.hash, &session.digest, bank, pcrs, &values);
    let entry = TrailEntry::Pcr { bank, pcrs, values };
    note(alloc, &mut held.sessions, place, &digest, now, &entry);
    Response::Done
}

/// Puts an entry at the end of the session's trail, with the digest that it gives. It takes no
/// memory.
fn grow(
    alloc: Global,
    sessions: &mut List<Session>,
    place: usize,
    digest: &Digest,
    entry: &TrailEntry,
)
    requires { IsSomeAnd (slice_get sessions.old place) (λ session. length session.trail < 128) }
    ensures { (session : SessionValue) → slice_get sessions.old place ≡ Some session
        → sessions.new ≡ slice_set sessions.old place (with_entry digest.now entry.now session) }
{
    let mut open = mem::replace(sessions, List::new(alloc)).into_vec();
    let session = &mut open[place];
    session.digest = *digest;
    session.trail.push(*entry);
    *sessions = List::from_vec(open);
}

/// Whether a digest has the hash's size.
fn has_size(hash: Bank, digest: &Digest) -> bool
    ensures { result ≡ size_has hash digest.now }
{
    digest.as_slice().len() == hash.size()
}

/// Whether each digest of a list has the hash's size.
fn have_size(hash: Bank, list: &[Digest]) -> bool
    ensures { result ≡ list_all (size_has hash) list.now }
{
    list.iter().all(|digest| has_size(hash, digest))
}

/// Whether a list for PolicyOR has fewer than two digests, one that isn't of the session's size, or
/// none that is the session's.
#[tactic(auto, unfolding(crate::specs::SessionCommands::is_wrong_list))]
fn is_wrong_list(session: &Session, list: &[Digest]) -> bool
    ensures value { result ≡ wrong_list_is session.now.hash session.now.digest list.now }
    ensures several { result ≡ false → 2 ≤ length list.now }
{
    list.len() < 2 || !have_size(session.hash, list) || !is_listed(&session.digest, list)
}

/// PolicyOr.
pub(crate) fn branch_joined(alloc: Global, held: &mut Held, handle: u32, list: &Group) -> Response
    requires shape { HasShape (parts_of held.old) }
    requires order { keeps_session_order (parts_of held.old) ≡ true }
    ensures value { (result, parts_of held.new) ≡ policy_or handle list.now (parts_of held.old) }
    ensures bound { length list.now ≤ 8 }
{
    let digests = list.as_slice();
    let place = session_place(held, handle);
    let Some(session) = held.sessions.as_slice().get(place) else {
        return Response::Refused(Refusal::Handle(handle));
    };
    if is_wrong_list(session, digests) {
        return Response::Refused(Refusal::Value);
    }
    if session.trail.as_slice().len() >= TRAIL_ENTRIES {
        return Response::Refused(Refusal::TrailFull);
    }
    let digest = policy_or_in(session.hash, list);
    let entry = TrailEntry::Or { list: *list };
    grow(alloc, &mut held.sessions, place, &digest, &entry);
    Response::Done
}

/// Whether a content is the hash's algorithm and this digest.
fn is_content_of(hash: Bank, digest: &Digest, content: &[u8]) -> bool
    ensures { result ≡ bytes_eq content.now (content_in hash digest.now) }
{
    let [high, low] = hash.algorithm().to_be_bytes();
    match content {
        [first, second, rest @ ..] => {
            *first == high && *second == low && rest == digest.as_slice()
        }
        _ => false,
    }
}

/// PolicyAuthorizeNv.
pub(crate) fn index_authorized(alloc: Global, held: &mut Held, handle: u32, index: u32) -> Response
    requires shape { HasShape (parts_of held.old) }
    requires order { keeps_session_order (parts_of held.old) ≡ true }
    ensures { (result, parts_of held.new) ≡ policy_authorize_nv handle index (parts_of held.old) }
{
    let place = session_place(held, handle);
    let Some(session) = held.sessions.as_slice().get(place) else {
        return Response::Refused(Refusal::Handle(handle));
    };
    let Some(index) = held.indices.get(index) else {
        return Response::Refused(Refusal::NotDefined);
    };
    let Some(written) = index.written else {
        return Response::Refused(Refusal::Uninitialized);
    };
    if !is_content_of(session.hash, &session.digest, written.value.as_slice()) {
        return Response::Refused(Refusal::Value);
    }
    if session.trail.as_slice().len() >= TRAIL_ENTRIES {
        return Response::Refused(Refusal::TrailFull);
    }
    let name = index_name(&index.public);
    let digest = policy_authorize_nv_in(session.hash, &name);
    let entry = TrailEntry::AuthorizeNv {
        name,
        digest: session.digest,
        written: written.number,
    };
    grow(alloc, &mut held.sessions, place, &digest, &entry);
    Response::Done
}

/// PolicyGetDigest.
pub(crate) fn digest_answer(held: &Held, handle: u32) -> Response
    requires { keeps_session_order (parts_of held.now) ≡ true }
    ensures { (result, parts_of held.now) ≡ policy_get_digest handle (parts_of held.now) }
{
    match find_session(held, handle) {
        Some(session) => Response::PolicyDigest(session.digest),
        None => Response::Refused(Refusal::Handle(handle)),
    }
}

/// FlushSession.
pub(crate) fn session_flushed(held: &mut Held, handle: u32) -> Response
    requires { keeps_session_order (parts_of held.old) ≡ true }
    ensures { (result, parts_of held.new) ≡ flush_session handle (parts_of held.old) }
{
    let place = session_place(held, handle);
    if place >= held.sessions.len() {
        return Response::Refused(Refusal::Handle(handle));
    }
    let _ended = held.sessions.remove(place);
    Response::Done
}

impl Session {
    /// An equal session.
    fn copy(&self, alloc: Global) -> Result<Session, Memory>
        ensures { IfOk result (λ session. session ≡ self.now) }
    {
        Ok(Session {
            hash: self.hash,
            handle: self.handle,
            digest: self.digest,
            noted: self.noted,
            trail: self.trail.copy(alloc)?,
        })
    }
}

/// The same sessions.
pub(crate) fn copied_sessions(alloc: Global, sessions: &[Session]) -> Result<List<Session>, Memory>
    ensures { IfOk result (λ copies. copies ≡ sessions.now) }
{
    let mut copies = List::new(alloc);
    for session in sessions {
        copies.push(session.copy(alloc)?)?;
    }
    Ok(copies)
}
