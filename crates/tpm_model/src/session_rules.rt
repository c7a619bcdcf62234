//! The rules on sessions.
ghost use Rattle.std.specs.Prelude.{◌≡◌, ◌≤◌, ◌∷◌, map, length};
ghost use Rattle.std.specs.List.{AllByRecursion, list_all, list_any};
ghost use Rattle.std.specs.Str.{bytes_eq};
ghost use Rattle.hash_bank.specs.Hash.{size_in};
ghost use Rattle.policy_digest.specs.Policies.{IsPolicyHash};
ghost use Rattle.nv_index.specs.Handles.{are_handles};
ghost use Rattle.tpm_model.specs.Shape.{HasShape, IsEntryShape, IsSessionShape};
ghost use Rattle.tpm_model.specs.SessionRules.{agrees_with as agrees, has_members as members_are, has_reads as reads_are, is_folded as folded_is, is_noted as noted_is, is_read as read_is, is_up_to_date as up_to_date_is, keeps_fold as fold_kept, keeps_noted as noted_kept, keeps_nv_now as nv_now_kept, keeps_or_member as or_member_kept, keeps_pcr_now as pcr_now_kept, keeps_session_order as order_kept, lists_digest as lists, saw_present as saw};
ghost use Rattle.tpm_model.specs.Trails.{digest_after, has_pcr_entry as pcr_entry_in, is_pcr_entry as pcr_entry_is, trail_digest as digest_of_trail};
ghost use Rattle.tpm_model.specs.declared.sessions.Session.{Session as SessionValue};

use crate::pcrs::present_values_digest;
use crate::{Parts, Session, TrailEntry};
use hash_bank::{Bank, Digest};
use nv_index::{Index, index_name};
use policy_digest::{policy_authorize_nv_in, policy_or_in, policy_pcr_in};

/// Whether the sessions' handles ascend, from the first one allowed to below the end.
fn are_session_handles(sessions: &[Session], first: u32, end: u32) -> bool
    ensures { result ≡ are_handles first end (map (λ (session : SessionValue). session.handle) sessions.now) }
{
    let mut next = first;
    for session in sessions {
        if session.handle < next || session.handle >= end {
            return false;
        }
        next = session.handle + 1;
    }
    true
}

/// Whether the sessions' handles ascend, from that of number 0 to below the next.
pub(crate) fn keeps_session_order(parts: &Parts) -> bool
    requires { parts.now.next_session ≤ 0x01000000 }
    ensures { result ≡ order_kept parts.now }
{
    are_session_handles(
        parts.sessions.as_slice(),
        0x0300_0000,
        0x0300_0000 + parts.next_session,
    )
}

/// The digest after an entry.
fn after_entry(hash: Bank, before: &Digest, entry: &TrailEntry) -> Digest
    requires hash { IsPolicyHash hash }
    requires before { length before.now ≡ size_in hash }
    requires entry { IsEntryShape hash entry.now }
    ensures value { result ≡ digest_after hash before.now entry.now }
    ensures size { length result ≡ size_in hash }
{
    match entry {
        TrailEntry::Pcr { bank, pcrs, values } => policy_pcr_in(hash, before, *bank, *pcrs, values),
        TrailEntry::Or { list } => policy_or_in(hash, list),
        TrailEntry::AuthorizeNv { name, .. } => policy_authorize_nv_in(hash, name),
    }
}

/// The digest that a trail leads to from zeros.
fn trail_digest(hash: Bank, trail: &[TrailEntry]) -> Digest
    requires hash { IsPolicyHash hash }
    requires entries { AllByRecursion (IsEntryShape hash) trail.now }
    ensures { result ≡ digest_of_trail hash trail.now }
{
    let mut digest = Digest::zeros(hash);
    for entry in trail {
        digest = after_entry(hash, &digest, entry);
    }
    digest
}

/// Whether a session's digest is what its trail leads to from zeros.
fn is_folded(session: &Session) -> bool
    requires { IsSessionShape session.now }
    ensures { result ≡ folded_is session.now }
{
    session.digest.as_slice() == trail_digest(session.hash, session.trail.as_slice()).as_slice()
}

/// Whether each session's digest is the fold of its trail, under its hash.
pub(crate) fn keeps_fold(parts: &Parts) -> bool
    requires { HasShape parts.now }
    ensures { result ≡ fold_kept parts.now }
{
    let sessions = parts.sessions.as_slice();
    for session in sessions {
        if !is_folded(session) {
            return false;
        }
    }
    true
}

/// Whether a list has this digest.
pub(crate) fn is_listed(before: &Digest, list: &[Digest]) -> bool
    ensures { result ≡ list_any (bytes_eq before.now) list.now }
{
    list.iter().any(|digest| before.is_same(digest))
}

/// Whether an entry, where it is a PolicyOR, lists this digest.
fn lists_digest(before: &Digest, entry: &TrailEntry) -> bool
    ensures { result ≡ lists before.now entry.now }
{
    match entry {
        TrailEntry::Or { list } => is_listed(before, list.as_slice()),
        TrailEntry::Pcr { .. } | TrailEntry::AuthorizeNv { .. } => true,
    }
}

/// Whether each PolicyOR of a session lists the digest before it.
fn has_members(session: &Session) -> bool
    requires { IsSessionShape session.now }
    ensures { result ≡ members_are session.now }
{
    let mut digest = Digest::zeros(session.hash);
    let mut good = true;
    let trail = session.trail.as_slice();
    for entry in trail {
        good = lists_digest(&digest, entry) && good;
        digest = after_entry(session.hash, &digest, entry);
    }
    good
}

/// Whether each list of a PolicyOR holds the digest before it.
pub(crate) fn keeps_or_member(parts: &Parts) -> bool
    requires { HasShape parts.now }
    ensures { result ≡ or_member_kept parts.now }
{
    let sessions = parts.sessions.as_slice();
    for session in sessions {
        if !has_members(session) {
            return false;
        }
    }
    true
}

/// Whether an entry looked at PCRs.
fn is_pcr_entry(entry: &TrailEntry) -> bool
    ensures { result ≡ pcr_entry_is entry.now }
{
    matches!(entry, TrailEntry::Pcr { .. })
}

/// Whether a trail looked at PCRs.
fn has_pcr_entry(trail: &[TrailEntry]) -> bool
    ensures { result ≡ pcr_entry_in trail.now }
{
    trail.iter().any(|entry| is_pcr_entry(entry))
}

/// Whether a session notes a counter exactly where it looked at PCRs, and none above this one.
fn is_noted(now: u32, session: &Session) -> bool
    ensures { result ≡ noted_is now session.now }
{
    let looked = has_pcr_entry(session.trail.as_slice());
    match session.noted {
        None => !looked,
        Some(noted) => looked && noted <= now,
    }
}

/// Whether each session notes the update counter exactly where it looked at PCRs, and none above
/// the present one.
pub(crate) fn keeps_noted(parts: &Parts) -> bool
    ensures { result ≡ noted_kept parts.now }
{
    let now = parts.update_counter;
    parts
        .sessions
        .as_slice()
        .iter()
        .all(|session| is_noted(now, session))
}

/// Whether an entry, where it looked at PCRs, saw what they hold now.
fn saw_present(parts: &Parts, hash: Bank, entry: &TrailEntry) -> bool
    requires shape { HasShape parts.now }
    requires hash { IsPolicyHash hash }
    ensures { result ≡ saw parts.now hash entry.now }
{
    match entry {
        TrailEntry::Pcr { bank, pcrs, values } => {
            parts.banks.has(*bank)
                && values.as_slice()
                    == present_values_digest(
                        parts.banks,
                        parts.pcrs.as_slice(),
                        hash,
                        *bank,
                        *pcrs,
                    ).as_slice()
        }
        TrailEntry::Or { .. } | TrailEntry::AuthorizeNv { .. } => true,
    }
}

/// Whether each look of a trail at PCRs saw what they hold now.
fn saw_all_present(parts: &Parts, hash: Bank, trail: &[TrailEntry]) -> bool
    requires shape { HasShape parts.now }
    requires hash { IsPolicyHash hash }
    ensures { result ≡ list_all (saw parts.now hash) trail.now }
{
    for entry in trail {
        if !saw_present(parts, hash, entry) {
            return false;
        }
    }
    true
}

/// Whether a session, where it looked at PCRs since the last extend, saw what they hold now.
fn is_up_to_date(parts: &Parts, session: &Session) -> bool
    requires shape { HasShape parts.now }
    requires session { IsSessionShape session.now }
    ensures { result ≡ up_to_date_is parts.now session.now }
{
    match session.noted {
        Some(noted) if noted == parts.update_counter => {
            saw_all_present(parts, session.hash, session.trail.as_slice())
        }
        _ => true,
    }
}

/// Whether each session that looked at PCRs since the last extend saw what they hold now.
pub(crate) fn keeps_pcr_now(parts: &Parts) -> bool
    requires { HasShape parts.now }
    ensures { result ≡ pcr_now_kept parts.now }
{
    let sessions = parts.sessions.as_slice();
    for session in sessions {
        if !is_up_to_date(parts, session) {
            return false;
        }
    }
    true
}

/// Whether a content is the algorithm of SHA-256 and this digest.
fn is_content(value: &[u8], digest: &Digest) -> bool
    ensures { result ≡ bytes_eq value.now (0x00 ∷ 0x0B ∷ digest.now) }
{
    match value {
        [0x00, 0x0B, rest @ ..] => rest == digest.as_slice(),
        _ => false,
    }
}

/// Whether an index's last write, where it has this number, is of this digest into the index with
/// this Name.
fn agrees_with(name: &Digest, digest: &Digest, number: u32, index: &Index) -> bool
    ensures { result ≡ agrees name.now digest.now number index.now }
{
    match index.written {
        Some(written) if written.number == number => {
            name.as_slice() == index_name(&index.public).as_slice()
                && is_content(written.value.as_slice(), digest)
        }
        _ => true,
    }
}

/// Whether each index agrees with a read.
fn all_agree(name: &Digest, digest: &Digest, number: u32, indices: &[Index]) -> bool
    ensures { result ≡ list_all (agrees name.now digest.now number) indices.now }
{
    indices
        .iter()
        .all(|index| agrees_with(name, digest, number, index))
}

/// Whether an entry, where it is a PolicyAuthorizeNV, is in a session of SHA-256, read the digest
/// before it, and agrees with the write that it read where that is still an index's last.
fn is_read(parts: &Parts, hash: Bank, before: &Digest, entry: &TrailEntry) -> bool
    ensures { result ≡ read_is parts.now hash before.now entry.now }
{
    match entry {
        TrailEntry::AuthorizeNv {
            name,
            digest,
            written,
        } => {
            hash == Bank::Sha256
                && digest.as_slice() == before.as_slice()
                && (1..=parts.write_counter).contains(written)
                && all_agree(name, digest, *written, parts.indices.as_slice())
        }
        TrailEntry::Pcr { .. } | TrailEntry::Or { .. } => true,
    }
}

/// Whether that is so of each entry of a session.
fn has_reads(parts: &Parts, session: &Session) -> bool
    requires { IsSessionShape session.now }
    ensures { result ≡ reads_are parts.now session.now }
{
    let mut digest = Digest::zeros(session.hash);
    let mut good = true;
    let trail = session.trail.as_slice();
    for entry in trail {
        good = is_read(parts, session.hash, &digest, entry) && good;
        digest = after_entry(session.hash, &digest, entry);
    }
    good
}

/// Whether each PolicyAuthorizeNV read what an index held then.
pub(crate) fn keeps_nv_now(parts: &Parts) -> bool
    requires { HasShape parts.now }
    ensures { result ≡ nv_now_kept parts.now }
{
    let sessions = parts.sessions.as_slice();
    for session in sessions {
        if !has_reads(parts, session) {
            return false;
        }
    }
    true
}
