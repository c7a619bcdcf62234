//! Bytes as a userspace log.
ghost use Rattle.std.specs.Prelude.{◌≡◌, ◌≤◌, ◌<◌, ◌+◌, ◌∷◌, [], length, option_map, MatchOption, OnOk};
ghost use Rattle.std.specs.List.{slice_split};
ghost use Rattle.serde_json.specs.View.{view};
ghost use Rattle.cel_record.specs.Spelled.{spelled};
ghost use Rattle.cel_record.specs.Step.{Gives};
ghost use Rattle.userspace_log.specs.Answers.{Answers};
ghost use Rattle.userspace_log.specs.Found.{found, with_piece};
ghost use Rattle.userspace_log.specs.UserText.{is_separator, numbered, pieces_of, text_limit, value_says, text_says, piece_says, found_from, log_of, without_feed};

use crate::error::SeqError;
use crate::log::UserLog;
use cel_record::{CelRecord, RecordKind, read_record, read_value};
use hash_bank::Digest;
use memchr::memchr;
use pl_base::{List, Memory};
use serde_json::Value;
use std::alloc::Global;

// The record separator of ASCII (RFC 7464, section 2.2).
const SEPARATOR: u8 = 0x1E;

// How many texts a log may have.
const TEXT_LIMIT: u32 = 4096;

// The record that a value is, or nothing where it is skipped.
fn record_or_skipped(value: &Value) -> Result<Option<CelRecord>, RecordKind>
    ensures { Gives (option_map spelled) result (value_says (view value.now)) }
{
    if value.is_object() && value.get("pcr").is_none() {
        return Ok(None);
    }
    match read_record(value) {
        Ok(record) => Ok(Some(record)),
        Err(kind) => Err(kind),
    }
}

// A text whose last byte is a line feed, without it.
fn before_feed(text: &[u8]) -> Option<&[u8]>
    ensures { option_map (λ t. t.now) result ≡ without_feed text.now }
{
    match text {
        [front @ .., b'\n'] => Some(front),
        _ => None,
    }
}

// The text before the first separator, and what stands behind the separator.
fn cut(bytes: &[u8]) -> (&[u8], Option<&[u8]>)
    ensures parts { slice_split is_separator bytes.now ≡ result.0.now ∷ pieces_of (option_map (λ r. r.now) result.1) }
    ensures lengths { MatchOption result.1 (length result.0.now ≡ length bytes.now) (λ r. length result.0.now + 1 + length r.now ≡ length bytes.now) }
{
    match memchr(SEPARATOR, bytes) {
        Some(i) => (&bytes[..i], Some(&bytes[i + 1..])),
        None => (bytes, None),
    }
}

// What the text of this number says.
fn text_record(alloc: Global, number: u32, text: &[u8]) -> Result<Option<CelRecord>, SeqError>
    ensures { Answers (option_map spelled) result (numbered number (text_says text.now)) }
{
    let Some(value) = read_value(alloc, text)? else {
        let kind = RecordKind::NotJson;
        return Err(SeqError::BadRecord { number, kind });
    };
    match record_or_skipped(&value) {
        Ok(record) => Ok(record),
        Err(kind) => Err(SeqError::BadRecord { number, kind }),
    }
}

// Adds what the piece of this number says, which ends at this place.
fn add_piece(
    alloc: Global,
    log: &mut UserLog,
    number: u32,
    end: usize,
    piece: &[u8],
) -> Result<(), SeqError>
    requires ends { end ≤ 1048576 }
    requires counts { log.old.skipped ≤ number }
    requires numbers { number ≤ text_limit }
    ensures says { Answers (λ _. found log.new) result (with_piece (found log.old) (piece_says number end piece.now)) }
    ensures counted { OnOk result (log.new.skipped ≤ number + 1) }
    ensures limit { OnOk result (number < text_limit) }
{
    if number == TEXT_LIMIT {
        return Err(SeqError::TooMany);
    }
    let text = before_feed(piece).ok_or(SeqError::BadSeparator(end as u32))?;
    match text_record(alloc, number, text)? {
        Some(record) => {
            // A move of a record is checked only where the types in it are named.
            let _sha1: &Option<Digest> = &record.digests.sha1;
            log.records.push(record)?;
        }
        None => log.skipped += 1,
    }
    Ok(())
}

// What the pieces hold that stand behind the first separator.
fn read_pieces(alloc: Global, bytes: &[u8]) -> Result<UserLog, SeqError>
    requires { length bytes.now < 1048576 }
    ensures { Answers found result (found_from 0 0 (slice_split is_separator bytes.now)) }
{
    let mut log = UserLog {
        records: List::new(alloc),
        skipped: 0,
    };
    let mut number = 0;
    let mut place = 0;
    let mut rest = Some(bytes);
    'pieces: while let Some(left) = rest {
        let (piece, later) = cut(left);
        place += 1 + piece.len();
        add_piece(alloc, &mut log, number, place, piece)?;
        number += 1;
        rest = later;
    }
    Ok(log)
}

/// The records of a userspace log, which is a JSON text sequence (RFC 7464) where each text stands
/// between the separator 0x1E and a line feed. A text that is an object without the member `pcr` is
/// skipped and counted.
///
/// # Errors
///
/// The first fault in the order of the texts: `BadSeparator(0)` where bytes stand before the first
/// separator; then text by text `TooMany` where 4,096 stand before it, `BadSeparator` with the place of
/// its end where its last byte is no line feed, and `BadRecord` with its number. `Memory` may come at
/// any step.
pub fn read_seq(alloc: Global, bytes: &[u8]) -> Result<UserLog, SeqError>
    requires { length bytes.now ≤ 1048576 }
    ensures { Answers found result (log_of bytes.now) }
{
    match bytes {
        [] => Ok(UserLog {
            records: List::new(alloc),
            skipped: 0,
        }),
        [SEPARATOR, texts @ ..] => read_pieces(alloc, texts),
        _ => Err(SeqError::BadSeparator(0)),
    }
}
