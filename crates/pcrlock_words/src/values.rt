ghost use Rattle.std.specs.Prelude.{◌≡◌, ◌≤◌, ◌==◌, ◌&&◌, IfOk, IfSome, length, map, nat_le, not};
ghost use Rattle.std.specs.List.{list_all, list_any};
ghost use Rattle.pcrlock_words.specs.Readings.{Gives};
ghost use Rattle.pl_text.specs.Parts.{parts_of};
ghost use Rattle.pcrlock_words.specs.Values.{bytes_between, clients_up_to, folders_of, hex_of, index_of, is_variant_byte, key_of, locality_of, machine_of, nv_handle, path_of, variant_of};
ghost use Rattle.pcrlock_words.specs.Windows.{location_of};

use crate::error::WordsError;
use hex::FromHexError;
use pl_base::{List, Memory, Name, Small};
use pl_text::{number_in, read_handle};
use predictor::{Window, WindowError};
use std::alloc::{AllocError, Global};

// How many folders may be given.
const FOLDER_LIMIT: usize = 16;

// The greatest number of a machine that is made.
const LAST_MACHINE: u32 = 511;

// How many bytes a variant's name may have.
const VARIANT_LIMIT: usize = 200;

/// A path, which has at least one byte.
pub(crate) fn read_path(alloc: Global, value: &str) -> Result<Name, WordsError>
    ensures { Gives result (path_of value.now) }
{
    if value.is_empty() {
        return Err(WordsError::BadWords);
    }
    Ok(Name::from_text(alloc, value)?)
}

/// A number of clients, from 1 to a limit.
pub(crate) fn read_clients(value: &str, limit: u32) -> Option<u32>
    ensures { result ≡ clients_up_to limit value.now }
{
    let clients = number_in(value, limit)?;
    (clients != 0).then_some(clients)
}

/// The number of a machine that is made.
pub(crate) fn read_machine(value: &str) -> Option<u32>
    ensures { result ≡ machine_of value.now }
{
    number_in(value, LAST_MACHINE)
}

// The parts of a list, which commas part.
fn parts(alloc: Global, value: &str) -> Result<Vec<&str>, AllocError>
    ensures { IfOk result (λ parts. map (λ part. part.now) parts.items ≡ parts_of 44 value.now) }
{
    value.split(',').collect(alloc)
}

/// The folders of a list, at most 16 of them, each of at least one byte.
pub(crate) fn read_folders(alloc: Global, value: &str) -> Result<List<Name>, WordsError>
    ensures { Gives result (folders_of value.now) }
{
    let parts = parts(alloc, value)?;
    if !are_folders(parts.as_slice()) {
        return Err(WordsError::BadWords);
    }
    Ok(names(alloc, parts.as_slice())?)
}

// Whether these are few enough, and each is a path.
fn are_folders(parts: &[&str]) -> bool
    ensures { result ≡ (nat_le (length parts.now) 16 && not (list_any (λ part. length part.now == 0) parts.now)) }
{
    parts.len() <= FOLDER_LIMIT && !has_empty(parts)
}

// Whether one of these is empty.
fn has_empty(parts: &[&str]) -> bool
    ensures { result ≡ list_any (λ part. length part.now == 0) parts.now }
{
    parts.iter().any(|part| part.is_empty())
}

/// These texts as names.
pub(crate) fn names(alloc: Global, texts: &[&str]) -> Result<List<Name>, Memory>
    ensures { IfOk result (λ names. names ≡ map (λ text. text.now) texts.now) }
{
    let mut names = List::new(alloc);
    for text in texts {
        names.push(Name::from_text(alloc, text)?)?;
    }
    Ok(names)
}

/// A locality at which a TPM is started.
pub(crate) fn read_locality(value: &str) -> Option<u8>
    ensures { result ≡ locality_of value.now }
{
    let locality = number_in(value, 4)?;
    (locality == 0 || locality == 3 || locality == 4).then_some(locality as u8)
}

// A number as the handle of an NV index (TPM 2.0 Library Part 2, TPM_HT_NV_INDEX).
fn nv_handle(handle: u32) -> Option<u32>
    ensures { result ≡ nv_handle handle }
{
    (0x0100_0000 <= handle && handle <= 0x01ff_ffff).then_some(handle)
}

/// The handle of an NV index, in eight hexadecimal digits.
pub(crate) fn read_index(value: &str) -> Option<u32>
    ensures { result ≡ index_of value.now }
{
    nv_handle(read_handle(value.as_bytes())?)
}

// Whether a byte may stand in a variant's name: a graphic character of ASCII, but no slash.
fn is_variant_byte(byte: u8) -> bool
    ensures { result ≡ is_variant_byte byte }
{
    0x21 <= byte && byte <= 0x7e && byte != b'/'
}

// Whether all bytes may stand in a variant's name.
fn are_variant_bytes(bytes: &[u8]) -> bool
    ensures { result ≡ list_all is_variant_byte bytes.now }
{
    bytes.iter().all(|byte| is_variant_byte(*byte))
}

/// A variant's name, of 1 to 200 such bytes.
pub(crate) fn read_variant(alloc: Global, value: &str) -> Result<Name, WordsError>
    ensures { Gives result (variant_of value.now) }
{
    if value.is_empty() || VARIANT_LIMIT < value.len() || !are_variant_bytes(value.as_bytes()) {
        return Err(WordsError::BadWords);
    }
    Ok(Name::from_text(alloc, value)?)
}

// The bytes of pairs of hexadecimal digits, of which there are between `low` and `high`.
fn read_bytes(alloc: Global, value: &str, low: usize, high: usize) -> Result<List<u8>, WordsError>
    ensures { Gives result (bytes_between low high value.now) }
{
    if value.len() < low || high < value.len() {
        return Err(WordsError::BadWords);
    }
    match hex::decode(alloc, value) {
        Ok(bytes) => Ok(List::from_vec(bytes)),
        Err(FromHexError::OutOfMemory) => Err(WordsError::Memory),
        Err(_) => Err(WordsError::BadWords),
    }
}

/// The 1 to 128 bytes of a key, in hexadecimal digits.
pub(crate) fn read_key(alloc: Global, value: &str) -> Result<Small, WordsError>
    ensures { Gives result (key_of value.now) }
{
    let bytes = read_bytes(alloc, value, 2, 256)?;
    Small::from_slice(bytes.as_slice()).ok_or(WordsError::BadWords)
}

/// The bytes of at most 256 hexadecimal digits.
pub(crate) fn read_hex(alloc: Global, value: &str) -> Result<List<u8>, WordsError>
    ensures { Gives result (hex_of value.now) }
{
    read_bytes(alloc, value, 0, 256)
}

/// The window of a text.
pub(crate) fn read_location(alloc: Global, value: &str) -> Result<Window, WordsError>
    ensures { Gives result (location_of value.now) }
{
    match Window::read(alloc, value) {
        Ok(window) => Ok(window),
        Err(WindowError::BadLocation) => Err(WordsError::BadWords),
        Err(WindowError::Memory) => Err(WordsError::Memory),
    }
}
