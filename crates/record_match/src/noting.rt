//! Which component lists a measured record, without looking at each.

ghost use Rattle.std.specs.Prelude.{◌≡◌, ◌≤◌, ℕ, List, length, drop, map, slice_index, IfOk, OnOk, Some};
ghost use Rattle.std.specs.List.{All, position_from};
ghost use Rattle.cel_record.specs.Listed.{listed};
ghost use Rattle.cel_record.specs.Spelled.{spelled};
ghost use Rattle.component_tree.specs.PlainTree.{plain, plain_component, plain_variant};
ghost use Rattle.pcr_replay.specs.Row.{row};
ghost use Rattle.record_match.specs.ListedBy.{lists, listed_by_of};
ghost use Rattle.record_match.specs.Noted.{IsListingOf, IsUpTo, Lowers, NotesAll, NotesComponent, NotesRecord, NotesVariant, key_of, least_noted, lesser, lowest, noted, noted_for};

use crate::listing::is_in_component;
use cel_record::CelRecord;
use component_tree::{Component, Tree, Variant};
use hash_bank::{Digest, Digests};
use pcr_replay::LogRecord;
use pl_base::Memory;
use std::alloc::Global;
use std::collections::BTreeMap;

/// An index of the records of a tree's components. By it the component that lists a measured record is
/// found without a look at all of them.
#[derive(Drop)]
pub struct Listing {
    // For the digests of each PCR the number of the first component that has one.
    numbers: BTreeMap<u64, u32>,
}

impl Listing {
    /// The index of the tree's records.
    #[tactic(auto, unfolding(crate::specs::Noted::IsListingOf))]
    pub fn new(alloc: Global, tree: &Tree) -> Result<Listing, Memory>
        ensures { IfOk result (λ listing. IsListingOf listing (plain tree.now.components)) }
    {
        let mut numbers = BTreeMap::new(alloc);
        note_all(&mut numbers, tree.components.as_slice())?;
        Ok(Listing { numbers })
    }

    /// What [`listed_by`](crate::listed_by) gives for the entry. The index is that of the tree.
    #[tactic(auto, unfolding(crate::specs::Noted::IsListingOf))]
    pub fn find(&self, tree: &Tree, entry: &LogRecord) -> Option<u32>
        requires { IsListingOf self.now (plain tree.now.components) }
        ensures { result ≡ listed_by_of (row entry.now) (plain tree.now.components) }
    {
        let first = least(&self.numbers, entry.pcr, &entry.digests)?;
        listed_from(tree.components.as_slice(), first, entry)
    }
}

/// The byte at a place, or 0 behind the last one.
fn byte_at(bytes: &[u8], place: usize) -> u8
    ensures { result ≡ slice_index bytes.now place }
{
    match bytes.get(place) {
        Some(byte) => *byte,
        None => 0,
    }
}

/// The key of a digest of the PCR.
fn key(pcr: u8, digest: &Digest) -> u64
    ensures { result ≡ key_of pcr digest.now }
{
    let bytes = digest.as_slice();
    u64::from_be_bytes([
        pcr,
        byte_at(bytes, 0),
        byte_at(bytes, 1),
        byte_at(bytes, 2),
        byte_at(bytes, 3),
        byte_at(bytes, 4),
        byte_at(bytes, 5),
        byte_at(bytes, 6),
    ])
}

/// The number that is noted under the key.
fn known(numbers: &BTreeMap<u64, u32>, key: u64) -> Option<u32>
    ensures { result ≡ noted numbers.now key }
{
    numbers.get(&key).copied()
}

/// The number that is noted for the digest of the PCR, where it is there.
fn known_for(numbers: &BTreeMap<u64, u32>, pcr: u8, digest: &Option<Digest>) -> Option<u32>
    ensures { result ≡ noted_for numbers.now pcr digest.now }
{
    match digest {
        Some(digest) => known(numbers, key(pcr, digest)),
        None => None,
    }
}

/// The lesser of two numbers, where they are there.
fn lesser(a: Option<u32>, b: Option<u32>) -> Option<u32>
    ensures { result ≡ lesser a b }
{
    match (a, b) {
        (None, b) => b,
        (Some(a), None) => Some(a),
        (Some(a), Some(b)) => Some(a.min(b)),
    }
}

/// The least number that is noted for the digests of the PCR.
fn least(numbers: &BTreeMap<u64, u32>, pcr: u8, digests: &Digests) -> Option<u32>
    ensures { result ≡ least_noted numbers.now pcr (listed digests.now) }
{
    let sha1 = known_for(numbers, pcr, &digests.sha1);
    let sha256 = known_for(numbers, pcr, &digests.sha256);
    let sha384 = known_for(numbers, pcr, &digests.sha384);
    let sha512 = known_for(numbers, pcr, &digests.sha512);
    lesser(lesser(sha1, sha256), lesser(sha384, sha512))
}

/// The number of the first of the components, from this number on, that has such a record.
fn listed_from(components: &[Component], first: u32, entry: &LogRecord) -> Option<u32>
    requires { length components.now ≤ 256 }
    ensures { result ≡ position_from (lists (row entry.now)) first (plain (drop first components.now)) }
{
    for number in first as usize..components.len() {
        if is_in_component(&components[number], entry) {
            return Some(number as u32);
        }
    }
    None
}

/// A number, or what is noted where that is less.
fn lowest(known: Option<u32>, number: u32) -> u32
    ensures { result ≡ lowest known number }
{
    match known {
        None => number,
        Some(known) => known.min(number),
    }
}

/// Notes the number under the key, unless a lesser one is.
fn note(numbers: &mut BTreeMap<u64, u32>, key: u64, number: u32) -> Result<(), Memory>
    ensures lowers { OnOk result (Lowers numbers.old numbers.new) }
    ensures noted { OnOk result (IsUpTo number (noted numbers.new key)) }
{
    let lowest = lowest(known(numbers, key), number);
    numbers.insert(key, lowest)?;
    Ok(())
}

/// Notes the number for the digest of the PCR, where it is there.
fn note_digest(
    numbers: &mut BTreeMap<u64, u32>,
    pcr: u8,
    digest: &Option<Digest>,
    number: u32,
) -> Result<(), Memory>
    ensures lowers { OnOk result (Lowers numbers.old numbers.new) }
    ensures noted { OnOk result ((d : List ℕ) → digest.now ≡ Some d → IsUpTo number (noted numbers.new (key_of pcr d))) }
{
    if let Some(digest) = digest {
        note(numbers, key(pcr, digest), number)?;
    }
    Ok(())
}

/// Notes the number for the digests of the record.
fn note_record(
    numbers: &mut BTreeMap<u64, u32>,
    measured: &CelRecord,
    number: u32,
) -> Result<(), Memory>
    ensures lowers { OnOk result (Lowers numbers.old numbers.new) }
    ensures noted { OnOk result (NotesRecord numbers.new number (spelled measured.now)) }
{
    let digests = &measured.digests;
    note_digest(numbers, measured.pcr, &digests.sha1, number)?;
    note_digest(numbers, measured.pcr, &digests.sha256, number)?;
    note_digest(numbers, measured.pcr, &digests.sha384, number)?;
    note_digest(numbers, measured.pcr, &digests.sha512, number)?;
    Ok(())
}

/// Notes the number for the records.
fn note_records(
    numbers: &mut BTreeMap<u64, u32>,
    records: &[CelRecord],
    number: u32,
) -> Result<(), Memory>
    ensures lowers { OnOk result (Lowers numbers.old numbers.new) }
    ensures noted { OnOk result (All (λ r. NotesRecord numbers.new number (spelled r)) records.now) }
{
    for measured in records {
        note_record(numbers, measured, number)?;
    }
    Ok(())
}

/// Notes the number for the records of the variants.
fn note_variants(
    numbers: &mut BTreeMap<u64, u32>,
    variants: &[Variant],
    number: u32,
) -> Result<(), Memory>
    ensures lowers { OnOk result (Lowers numbers.old numbers.new) }
    ensures noted { OnOk result (All (λ v. NotesVariant numbers.new number (plain_variant v)) variants.now) }
{
    for variant in variants {
        note_records(numbers, variant.records.as_slice(), number)?;
    }
    Ok(())
}

/// Notes each component's number for its records.
fn note_all(numbers: &mut BTreeMap<u64, u32>, components: &[Component]) -> Result<(), Memory>
    requires { length components.now ≤ 256 }
    ensures { OnOk result (NotesAll numbers.new (plain components.now)) }
{
    for (number, component) in components.iter().enumerate() {
        note_variants(numbers, component.variants.as_slice(), number as u32)?;
    }
    Ok(())
}
