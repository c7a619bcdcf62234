//! The digests by which each variant extends a PCR.

ghost use Rattle.std.specs.Prelude.{◌≡◌, ◌≤◌, map, length, IfOk};
ghost use Rattle.std.specs.List.{All};
ghost use Rattle.cel_record.specs.Spelled.{spelled};
ghost use Rattle.component_tree.specs.PlainTree.{plain, plain_variant};
ghost use Rattle.record_match.specs.Extends.{digests_in};
ghost use Rattle.record_match.specs.Steps.{steps_of, alternatives_of};

use cel_record::CelRecord;
use component_tree::{Component, Variant};
use hash_bank::{Bank, Digest};
use pl_base::{List, Memory};
use std::alloc::Global;

/// The bank's digests of the PCR's records, in order.
fn digests_of(
    alloc: Global,
    records: &[CelRecord],
    pcr: u8,
    bank: Bank,
) -> Result<List<Digest>, Memory>
    ensures { IfOk result (λ digests. digests ≡ digests_in bank pcr (map spelled records.now)) }
{
    let mut digests = List::new(alloc);
    for record in records {
        if record.pcr == pcr {
            if let Some(digest) = record.digests.get(bank) {
                digests.push(digest)?;
            }
        }
    }
    Ok(digests)
}

/// What each of the variants extends the PCR by.
fn alternatives(
    alloc: Global,
    variants: &[Variant],
    pcr: u8,
    bank: Bank,
) -> Result<List<List<Digest>>, Memory>
    ensures value { IfOk result (λ found. found ≡ alternatives_of bank pcr (map plain_variant variants.now)) }
    ensures count { IfOk result (λ found. length found ≡ length variants.now) }
{
    let mut found = List::new(alloc);
    for variant in variants {
        found.push(digests_of(alloc, variant.records.as_slice(), pcr, bank)?)?;
    }
    Ok(found)
}

/// What each variant of each component extends the PCR by.
pub(crate) fn steps(
    alloc: Global,
    components: &[Component],
    pcr: u8,
    bank: Bank,
) -> Result<List<List<List<Digest>>>, Memory>
    ensures value { IfOk result (λ found. found ≡ steps_of bank pcr (plain components.now)) }
    ensures few { IfOk result (λ found. All (λ alternatives. length alternatives ≤ 64) found) }
{
    let mut found = List::new(alloc);
    for component in components {
        found.push(alternatives(alloc, component.variants.as_slice(), pcr, bank)?)?;
    }
    Ok(found)
}
