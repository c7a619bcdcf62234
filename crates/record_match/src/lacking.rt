//! Records that lack a bank.

ghost use Rattle.std.specs.Prelude.{◌≡◌, ◌<◌, ◌≤◌, length, IfSome};
ghost use Rattle.std.specs.List.{position_from};
ghost use Rattle.cel_record.specs.Spelled.{spelled};
ghost use Rattle.component_tree.specs.PlainTree.{plain, plain_component};
ghost use Rattle.record_match.specs.Lacking.{lacks, lacking_among, lacking_of};

use cel_record::CelRecord;
use component_tree::{Component, Variant};
use hash_bank::Bank;

/// The place of a record in a list of components.
#[derive(Clone, Copy, Debug, PartialEq, Eq)]
pub struct RecordPlace {
    /// The component's number, from 0 on.
    pub component: u32,
    /// The variant's number in its component, from 0 on.
    pub variant: u32,
    /// The record's number among all records of the variant, from 0 on.
    pub place: u32,
}

/// Whether the record is one of the PCR's and lacks the bank.
fn is_lacking(measured: &CelRecord, pcr: u8, bank: Bank) -> bool
    ensures { result ≡ lacks bank pcr (spelled measured.now) }
{
    measured.pcr == pcr && measured.digests.get(bank).is_none()
}

/// The first record of the variant that lacks the bank.
fn lacking_record(variant: &Variant, pcr: u8, bank: Bank) -> Option<usize>
    ensures value { result ≡ position_from (λ r. lacks bank pcr (spelled r)) 0 variant.now.records }
    ensures bound { IfSome result (λ place. place < 256) }
{
    variant
        .records
        .as_slice()
        .iter()
        .position(|record| is_lacking(record, pcr, bank))
}

/// The first record of the component that lacks the bank, by its variant and its place there.
fn lacking_variant(component: &Component, pcr: u8, bank: Bank) -> Option<(usize, usize)>
    ensures value { result ≡ lacking_among bank pcr (plain_component component.now) }
    ensures bound { IfSome result (λ at. (at.0 < 64) × (at.1 < 256)) }
{
    for (number, variant) in component.variants.as_slice().iter().enumerate() {
        if let Some(place) = lacking_record(variant, pcr, bank) {
            return Some((number, place));
        }
    }
    None
}

/// The first record of the PCR, in the order of components, variants and records, that lacks the
/// bank.
pub fn first_lacking(components: &[Component], pcr: u8, bank: Bank) -> Option<RecordPlace>
    requires { length components.now ≤ 256 }
    ensures { result ≡ lacking_of bank pcr (plain components.now) }
{
    for (number, component) in components.iter().enumerate() {
        if let Some((variant, place)) = lacking_variant(component, pcr, bank) {
            return Some(RecordPlace {
                component: number as u32,
                variant: variant as u32,
                place: place as u32,
            });
        }
    }
    None
}
