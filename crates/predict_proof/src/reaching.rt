//! What a choice of variants leads to.
ghost use Rattle.std.specs.Prelude.{◌≡◌, ◌≤◌, map, length, slice_get};
ghost use Rattle.std.specs.List.{list_any};
ghost use Rattle.hash_bank.specs.Hash.{size_in};
ghost use Rattle.cel_record.specs.Spelled.{spelled};
ghost use Rattle.component_tree.specs.PlainTree.{plain, plain_component};
ghost use Rattle.record_match.specs.Choices.{chosen};
ghost use Rattle.record_match.specs.Extends.{reached_by, variants_of};
ghost use Rattle.predict_proof.specs.Proved.{lacks, some_lacks};
ghost use Rattle.predict_proof.specs.Chosen.{is_choice, records_of, variant_by};

use cel_record::CelRecord;
use component_tree::Component;
use hash_bank::{Bank, Digest, start};
use policy_digest::is_in_mask;
use predictor::extend_by;

/// Whether the choice has one number for each of the components, which one of its variants has.
pub(crate) fn is_choice(components: &[Component], choice: &[u32]) -> bool
    ensures { result ≡ is_choice (variants_of (plain components.now)) choice.now }
{
    if choice.len() != components.len() {
        return false;
    }
    for (place, component) in components.iter().enumerate() {
        if component.variants.len() <= choice[place] as usize {
            return false;
        }
    }
    true
}

/// The records of the component's variant of this number; none where there is no such variant.
fn variant_records(component: &Component, number: u32) -> &[CelRecord]
    ensures { map spelled result.now ≡ records_of (slice_get (plain_component component.now).variants number) }
{
    match component.variants.as_slice().get(number as usize) {
        Some(variant) => variant.records.as_slice(),
        None => &[],
    }
}

/// The records of the variant of the component that the choice takes at the place; none where it takes
/// none.
fn records_at<'a>(component: &'a Component, choice: &[u32], place: usize) -> &'a [CelRecord]
    ensures { map spelled result.now ≡ records_of (variant_by (plain_component component.now) (slice_get choice.now place)) }
{
    match choice.get(place) {
        Some(number) => variant_records(component, *number),
        None => &[],
    }
}

/// Whether the record is of one of the mask's PCRs and lacks the bank.
fn is_lacking(bank: Bank, pcrs: u32, measured: &CelRecord) -> bool
    ensures { result ≡ lacks bank pcrs (spelled measured.now) }
{
    is_in_mask(pcrs, measured.pcr) && measured.digests.get(bank).is_none()
}

/// Whether one of the records is of one of the mask's PCRs and lacks the bank.
fn is_any_lacking(bank: Bank, pcrs: u32, records: &[CelRecord]) -> bool
    ensures { result ≡ list_any (lacks bank pcrs) (map spelled records.now) }
{
    for measured in records {
        if is_lacking(bank, pcrs, measured) {
            return true;
        }
    }
    false
}

/// Whether a record of the chosen variants is of one of the mask's PCRs and lacks the bank.
pub(crate) fn lacks_some(bank: Bank, pcrs: u32, components: &[Component], choice: &[u32]) -> bool
    ensures { result ≡ some_lacks bank pcrs (chosen (variants_of (plain components.now)) choice.now) }
{
    for (place, component) in components.iter().enumerate() {
        if is_any_lacking(bank, pcrs, records_at(component, choice, place)) {
            return true;
        }
    }
    false
}

/// What the PCR holds after the chosen variants of the components since a restart at the locality.
pub(crate) fn reached(
    bank: Bank,
    locality: u8,
    pcr: u8,
    components: &[Component],
    choice: &[u32],
) -> Digest
    requires { pcr ≤ 23 }
    ensures value { result ≡ reached_by bank pcr locality (plain components.now) choice.now }
    ensures size { length result ≡ size_in bank }
{
    let mut held = start(bank, pcr, locality);
    for (place, component) in components.iter().enumerate() {
        held = extend_by(bank, &held, pcr, records_at(component, choice, place));
    }
    held
}
