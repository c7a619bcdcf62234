//! Which component lists a measured record.

ghost use Rattle.std.specs.Prelude.{◌≡◌};
ghost use Rattle.std.specs.List.{list_any};
ghost use Rattle.cel_record.specs.Listed.{listed};
ghost use Rattle.cel_record.specs.Spelled.{spelled};
ghost use Rattle.component_tree.specs.PlainTree.{plain};
ghost use Rattle.pcr_replay.specs.Row.{row};
ghost use Rattle.record_match.specs.ListedBy.{both_have, agree_where_both, share, agree, tells, listed_by_of};

use cel_record::CelRecord;
use component_tree::{Component, Tree, Variant};
use hash_bank::{Digest, Digests};
use pcr_replay::LogRecord;

/// Whether both are there.
fn are_both(a: &Option<Digest>, b: &Option<Digest>) -> bool
    ensures { result ≡ both_have a.now b.now }
{
    a.is_some() && b.is_some()
}

/// Whether they are the same, where both are there.
fn agrees(a: &Option<Digest>, b: &Option<Digest>) -> bool
    ensures { result ≡ agree_where_both a.now b.now }
{
    match (a, b) {
        (Some(d), Some(e)) => d.as_slice() == e.as_slice(),
        (_, _) => true,
    }
}

/// Whether they share at least one bank.
fn shares(a: &Digests, b: &Digests) -> bool
    ensures { result ≡ share (listed a.now) (listed b.now) }
{
    are_both(&a.sha1, &b.sha1)
        || are_both(&a.sha256, &b.sha256)
        || are_both(&a.sha384, &b.sha384)
        || are_both(&a.sha512, &b.sha512)
}

/// Whether they agree in every bank that they share.
fn agree_in_all(a: &Digests, b: &Digests) -> bool
    ensures { result ≡ agree (listed a.now) (listed b.now) }
{
    agrees(&a.sha1, &b.sha1)
        && agrees(&a.sha256, &b.sha256)
        && agrees(&a.sha384, &b.sha384)
        && agrees(&a.sha512, &b.sha512)
}

/// Whether the component's record says what was measured.
fn is_told(measured: &CelRecord, entry: &LogRecord) -> bool
    ensures { result ≡ tells (row entry.now) (spelled measured.now) }
{
    measured.pcr == entry.pcr
        && shares(&measured.digests, &entry.digests)
        && agree_in_all(&measured.digests, &entry.digests)
}

/// Whether a record of the variant says what was measured.
fn is_in_variant(variant: &Variant, entry: &LogRecord) -> bool
    ensures { result ≡ list_any (λ r. tells (row entry.now) (spelled r)) variant.now.records }
{
    variant
        .records
        .as_slice()
        .iter()
        .any(|record| is_told(record, entry))
}

/// Whether a record of the component says what was measured.
pub(crate) fn is_in_component(component: &Component, entry: &LogRecord) -> bool
    ensures { result ≡ list_any (λ v. list_any (λ r. tells (row entry.now) (spelled r)) v.records) component.now.variants }
{
    component
        .variants
        .as_slice()
        .iter()
        .any(|variant| is_in_variant(variant, entry))
}

/// The number of the first component with a record of the entry's PCR that shares at least one bank
/// with the entry and agrees with it in every bank that they share. `None` exactly where there is no
/// such component.
pub fn listed_by(tree: &Tree, entry: &LogRecord) -> Option<u32>
    ensures { result ≡ listed_by_of (row entry.now) (plain tree.now.components) }
{
    for (number, component) in tree.components.as_slice().iter().enumerate() {
        if is_in_component(component, entry) {
            return Some(number as u32);
        }
    }
    None
}
