//! Adding one variant after another to the components.

ghost use Rattle.std.specs.Prelude.{◌≡◌, ◌≢◌, ◌+◌, ◌-◌, ◌<◌, ◌≤◌, ◌++◌, ◌∷◌, [], length, map, option_map, slice_get, Some, None, Err, IfOk, IfSome, OnOk};
ghost use Rattle.cel_record.specs.Spelled.{spelled};
ghost use Rattle.component_tree.specs.Limits.{record_limit, variant_limit, total_limit};
ghost use Rattle.component_tree.specs.PlainTree.{plain, plain_component, plain_variant, records_in_all};
ghost use Rattle.component_tree.specs.Reading.{last_of, variant_name as name_of, component_passes, variant_passes, passes, has_id, grown, added, with_records};
ghost use Rattle.component_tree.specs.Step.{Answers};

use crate::error::{TreeError, TreeLimit};
use crate::name::stem;
use crate::place::Place;
use crate::taken::FILE_ENDING;
use crate::tree::{Component, Variant};
use cel_record::CelRecord;
use pl_base::{List, Memory, Name};
use std::alloc::Global;

const VARIANT_LIMIT: usize = 64;

const COMPONENT_LIMIT: usize = 256;

const TOTAL_LIMIT: usize = 65_536;

/// `-` for a component's own file, else the file's name without its ending.
fn variant_name(alloc: Global, file: &Option<Name>) -> Result<Name, Memory>
    ensures { IfOk result (λ name. name ≡ name_of file.now) }
{
    match file {
        None => Name::from_text(alloc, "-"),
        Some(file) => {
            let text = file.text();
            Name::from_text(alloc, stem(text, FILE_ENDING).unwrap_or(text))
        }
    }
}

/// The limit that a further component passes.
fn component_limit_passed(components: &[Component]) -> Option<TreeLimit>
    ensures { result ≡ component_passes (plain components.now) }
{
    if components.len() == COMPONENT_LIMIT {
        return Some(TreeLimit::Components);
    }
    None
}

/// The limit that a further variant passes, in the last component or in a new one.
fn variant_limit_passed(components: &[Component], id: &str) -> Option<TreeLimit>
    ensures { result ≡ variant_passes (last_of (plain components.now)) (plain components.now) id.now }
{
    let Some(last) = components.last() else {
        return component_limit_passed(components);
    };
    if last.id.text() != id {
        return component_limit_passed(components);
    }
    if last.variants.len() == VARIANT_LIMIT {
        return Some(TreeLimit::Variants);
    }
    None
}

/// The first limit that a further variant with so many records passes.
fn limit_passed(
    components: &[Component],
    total: usize,
    id: &str,
    records: usize,
) -> Option<TreeLimit>
    requires counted { total ≡ records_in_all (plain components.now) }
    requires few { total ≤ total_limit }
    requires fits { records ≤ record_limit }
    ensures { result ≡ passes (plain components.now) id.now records }
{
    if let Some(limit) = variant_limit_passed(components, id) {
        return Some(limit);
    }
    if total + records > TOTAL_LIMIT {
        return Some(TreeLimit::Total);
    }
    None
}

/// A component of one variant at the end.
fn add_component(
    alloc: Global,
    components: &mut List<Component>,
    id: &str,
    variant: Variant,
) -> Result<(), Memory>
    ensures { OnOk result (plain components.new ≡ plain components.old ++ record { id = id.now; variants = plain_variant variant ∷ [] } ∷ []) }
{
    let mut variants = List::new(alloc);
    variants.push(variant)?;
    components.push(Component {
        id: Name::from_text(alloc, id)?,
        variants,
    })?;
    Ok(())
}

/// Whether the last component has the id.
fn is_last(components: &[Component], id: &str) -> bool
    ensures { result ≡ has_id (last_of (plain components.now)) id.now }
{
    match components.last() {
        Some(last) => last.id.text() == id,
        None => false,
    }
}

/// One more variant of the last component.
fn grow_last(components: &mut List<Component>, variant: Variant) -> Result<(), Memory>
    requires some { 0 < length components.old }
    requires room { IfSome (slice_get components.old (length components.old - 1)) (λ c. length c.variants < variant_limit) }
    ensures { OnOk result (IfSome (last_of (plain components.old)) (λ c.
        plain components.new ≡ grown (plain components.old) c (plain_variant variant))) }
{
    let last = components.len() - 1;
    let mut component = components.remove(last);
    component.variants.push(variant)?;
    components.push(component)?;
    Ok(())
}

/// One more variant, of the last component where it has the id, else of a new one.
fn add_variant(
    alloc: Global,
    components: &mut List<Component>,
    id: &str,
    variant: Variant,
) -> Result<(), Memory>
    requires { variant_passes (last_of (plain components.old)) (plain components.old) id.now ≡ None }
    ensures { OnOk result (plain components.new ≡ added (plain components.old) id.now (plain_variant variant)) }
{
    if is_last(components.as_slice(), id) {
        grow_last(components, variant)
    } else {
        add_component(alloc, components, id, variant)
    }
}

/// The records of the file of a place, as one more variant. It answers how many records there are
/// then in all.
pub(crate) fn add_records(
    alloc: Global,
    components: &mut List<Component>,
    total: usize,
    place: &Place,
    records: List<CelRecord>,
) -> Result<usize, TreeError>
    requires counted { total ≡ records_in_all (plain components.old) }
    requires few { total ≤ total_limit }
    requires fits { length records ≤ record_limit }
    ensures gives { Answers (λ _. plain components.new) result (with_records (plain components.old) place.now (map spelled records)) }
    ensures fine { result ≢ Err TreeError.Failed }
    ensures counts { IfOk result (λ n. n ≡ total + length records) }
    ensures within { OnOk result (passes (plain components.old) place.now.id (length records) ≡ None) }
{
    let count = records.len();
    let passed = limit_passed(components.as_slice(), total, place.id.text(), count);
    if let Some(limit) = passed {
        return Err(TreeError::TooMany(limit));
    }
    let name = variant_name(alloc, &place.file)?;
    add_variant(
        alloc,
        components,
        place.id.text(),
        Variant { name, records },
    )?;
    Ok(total + count)
}
