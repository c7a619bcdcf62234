//! Variants, components and the tree.

ghost use Rattle.std.specs.Prelude.{◌≤◌, length, map, sum_by, IsTrue};
ghost use Rattle.component_tree.specs.Limits.{variant_limit, component_limit, record_limit, total_limit};
ghost use Rattle.component_tree.specs.Ascending.{ascend};

use cel_record::CelRecord;
use pl_base::{List, Name};

/// One alternative for a step of the boot: what it measures, in order.
#[derive(Debug, Drop)]
pub struct Variant {
    /// `-` for the component's own file, else the name of the variant's file without `.pcrlock`.
    pub name: Name,
    /// What the variant measures, at most 256 records.
    pub records: List<CelRecord>,
    ghost few_records: { length records ≤ record_limit },
}

/// One step of the boot.
#[derive(Debug, Drop)]
pub struct Component {
    /// Its name, which gives its place among the others.
    pub id: Name,
    /// Its alternatives, 1 to 64.
    pub variants: List<Variant>,
    ghost some_variant: { 1 ≤ length variants },
    ghost few_variants: { length variants ≤ variant_limit },
}

/// The steps of the boot, in the order of the bytes of their ids.
#[derive(Debug, Drop)]
pub struct Tree {
    /// The components, at most 256, with at most 65,536 records in all.
    pub components: List<Component>,
    ghost few_components: { length components ≤ component_limit },
    ghost ascending: { IsTrue (ascend (map (λ c. c.id) components)) },
    ghost few_records: { sum_by (λ c. sum_by (λ v. length v.records) c.variants) components ≤ total_limit },
}
