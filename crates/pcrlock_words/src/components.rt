//! The list of components.

ghost use Rattle.std.specs.Prelude.{◌≡◌, ◌++◌, IfOk, OnOk, string_bytes};
ghost use Rattle.component_tree.specs.PlainTree.{plain, plain_component, plain_variant};
ghost use Rattle.pcrlock_words.specs.ComponentText.{component_text, components_text, variant_text};

use component_tree::{Component, Tree, Variant};
use pl_base::Memory;
use std::alloc::Global;
use std::fmt::Write;

/// The lines of `list-components`: of each variant, in the order of the tree, its component's name, its
/// own, and how many records it has.
#[tactic(auto, unfolding(crate::specs::ComponentText::components_text))]
pub fn components_text(alloc: Global, tree: &Tree) -> Result<Vec<u8>, Memory>
    ensures { IfOk result (λ text. text.items ≡ components_text (plain tree.now.components)) }
{
    let mut text = String::new(alloc);
    for component in tree.components.as_slice() {
        write_component(&mut text, component)?;
    }
    Ok(text.into_bytes())
}

// Writes the lines of a component.
fn write_component(text: &mut String, component: &Component) -> Result<(), Memory>
    ensures { OnOk result (string_bytes text.new ≡ string_bytes text.old ++ component_text (plain_component component.now)) }
{
    let id = component.id.text();
    for variant in component.variants.as_slice() {
        write_variant(text, id, variant)?;
    }
    Ok(())
}

// Writes the line of a variant.
fn write_variant(text: &mut String, id: &str, variant: &Variant) -> Result<(), Memory>
    ensures { OnOk result (string_bytes text.new ≡ string_bytes text.old ++ variant_text id.now (plain_variant variant.now)) }
{
    let name = variant.name.text();
    let count = variant.records.len();
    writeln!(text, "{id} {name} {count}")?;
    Ok(())
}
