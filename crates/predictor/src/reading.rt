//! Windows as text, and the components inside them.
ghost use Rattle.std.specs.Prelude.{◌≡◌, length};
ghost use Rattle.std.specs.List.{list_any};
ghost use Rattle.std.specs.Option.{option_map};
ghost use Rattle.component_tree.specs.PlainTree.{plain, plain_component};
ghost use Rattle.predictor.specs.Ends.{is_colon, is_greater, around_colon, ends_of, window_of};
ghost use Rattle.predictor.specs.Cuts.{is_inside, inside_of};
ghost use Rattle.predictor.specs.Reads.{ReadsAs};

use crate::error::WindowError;
use crate::window::Window;
use component_tree::{Component, Tree};
use pl_base::Name;
use std::alloc::Global;
use std::cmp::Ordering;

/// Whether the first text is greater than the other, by their bytes.
fn is_above(a: &str, b: &str) -> bool
    ensures { result ≡ is_greater a.now b.now }
{
    a.cmp(b) == Ordering::Greater
}

/// The texts before and after the first colon.
fn split_at_colon(text: &str) -> Option<(&str, &str)>
    ensures { option_map (λ sides. (sides.0.now, sides.1.now)) result ≡ around_colon text.now }
{
    text.split_once(':')
}

/// Whether a colon stands in the text.
fn has_colon(text: &str) -> bool
    ensures { result ≡ list_any is_colon text.now }
{
    text.as_bytes().iter().any(|byte| *byte == b':')
}

/// The window with these ends.
fn window_between(alloc: Global, start: &str, end: &str) -> Result<Window, WindowError>
    ensures { ReadsAs result (ends_of start.now end.now) }
{
    if start.is_empty() || end.is_empty() || is_above(start, end) {
        return Err(WindowError::BadLocation);
    }
    let start = Name::from_text(alloc, start)?;
    let end = Name::from_text(alloc, end)?;
    Ok(Window { start, end })
}

impl Window {
    /// The window of the text `START:END`, or of one id that is both ends.
    ///
    /// # Errors
    ///
    /// `BadLocation` where a side is empty, a second colon stands there, or the start is greater than
    /// the end by its bytes; `Memory` for want of memory.
    pub fn read(alloc: Global, text: &str) -> Result<Window, WindowError>
        ensures { ReadsAs result (window_of text.now) }
    {
        match split_at_colon(text) {
            None => window_between(alloc, text, text),
            Some((start, end)) => {
                if has_colon(end) {
                    return Err(WindowError::BadLocation);
                }
                window_between(alloc, start, end)
            }
        }
    }
}

/// Whether the component's id isn't greater than the end.
fn is_within(component: &Component, end: &Name) -> bool
    ensures { result ≡ is_inside end.now (plain_component component.now) }
{
    !is_above(component.id.text(), end.text())
}

/// How many components have an id that isn't greater than the end, by its bytes.
pub fn inside(tree: &Tree, end: &Name) -> u32
    ensures { result ≡ length (inside_of end.now (plain tree.now.components)) }
{
    let mut count = 0;
    for component in tree.components.as_slice() {
        if is_within(component, end) {
            count += 1;
        }
    }
    count
}
