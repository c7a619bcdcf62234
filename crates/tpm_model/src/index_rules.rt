//! The rules on indices.
ghost use Rattle.std.specs.Prelude.{◌≡◌, map};
ghost use Rattle.std.specs.List.{list_all};
ghost use Rattle.nv_index.specs.Handles.{are_handles};
ghost use Rattle.nv_index.specs.Table.{are_apart as apart_are, has_attributes as attributes_are, has_other_number as other_number_has, is_apart as apart_is, is_counted as counted_is};
ghost use Rattle.tpm_model.specs.IndexRules.{keeps_index_attributes as attributes_kept, keeps_index_order as order_kept};
ghost use Rattle.nv_index.specs.declared.index.Index.{Index as IndexValue};

use crate::Parts;
use nv_index::{CONTENT_SIZE, DEFINED_ATTRIBUTES, Index, WRITTEN_ATTRIBUTES};

/// Whether the indices' handles ascend, from the first one allowed to below the end.
fn are_index_handles(indices: &[Index], first: u32, end: u32) -> bool
    ensures { result ≡ are_handles first end (map (λ (index : IndexValue). index.public.handle) indices.now) }
{
    let mut next = first;
    for index in indices {
        let handle = index.public.handle;
        if handle < next || handle >= end {
            return false;
        }
        next = handle + 1;
    }
    true
}

/// Whether an index's last write, where there is one, has a number from 1 to this one.
fn is_counted(most: u32, index: &Index) -> bool
    ensures { result ≡ counted_is most index.now }
{
    match index.written {
        None => true,
        Some(written) => (1..=most).contains(&written.number),
    }
}

/// Whether that is so of each index.
fn are_counted(most: u32, indices: &[Index]) -> bool
    ensures { result ≡ list_all (counted_is most) indices.now }
{
    indices.iter().all(|index| is_counted(most, index))
}

/// Whether an index's last write, where there is one, has another number than this.
fn has_other_number(number: u32, index: &Index) -> bool
    ensures { result ≡ other_number_has number index.now }
{
    match index.written {
        None => true,
        Some(written) => written.number != number,
    }
}

/// Whether that is so of each index.
fn have_other_numbers(number: u32, indices: &[Index]) -> bool
    ensures { result ≡ list_all (other_number_has number) indices.now }
{
    indices.iter().all(|index| has_other_number(number, index))
}

/// Whether each other index has another number than this one's last write, where there is one.
fn is_apart(index: &Index, others: &[Index]) -> bool
    ensures { result ≡ apart_is index.now.written others.now }
{
    match index.written {
        None => true,
        Some(written) => have_other_numbers(written.number, others),
    }
}

/// Whether the numbers of the last writes differ.
fn are_apart(indices: &[Index]) -> bool
    ensures { result ≡ apart_are indices.now }
{
    match indices {
        [] => true,
        [index, others @ ..] => is_apart(index, others) && are_apart(others),
    }
}

/// Whether the indices' handles ascend within their range, and the numbers of their last writes are
/// from 1 to the write counter and differ.
pub(crate) fn keeps_index_order(parts: &Parts) -> bool
    ensures { result ≡ order_kept parts.now }
{
    let indices = parts.indices.as_slice();
    are_index_handles(indices, 0x0100_0000, 0x0200_0000)
        && are_counted(parts.write_counter, indices)
        && are_apart(indices)
}

/// Whether an index has the attributes of a new or a written one, and the size of a content.
fn has_attributes(index: &Index) -> bool
    ensures { result ≡ attributes_are index.now }
{
    let attributes = index.public.attributes;
    (attributes == DEFINED_ATTRIBUTES || attributes == WRITTEN_ATTRIBUTES)
        && index.public.size == CONTENT_SIZE
}

/// Whether each index has the attributes and the size that are allowed.
pub(crate) fn keeps_index_attributes(parts: &Parts) -> bool
    ensures { result ≡ attributes_kept parts.now }
{
    parts
        .indices
        .as_slice()
        .iter()
        .all(|index| has_attributes(index))
}
