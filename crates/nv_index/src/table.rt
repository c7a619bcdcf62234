//! A table of indices.
ghost use Rattle.std.specs.Prelude.{◌≡◌, ◌≤◌, true, [], Some, insert, length, position, option_copied};
ghost use Rattle.std.specs.List.{list_all, position_or_len};
ghost use Rattle.nv_index.specs.Handles.{is_index_handle as index_handle_of};
ghost use Rattle.nv_index.specs.Table.{DefineGives, InsertGives, IsTable, after_write, define_refusal as define_refusal_of, index_at, index_place as place_of_index, is_above, is_before, is_index, kept_if_refused, read_index, read_public, undefine_refusal, unless_refused, unwritten, with_index, without_index, write_refusal as refusal_to_write, write_refusal_of, written_number, written_with};

use crate::{
    CONTENT_SIZE, DEFINED_ATTRIBUTES, DefineError, Index, NvPublic, NvRefusal, WRITTEN_ATTRIBUTES,
    Written,
};
use hash_bank::Digest;
use pl_base::{List, Small};
use std::alloc::Global;
use std::marker::Model;

/// The most indices.
const INDICES: usize = 16;

/// The size of a policy under SHA-256, in bytes.
const POLICY_SIZE: usize = 32;

/// The indices of a TPM, at most 16, in ascending order of their handles. Contracts see the list of
/// them.
#[derive(Debug, Drop)]
pub struct IndexTable {
    entries: Vec<Index>,
}

impl Model for IndexTable {
    ghost use Rattle.std.specs.Prelude.{List as Sequence};
    ghost use Rattle.nv_index.specs.declared.index.Index.{Index as IndexValue};
    ghost use Rattle.nv_index.specs.Table.{IsTable};

    ghost Value = { Sequence IndexValue };

    ghost view = { λ a. a.entries.items };

    ghost invariant = { λ a. IsTable a.entries.items };
}

/// Whether a handle is in the range of indices, from 0x01000000 to 0x01FFFFFF (TPM 2.0 Library Part
/// 2, TPM_HT_NV_INDEX).
pub fn is_index_handle(handle: u32) -> bool
    ensures { result ≡ index_handle_of handle }
{
    (0x0100_0000..=0x01FF_FFFF).contains(&handle)
}

/// The place of the index of the handle.
fn index_position(entries: &[Index], handle: u32) -> Option<usize>
    ensures { result ≡ position (is_index handle) entries.now }
{
    entries
        .iter()
        .position(|index| index.public.handle == handle)
}

/// The place of the index of the handle, or the number of indices where there is none.
#[tactic(auto, using(crate::proofs::Places::place_or_len))]
fn index_place(entries: &[Index], handle: u32) -> usize
    ensures { result ≡ place_of_index handle entries.now }
{
    index_position(entries, handle).unwrap_or(entries.len())
}

/// The index of the handle.
fn find_index(entries: &[Index], handle: u32) -> Option<&Index>
    ensures { option_copied result ≡ index_at handle entries.now }
{
    entries.get(index_place(entries, handle))
}

/// Why an index with this public area can't be defined.
fn define_refusal(entries: &[Index], public: &NvPublic) -> Option<NvRefusal>
    ensures { result ≡ define_refusal_of public.now entries.now }
{
    if !is_index_handle(public.handle) {
        return Some(NvRefusal::Handle);
    }
    if public.attributes != DEFINED_ATTRIBUTES {
        return Some(NvRefusal::Attributes);
    }
    if public.size != CONTENT_SIZE {
        return Some(NvRefusal::Size);
    }
    if public.policy.as_slice().len() != POLICY_SIZE {
        return Some(NvRefusal::Value);
    }
    if find_index(entries, public.handle).is_some() {
        return Some(NvRefusal::Defined);
    }
    if entries.len() >= INDICES {
        return Some(NvRefusal::TableFull);
    }
    None
}

/// Why an index can't be written with a pin that gives this policy.
fn refusal_on(index: &Index, given: &Digest, value: &Small) -> Option<NvRefusal>
    ensures { result ≡ write_refusal_of (Some index.now) given.now value.now }
{
    if given.as_slice() != index.public.policy.as_slice() {
        return Some(NvRefusal::PinRefused {
            given: *given,
            index: index.public.policy,
        });
    }
    if value.as_slice().len() != usize::from(CONTENT_SIZE) {
        return Some(NvRefusal::Size);
    }
    None
}

/// An index after a write.
fn written_index(index: &Index, value: &Small, number: u32) -> Index
    ensures { result ≡ written_with value.now number index.now }
{
    Index {
        public: NvPublic {
            handle: index.public.handle,
            attributes: WRITTEN_ATTRIBUTES,
            policy: index.public.policy,
            size: index.public.size,
        },
        written: Some(Written {
            number,
            value: *value,
        }),
    }
}

/// The place of the first index whose handle is above this one.
fn above_position(entries: &[Index], handle: u32) -> Option<usize>
    ensures { result ≡ position (is_above handle) entries.now }
{
    entries
        .iter()
        .position(|index| handle < index.public.handle)
}

/// The place of the first index whose handle is above this one, or the number of indices.
#[tactic(auto, using(crate::proofs::Places::place_or_len))]
fn place_above(entries: &[Index], handle: u32) -> usize
    ensures { result ≡ position_or_len (is_above handle) entries.now }
{
    above_position(entries, handle).unwrap_or(entries.len())
}

/// Puts a value at a place. For want of memory the value is dropped and the list stays.
fn insert_at<T: Drop>(entries: &mut Vec<T>, place: usize, value: T) -> Result<(), DefineError>
    requires { place ≤ length entries.old.items }
    ensures { InsertGives result entries.old.items (insert entries.old.items place value) entries.new.items }
{
    if entries.insert(place, value).is_err() {
        return Err(DefineError::Memory);
    }
    Ok(())
}

impl IndexTable {
    /// The empty table, which takes no memory.
    pub fn new(alloc: Global) -> IndexTable
        ensures { result ≡ [] }
    {
        IndexTable {
            entries: Vec::new(alloc),
        }
    }

    /// The table of these indices.
    pub fn from_entries(list: List<Index>) -> IndexTable
        requires { IsTable list }
        ensures { result ≡ list }
    {
        IndexTable {
            entries: list.into_vec(),
        }
    }

    /// The indices in ascending order of handles.
    pub fn entries(&self) -> &[Index]
        ensures value { result.now ≡ self.now }
        ensures table { IsTable self.now }
    {
        self.entries.as_slice()
    }

    /// The index of a handle, or None where no index has it.
    pub fn get(&self, handle: u32) -> Option<&Index>
        ensures { option_copied result ≡ index_at handle self.now }
    {
        find_index(self.entries.as_slice(), handle)
    }

    /// Defines an index (TPM 2.0 Library Part 3, TPM2_NV_DefineSpace).
    ///
    /// # Errors
    ///
    /// In this order: `Handle` where the handle isn't one of indices, `Attributes`, `Size` and
    /// `Value` where the attributes, the size or the policy's size isn't the one that is allowed,
    /// `Defined` where the index is there, `TableFull` where 16 are; else want of memory. Then
    /// nothing changed.
    pub fn define(&mut self, public: &NvPublic) -> Result<(), DefineError>
        ensures { DefineGives (define_refusal_of public.now self.old) result self.old (with_index (unwritten public.now) self.old) self.new }
    {
        if let Some(why) = define_refusal(self.entries.as_slice(), public) {
            return Err(DefineError::Refused(why));
        }
        let index = Index {
            public: *public,
            written: None,
        };
        let place = place_above(self.entries.as_slice(), public.handle);
        insert_at(&mut self.entries, place, index)
    }

    /// Takes an index away (TPM 2.0 Library Part 3, TPM2_NV_UndefineSpace).
    ///
    /// # Errors
    ///
    /// `NotDefined` where no index has the handle.
    pub fn undefine(&mut self, handle: u32) -> Result<(), NvRefusal>
        ensures value { result ≡ unless_refused (undefine_refusal handle self.old) }
        ensures after { self.new ≡ kept_if_refused (undefine_refusal handle self.old) self.old (without_index handle self.old) }
    {
        let place = index_place(self.entries.as_slice(), handle);
        if self.entries.as_slice().get(place).is_none() {
            return Err(NvRefusal::NotDefined);
        }
        let _gone = self.entries.remove(place);
        Ok(())
    }

    /// Why a write of the index with a pin of this policy would be refused, or None where it isn't.
    pub fn write_refusal(&self, handle: u32, given: &Digest, value: &Small) -> Option<NvRefusal>
        ensures { result ≡ refusal_to_write handle given.now value.now self.now }
    {
        match find_index(self.entries.as_slice(), handle) {
            None => Some(NvRefusal::NotDefined),
            Some(index) => refusal_on(index, given, value),
        }
    }

    /// Writes an index with a pin that gives this policy: it has the value, WRITTEN and the number
    /// of the write (TPM 2.0 Library Part 3, TPM2_NV_Write).
    ///
    /// # Errors
    ///
    /// In this order: `NotDefined` where no index has the handle, `PinRefused` where the pin's
    /// policy isn't that of the index, `Size` where the value hasn't the size of a content. Then
    /// nothing changed.
    pub fn write(
        &mut self,
        handle: u32,
        given: &Digest,
        value: &Small,
        number: u32,
    ) -> Result<(), NvRefusal>
        requires some { 1 ≤ number }
        requires later { list_all (is_before number) self.old ≡ true }
        ensures value { result ≡ unless_refused (refusal_to_write handle given.now value.now self.old) }
        ensures after { self.new ≡ kept_if_refused (refusal_to_write handle given.now value.now self.old) self.old (after_write handle value.now number self.old) }
    {
        let place = index_place(self.entries.as_slice(), handle);
        let Some(index) = self.entries.as_slice().get(place) else {
            return Err(NvRefusal::NotDefined);
        };
        if let Some(why) = refusal_on(index, given, value) {
            return Err(why);
        }
        let index = written_index(index, value, number);
        self.entries[place] = index;
        Ok(())
    }

    /// The content of an index (TPM 2.0 Library Part 3, TPM2_NV_Read).
    ///
    /// # Errors
    ///
    /// `NotDefined` where no index has the handle, `Uninitialized` where it was never written.
    pub fn read(&self, handle: u32) -> Result<Small, NvRefusal>
        ensures { result ≡ read_index handle self.now }
    {
        match find_index(self.entries.as_slice(), handle) {
            None => Err(NvRefusal::NotDefined),
            Some(index) => match index.written {
                None => Err(NvRefusal::Uninitialized),
                Some(written) => Ok(written.value),
            },
        }
    }

    /// The public area of an index, with WRITTEN where it was written (TPM 2.0 Library Part 3,
    /// TPM2_NV_ReadPublic).
    ///
    /// # Errors
    ///
    /// `NotDefined` where no index has the handle.
    pub fn public(&self, handle: u32) -> Result<NvPublic, NvRefusal>
        ensures { result ≡ read_public handle self.now }
    {
        match find_index(self.entries.as_slice(), handle) {
            None => Err(NvRefusal::NotDefined),
            Some(index) => Ok(index.public),
        }
    }

    /// The number of an index's last write, or None where the index isn't there or was never
    /// written.
    pub fn written(&self, handle: u32) -> Option<u32>
        ensures { result ≡ written_number handle self.now }
    {
        match find_index(self.entries.as_slice(), handle) {
            None => None,
            Some(index) => match index.written {
                None => None,
                Some(written) => Some(written.number),
            },
        }
    }
}
