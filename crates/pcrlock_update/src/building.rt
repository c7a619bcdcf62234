//! A new index, and what it holds.
ghost use Rattle.std.specs.Prelude.{◌≡◌, true, IfOk};
ghost use Rattle.policy_digest.specs.Table.{valid_table};
ghost use Rattle.pcrlock_update.specs.NewPolicy.{content_for, define_changes as changes_to_define, new_public as public_for};

use crate::change::{Change, TpmChange};
use nv_index::{CONTENT_SIZE, DEFINED_ATTRIBUTES, NvPublic};
use or_tree::build;
use pl_base::{List, Memory, Small};
use policy_digest::{Table, pin_policy};
use std::alloc::Global;

/// The public area of a new index that is written with the pin.
fn new_public(index: u32, pin: &[u8; 32]) -> NvPublic
    ensures { result ≡ public_for index pin.now }
{
    NvPublic {
        handle: index,
        attributes: DEFINED_ATTRIBUTES,
        policy: pin_policy(pin),
        size: CONTENT_SIZE,
    }
}

/// The changes that define the index, in place of an unwritten one where that stands.
pub(crate) fn define_changes(
    alloc: Global,
    stands: bool,
    index: u32,
    pin: &[u8; 32],
) -> Result<List<Change>, Memory>
    ensures { IfOk result (λ changes. changes ≡ changes_to_define stands index pin.now) }
{
    let mut changes = List::new(alloc);
    if stands {
        changes.push(Change::Tpm(TpmChange::Undefine(index)))?;
    }
    changes.push(Change::Tpm(TpmChange::Define(new_public(index, pin))))?;
    Ok(changes)
}

/// What the index holds for the table.
pub(crate) fn content(alloc: Global, table: &Table) -> Result<Small, Memory>
    requires { valid_table table.now ≡ true }
    ensures { IfOk result (λ content. content ≡ content_for table.now) }
{
    let root = build(alloc, table)?.root();
    let mut bytes = Vec::new(alloc);
    bytes.extend_from_slice(&[0x00, 0x0B])?;
    bytes.extend_from_slice(root.as_slice())?;
    match Small::from_slice(bytes.as_slice()) {
        Some(content) => Ok(content),
        None => Err(Memory),
    }
}
