//! The policy file and the index get a table, in an order in which at each time the file has the table that the index holds.
ghost use Rattle.std.specs.Prelude.{◌≡◌, true, IfOk, IfErr};
ghost use Rattle.policy_digest.specs.Table.{valid_table};
ghost use Rattle.policy_file.specs.PolicyText.{IsIndex, policy_text};
ghost use Rattle.policy_file.specs.TokenText.{IsObject};
ghost use Rattle.pcrlock_line.specs.Causes.{HasCauses};
ghost use Rattle.pcrlock_line.specs.Machine.{Live};
ghost use Rattle.pcrlock_update.specs.Changes.{Works, CameTo, changes_made};
ghost use Rattle.pcrlock_update.specs.NewPolicy.{stated as stated_by};
ghost use Rattle.pcrlock_update.specs.Sealed.{pin_made};
ghost use Rattle.pcrlock_update.specs.Update.{IsBefore, IsNamed, put_changes as changes_to_put, tables_between as between};

use crate::building::content;
use crate::change::{Change, TpmChange};
use crate::changing::perform_all;
use crate::given::Given;
use crate::sealing::seal_pin;
use pcrlock_answer::Answer;
use pcrlock_line::Stop;
use pl_base::{Files, List, Memory};
use policy_digest::{Table, pin_policy};
use policy_file::{Policy, write_policy};
use std::alloc::Global;
use tpm_device::Tpm;

/// What the index holds before.
#[derive(Drop)]
pub(crate) enum Before {
    /// Nothing: it was never written.
    Unwritten,
    /// What it holds for this table of the policy file, or for none of its tables.
    Written(Option<Table>),
}

/// The table that is named, and then the new one.
fn tables_between(alloc: Global, named: Option<Table>, table: &Table) -> Result<List<Table>, Memory>
    requires named { IsNamed named }
    requires table { valid_table table.now ≡ true }
    ensures { IfOk result (λ tables. tables ≡ between named table.now) }
{
    let copy = table.copy(alloc)?;
    let mut tables = List::new(alloc);
    if let Some(named) = named {
        tables.push(named)?;
    }
    tables.push(copy)?;
    Ok(tables)
}

/// The text of the policy file with these tables.
fn stated_bytes(
    alloc: Global,
    given: &Given<'_>,
    pin: &[u8; 32],
    object: u32,
    named: Option<Table>,
) -> Result<List<u8>, Memory>
    requires index { IsIndex given.now.index }
    requires object { IsObject object }
    requires named { IsNamed named }
    requires table { valid_table given.now.table.now ≡ true }
    ensures { IfOk result (λ bytes. bytes ≡ policy_text (stated_by given.now.index pin.now object (between named given.now.table.now))) }
{
    let tables = tables_between(alloc, named, given.table)?;
    let policy = Policy {
        handle: given.index,
        index_policy: pin_policy(pin),
        pin_object: object,
        tables,
    };
    Ok(List::from_vec(write_policy(alloc, &policy)?))
}

/// The changes that put the table in force: the policy file is written, with the table that the index holds before the
/// new one; then the index; then the file with the new table alone, where it had another; and then the object with an
/// old policy's pin is taken away.
fn put_changes(
    alloc: Global,
    given: &Given<'_>,
    pin: &[u8; 32],
    old: Option<u32>,
    before: Before,
    object: u32,
) -> Result<List<Change>, Memory>
    requires index { IsIndex given.now.index }
    requires object { IsObject object }
    requires before { IsBefore before }
    requires table { valid_table given.now.table.now ≡ true }
    ensures { IfOk result (λ changes. changes ≡ changes_to_put before old given.now.index pin.now object given.now.table.now) }
{
    let alone = stated_bytes(alloc, given, pin, object, None)?;
    let value = content(alloc, given.table)?;
    let write = Change::Tpm(TpmChange::Write {
        index: given.index,
        pin: *pin,
        value,
    });
    let mut changes = List::new(alloc);
    match before {
        Before::Unwritten => {
            changes.push(Change::File(alone))?;
            changes.push(write)?;
        }
        Before::Written(named) => {
            let both = stated_bytes(alloc, given, pin, object, named)?;
            changes.push(Change::File(both))?;
            changes.push(write)?;
            changes.push(Change::File(alone))?;
        }
    }
    if let Some(object) = old {
        changes.push(Change::Tpm(TpmChange::Evict(object)))?;
    }
    Ok(changes)
}

/// Puts the table in force, where the object holds the pin.
pub(crate) fn put<F: Files, T: Tpm>(
    alloc: Global,
    files: &mut F,
    tpm: &mut T,
    given: &Given<'_>,
    pin: &[u8; 32],
    old: Option<u32>,
    before: Before,
    object: u32,
) -> Result<Option<Answer>, Stop>
    requires readiness { T.ready tpm.old ≡ true }
    requires index { IsIndex given.now.index }
    requires object { IsObject object }
    requires before { IsBefore before }
    requires table { valid_table given.now.table.now ≡ true }
    ensures causes { HasCauses (F.faults files.old, 0, T.faults tpm.old, 0) (F.faults files.new, 0, T.faults tpm.new, 0) result }
    ensures made { (m : Live) → Works (F.held files.old) (T.live tpm.old) (T.stored tpm.old) m
        → CameTo result (F.held files.new) (T.live tpm.new) (T.stored tpm.new) (changes_made given.now.path.now (changes_to_put before old given.now.index pin.now object given.now.table.now) m) }
{
    match put_changes(alloc, given, pin, old, before, object) {
        Ok(changes) => perform_all(alloc, files, tpm, given.path, changes.as_slice()),
        Err(_) => Err(Stop::Memory),
    }
}

/// Seals the pin, and puts the table in force.
pub(crate) fn seal_and_put<F: Files, T: Tpm>(
    alloc: Global,
    files: &mut F,
    tpm: &mut T,
    given: &Given<'_>,
    pin: &[u8; 32],
    old: Option<u32>,
    before: Before,
) -> Result<Option<Answer>, Stop>
    requires readiness { T.ready tpm.old ≡ true }
    requires index { IsIndex given.now.index }
    requires before { IsBefore before }
    requires table { valid_table given.now.table.now ≡ true }
    ensures causes { HasCauses (F.faults files.old, 0, T.faults tpm.old, 0) (F.faults files.new, 0, T.faults tpm.new, 0) result }
    ensures made { (m : Live) → Works (F.held files.old) (T.live tpm.old) (T.stored tpm.old) m
        → CameTo result (F.held files.new) (T.live tpm.new) (T.stored tpm.new) (pin_made given.now.index pin.now (λ object. changes_made given.now.path.now (changes_to_put before old given.now.index pin.now object given.now.table.now)) m) }
{
    match seal_pin(alloc, tpm, given.index, pin) {
        Ok(Ok(object)) => put(alloc, files, tpm, given, pin, old, before, object),
        Ok(Err(answer)) => Ok(Some(answer)),
        Err(stop) => Err(stop),
    }
}
