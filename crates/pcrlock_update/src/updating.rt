//! What a policy file says of what an index holds.
ghost use Rattle.std.specs.Prelude.{◌≡◌, true, length, option_copied, IfOk, IfSome};
ghost use Rattle.std.specs.List.{AllByRecursion};
ghost use Rattle.policy_digest.specs.declared.table.Table.{Table as TableValue};
ghost use Rattle.policy_digest.specs.Table.{valid_table};
ghost use Rattle.policy_file.specs.PolicyText.{IsPolicy};
ghost use Rattle.pcrlock_update.specs.Update.{IsNamed, if_named, named_by as named_by_file, named_in as named_among, pin_in as pin_of_file};

use crate::building::content;
use pl_base::{Memory, Small};
use policy_digest::Table;
use policy_file::Policy;
use std::alloc::Global;

/// The last table for which an index holds this.
fn named_in(alloc: Global, held: &Small, tables: &[Table]) -> Result<Option<Table>, Memory>
    requires { AllByRecursion (λ (t : TableValue). valid_table t ≡ true) tables.now }
    ensures value { IfOk result (λ named. named ≡ named_among held.now tables.now) }
    ensures valid { IfOk result IsNamed }
{
    let Some((first, others)) = tables.split_first() else {
        return Ok(None);
    };
    match named_in(alloc, held, others) {
        Ok(Some(table)) => Ok(Some(table)),
        Ok(None) => named_alone(alloc, held, first),
        Err(error) => Err(error),
    }
}

/// The table, where the index holds this for it.
fn named_alone(alloc: Global, held: &Small, table: &Table) -> Result<Option<Table>, Memory>
    requires { valid_table table.now ≡ true }
    ensures value { IfOk result (λ named. named ≡ if_named held.now table.now) }
    ensures valid { IfOk result IsNamed }
{
    let own = content(alloc, table)?;
    if held.as_slice() == own.as_slice() {
        Ok(Some(table.copy(alloc)?))
    } else {
        Ok(None)
    }
}

/// The table of a policy file for which the index holds this.
pub(crate) fn named_by(
    alloc: Global,
    held: &Small,
    found: Option<&Policy>,
) -> Result<Option<Table>, Memory>
    requires { IfSome (option_copied found) IsPolicy }
    ensures value { IfOk result (λ named. named ≡ named_by_file held.now (option_copied found.entry)) }
    ensures valid { IfOk result IsNamed }
{
    match found {
        Some(policy) => named_in(alloc, held, policy.tables.as_slice()),
        None => Ok(None),
    }
}

/// The handle of the object that holds the pin of a policy file, where one is there.
pub fn pin_in(found: Option<&Policy>) -> Option<u32>
    ensures { result ≡ pin_of_file (option_copied found.entry) }
{
    match found {
        Some(policy) => Some(policy.pin_object),
        None => None,
    }
}
