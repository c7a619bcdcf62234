//! What is tested of a written index before a policy is put in force under its handle.
ghost use Rattle.std.specs.Prelude.{◌≡◌, ◌==◌, ◌||◌, true, length, option_copied, Some, None, IfOk, IfErr, IfSome};
ghost use Rattle.std.specs.Cmp.Lexicographic.{pointwise};
ghost use Rattle.std.specs.List.{list_any};
ghost use Rattle.policy_digest.specs.Table.{valid_table, values_eq};
ghost use Rattle.pcrlock_update.specs.Standing.{file_has as file_has_digest, file_holds as file_holds_table, is_unchanged as nothing_changes, pin_has as pin_has_policy, same_row, same_table, standing_of, with_given as with_given_pin};

use crate::building::content;
use hash_bank::Digest;
use nv_index::{NvPublic, index_name};
use pcrlock_answer::Answer;
use pl_base::{Memory, Small};
use policy_digest::{Row, Table, Values, pin_policy};
use policy_file::Policy;
use std::alloc::Global;

/// Whether both are the same lists in the same order.
fn are_same_lists(some: &[Values], others: &[Values]) -> bool
    ensures { result ≡ pointwise values_eq some.now others.now }
{
    if some.len() != others.len() {
        return false;
    }
    for (place, values) in some.iter().enumerate() {
        if !values.is_same(&others[place]) {
            return false;
        }
    }
    true
}

/// Whether both rows are of the same PCRs and have the same lists.
fn is_same_row(a: &Row, b: &Row) -> bool
    ensures { result ≡ same_row a.now b.now }
{
    a.pcrs == b.pcrs && are_same_lists(a.choices.as_slice(), b.choices.as_slice())
}

/// Whether both are the same rows in the same order.
fn are_same_rows(some: &[Row], others: &[Row]) -> bool
    ensures { result ≡ pointwise same_row some.now others.now }
{
    if some.len() != others.len() {
        return false;
    }
    for (place, row) in some.iter().enumerate() {
        if !is_same_row(row, &others[place]) {
            return false;
        }
    }
    true
}

/// Whether both tables are the same.
fn is_same_table(a: &Table, b: &Table) -> bool
    ensures { result ≡ same_table a.now b.now }
{
    a.bank.algorithm() == b.bank.algorithm() && are_same_rows(a.rows.as_slice(), b.rows.as_slice())
}

/// Whether one of the tables is this one.
fn is_among(table: &Table, tables: &[Table]) -> bool
    ensures { result ≡ list_any (same_table table.now) tables.now }
{
    tables.iter().any(|other| is_same_table(table, other))
}

/// Whether the policy file has this digest of a policy.
fn file_has(digest: &Digest, found: Option<&Policy>) -> bool
    ensures { result ≡ file_has_digest digest.now (option_copied found.entry) }
{
    match found {
        Some(policy) => policy.index_policy.is_same(digest),
        None => false,
    }
}

/// Whether the policy file has the table.
fn file_holds(table: &Table, found: Option<&Policy>) -> bool
    ensures { result ≡ file_holds_table table.now (option_copied found.entry) }
{
    match found {
        Some(policy) => is_among(table, policy.tables.as_slice()),
        None => false,
    }
}

/// Whether the pin that was given has this policy.
fn pin_has(digest: &Digest, pin: Option<&[u8; 32]>) -> bool
    ensures { result ≡ pin_has_policy digest.now (option_copied pin.entry) }
{
    match pin {
        Some(pin) => pin_policy(pin).is_same(digest),
        None => false,
    }
}

/// Whether nothing has to be changed.
fn is_unchanged(
    alloc: Global,
    found: Option<&Policy>,
    force: bool,
    public: &NvPublic,
    held: &Small,
    table: &Table,
) -> Result<bool, Memory>
    requires { valid_table table.now ≡ true }
    ensures { IfOk result (λ same. same ≡ nothing_changes (option_copied found.entry) force public.now held.now table.now) }
{
    let own = content(alloc, table)?;
    Ok(
        !force
            && file_has(&public.policy, found)
            && file_holds(table, found)
            && held.as_slice() == own.as_slice(),
    )
}

/// Tests a pin that was given.
fn with_given(pin: Option<&[u8; 32]>, index: &Digest, same: bool) -> Result<bool, Answer>
    ensures { result ≡ with_given_pin (option_copied pin.entry) index.now same }
{
    match pin {
        Some(pin) => {
            let given = pin_policy(pin);
            if given.is_same(index) {
                Ok(same)
            } else {
                Err(Answer::PinRefused {
                    given,
                    index: *index,
                })
            }
        }
        None => Ok(same),
    }
}

/// Tests a written index, which has the public area and holds `held`, before the table is put in force under
/// its handle: whether nothing has to be changed. That is where the policy file has the index's policy and
/// the table, the index holds the table's policy, and no change is forced.
///
/// The refusals are, in this order: `IndexTaken` where the index has neither the policy file's digest of a
/// policy nor the given pin's policy; and `PinRefused` where a pin is given and has another policy.
pub fn test_standing(
    alloc: Global,
    found: Option<&Policy>,
    pin: Option<&[u8; 32]>,
    force: bool,
    public: &NvPublic,
    held: &Small,
    table: &Table,
) -> Result<Result<bool, Answer>, Memory>
    requires { valid_table table.now ≡ true }
    ensures { IfOk result (λ stands. stands ≡ standing_of (option_copied found.entry) (option_copied pin.entry) force public.now held.now table.now) }
{
    let same = is_unchanged(alloc, found, force, public, held, table)?;
    if file_has(&public.policy, found) || pin_has(&public.policy, pin) {
        Ok(with_given(pin, &public.policy, same))
    } else {
        Ok(Err(Answer::IndexTaken {
            handle: public.handle,
            name: index_name(public),
        }))
    }
}
