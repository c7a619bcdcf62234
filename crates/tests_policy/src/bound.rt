//! That an object that is bound to an index is opened, what the refusals tell, and what is read of an index.
ghost use Rattle.std.specs.Prelude.{◌≡◌, true, IfOk};

use crate::fixtures::{
    INDEX, KEY, OBJECT, SHA256_ALONE, VALUE, content, digest, extend, is_done, machine, of_row,
    other, prepared, table,
};
use hash_bank::Digest;
use pl_base::{List, Small};
use policy_digest::{Table, Values};
use policy_session::{IndexError, UnsealError, read_index, unseal_bound};
use std::alloc::Global;
use std::test::Fail;
use tpm_device::{SoftTpm, Tpm};
use tpm_model::State;

/// PCR 11 in SHA-256 after two extends with the digest of `abc`, as a TPM 2.0 gives it.
const TWICE: &str = "bdeb6c6dc63852834c89f67066194207ce7d3806ea40ca58dc079246ef58a926";

/// The SHA-256 of 32 zero bytes and PCR 11 after one extend, as another implementation gives it.
const BOTH: &str = "b5ab2eaee749a8f5fe3e847815d70e8c15332cb6ab8a80491cfe7afc8dd7f8bc";

/// Whether the answer is the key.
fn is_key(answer: &Result<Small, UnsealError>) -> bool {
    match answer {
        Ok(key) => key.as_slice() == KEY.as_slice(),
        Err(_) => false,
    }
}

/// Whether the answer tells that the row of the mask isn't met, and this value.
fn is_unmet(answer: &Result<Small, UnsealError>, mask: u32, value: &Digest) -> bool {
    match answer {
        Err(UnsealError::NotForeseen { pcrs, now }) => {
            *pcrs == mask && now.as_slice() == value.as_slice()
        }
        _ => false,
    }
}

/// A TPM in memory with this state, which is ready.
fn device(alloc: Global, state: State) -> Result<SoftTpm, Fail>
    ensures { IfOk result (λ tpm. tpm.ready ≡ true) }
{
    let mut tpm = SoftTpm::new(state, List::new(alloc));
    if tpm.begin(alloc).is_err() || !tpm.is_ready() {
        return Err("not ready")?;
    }
    Ok(tpm)
}

/// Whether the object opens by the table, on a TPM with this state.
fn opens(alloc: Global, state: State, table: Table) -> Result<bool, Fail> {
    let held = content(alloc, &table)?;
    let prepared = prepared(alloc, table, &held)?;
    let mut tpm = device(alloc, state)?;
    Ok(is_key(&unseal_bound(alloc, &mut tpm, prepared, OBJECT)))
}

/// Whether the object is refused by the table, on a TPM with this state, with this mask and value.
fn refuses(
    alloc: Global,
    state: State,
    table: Table,
    mask: u32,
    value: &Digest,
) -> Result<bool, Fail> {
    let held = content(alloc, &table)?;
    let prepared = prepared(alloc, table, &held)?;
    let mut tpm = device(alloc, state)?;
    let answer = unseal_bound(alloc, &mut tpm, prepared, OBJECT);
    Ok(is_unmet(&answer, mask, value))
}

#[test]
fn a_value_of_the_table_opens(rt: HostRuntime) -> Result<(), Fail> {
    let alloc = rt.alloc();
    let table = table(alloc, &[other(), digest(VALUE)?])?;
    let state = machine(alloc, &content(alloc, &table)?)?;
    assert!(rt; opens(alloc, state, table)?);
    Ok(())
}

#[test]
fn an_extend_is_not_foreseen(rt: HostRuntime) -> Result<(), Fail> {
    let alloc = rt.alloc();
    let table = table(alloc, &[digest(VALUE)?])?;
    let mut state = machine(alloc, &content(alloc, &table)?)?;
    assert!(rt; is_done(alloc, &mut state, &extend()));
    assert!(rt; refuses(alloc, state, table, 1 << 11, &digest(TWICE)?)?);
    Ok(())
}

/// A row of PCR 4 and 11 that nothing meets.
#[test]
fn two_pcrs_are_told_by_their_digest(rt: HostRuntime) -> Result<(), Fail> {
    let alloc = rt.alloc();
    let mut choices = List::new(alloc);
    choices.push(Values::from_vec(vec![in alloc; other(), other()]?).ok_or("1 to 24 values")?)?;
    let table = of_row(alloc, 1 << 4 | 1 << 11, choices)?;
    let state = machine(alloc, &content(alloc, &table)?)?;
    assert!(rt; refuses(alloc, state, table, 1 << 4 | 1 << 11, &digest(BOTH)?)?);
    Ok(())
}

/// Whether the content is read of the index, as one that was written.
fn is_read(alloc: Global, tpm: &mut SoftTpm, content: &Small) -> bool
    requires { tpm.old.ready ≡ true }
{
    match read_index(alloc, tpm, INDEX) {
        Ok((public, held)) => {
            held.as_slice() == content.as_slice() && public.attributes == 0x2206_0008
        }
        Err(_) => false,
    }
}

#[test]
fn an_index_is_read(rt: HostRuntime) -> Result<(), Fail> {
    let alloc = rt.alloc();
    let held = content(alloc, &table(alloc, &[digest(VALUE)?])?)?;
    let mut tpm = device(alloc, machine(alloc, &held)?)?;
    assert!(rt; is_read(alloc, &mut tpm, &held));
    Ok(())
}

#[test]
fn no_index_is_told(rt: HostRuntime) -> Result<(), Fail> {
    let alloc = rt.alloc();
    let mut tpm = device(alloc, State::fresh(alloc, SHA256_ALONE))?;
    assert!(rt; matches!(read_index(alloc, &mut tpm, INDEX), Err(IndexError::NoIndex)));
    Ok(())
}
