//! The states that several PCRs may have together, each kept once with what first led to it, component
//! after component.
ghost use Rattle.std.specs.Prelude.{◌≡◌, ◌≤◌, [], map, length, if◌then◌else◌, IfOk, OnOk};
ghost use Rattle.std.specs.List.{All};
ghost use Rattle.hash_bank.specs.Hash.{size_in};
ghost use Rattle.hash_bank.specs.Extending.{start_of};
ghost use Rattle.cel_record.specs.Spelled.{spelled};
ghost use Rattle.component_tree.specs.PlainTree.{plain_variant};
ghost use Rattle.pcr_replay.specs.Measured.{extended_by};
ghost use Rattle.record_match.specs.Extends.{digests_in};
ghost use Rattle.predictor.specs.Foreseen.{value_limit};
ghost use Rattle.predictor.specs.Spread.{extended_state, next_states, nexts_from, HasState, IsState, Puts, Collects};

use crate::reached::Reached;
use crate::seen::Distinct;
use cel_record::CelRecord;
use component_tree::Variant;
use hash_bank::{Bank, Digest, extend, start};
use pl_base::{List, Memory};
use policy_digest::Values;
use std::alloc::Global;

/// The most distinct states.
const LIMIT: usize = 512;

/// Why no further state is taken.
#[derive(Clone, Copy, Debug, PartialEq, Eq)]
pub(crate) enum Stop {
    /// There are more than the limit.
    Full,
    /// Memory ran out.
    Memory,
}

/// What the PCR that held the value holds after extends by the bank's digests of its records.
pub fn extend_by(bank: Bank, value: &Digest, pcr: u8, records: &[CelRecord]) -> Digest
    requires { length value.now ≡ size_in bank }
    ensures value { result ≡ extended_by bank value.now (digests_in bank pcr (map spelled records.now)) }
    ensures size { length result ≡ size_in bank }
{
    let mut held = *value;
    for measured in records {
        if measured.pcr == pcr {
            if let Some(digest) = measured.digests.get(bank) {
                held = extend(bank, &held, &digest);
            }
        }
    }
    held
}

/// The values of these PCRs after a restart at the locality.
fn start_values(alloc: Global, bank: Bank, locality: u8, pcrs: &[u8]) -> Result<Values, Memory>
    requires some { 1 ≤ length pcrs.now }
    requires few { length pcrs.now ≤ 24 }
    requires in_range { All (λ p. p ≤ 23) pcrs.now }
    ensures value { IfOk result (λ values. values ≡ map (λ p. start_of bank p locality) pcrs.now) }
    ensures fits { IfOk result (λ values. IsState bank (length pcrs.now) values) }
{
    let mut list = List::new(alloc);
    for pcr in pcrs {
        list.push(start(bank, *pcr, locality))?;
    }
    match Values::from_vec(list.into_vec()) {
        Some(values) => Ok(values),
        None => unreachable!(),
    }
}

/// The state of these PCRs after a restart at the locality: no component has been measured.
pub(crate) fn start_state(
    alloc: Global,
    bank: Bank,
    locality: u8,
    pcrs: &[u8],
) -> Result<Reached, Memory>
    requires some { 1 ≤ length pcrs.now }
    requires few { length pcrs.now ≤ 24 }
    requires in_range { All (λ p. p ≤ 23) pcrs.now }
    ensures value { IfOk result (λ s. s ≡ record { cut = 0; choice = []; values = map (λ p. start_of bank p locality) pcrs.now }) }
    ensures fits { IfOk result (HasState bank (length pcrs.now)) }
{
    Ok(Reached {
        cut: 0,
        choice: List::new(alloc),
        values: start_values(alloc, bank, locality, pcrs)?,
    })
}

/// The values of these PCRs after extends by the records.
fn next_values(
    alloc: Global,
    bank: Bank,
    pcrs: &[u8],
    values: &[Digest],
    records: &[CelRecord],
) -> Result<Values, Memory>
    requires some { 1 ≤ length pcrs.now }
    requires few { length pcrs.now ≤ 24 }
    requires fits { IsState bank (length pcrs.now) values.now }
    ensures value { IfOk result (λ next. next ≡ extended_state bank pcrs.now values.now (map spelled records.now)) }
    ensures fits { IfOk result (λ next. IsState bank (length pcrs.now) next) }
{
    let mut list = List::new(alloc);
    for (place, pcr) in pcrs.iter().enumerate() {
        list.push(extend_by(bank, &values[place], *pcr, records))?;
    }
    match Values::from_vec(list.into_vec()) {
        Some(next) => Ok(next),
        None => unreachable!(),
    }
}

/// Puts the state after each of the variants to the list.
fn put_after(
    alloc: Global,
    bank: Bank,
    pcrs: &[u8],
    cut: u32,
    state: &Reached,
    variants: &[Variant],
    list: &mut Distinct,
) -> Result<(), Stop>
    requires some { 1 ≤ length pcrs.now }
    requires few { length pcrs.now ≤ 24 }
    requires fits { HasState bank (length pcrs.now) state.now }
    requires few_variants { length variants.now ≤ 64 }
    requires within { length list.old ≤ value_limit }
    requires all_fit { All (HasState bank (length pcrs.now)) list.old }
    ensures puts { Puts result list.old list.new (nexts_from bank pcrs.now cut 0 (map plain_variant variants.now) state.now) }
    ensures all_fit { OnOk result (All (HasState bank (length pcrs.now)) list.new) }
{
    let before = state.values.as_slice();
    let choice = state.choice.as_slice();
    for (number, variant) in variants.iter().enumerate() {
        let records = variant.records.as_slice();
        match next_values(alloc, bank, pcrs, before, records) {
            Ok(values) => match list.put_next(alloc, cut, choice, number as u32, values) {
                Ok(()) => {}
                Err(_) => return Err(Stop::Memory),
            },
            Err(_) => return Err(Stop::Memory),
        }
        if list.len() > LIMIT {
            return Err(Stop::Full);
        }
    }
    Ok(())
}

/// Each of the states after each of the variants, where later ones with values that came before are
/// dropped.
pub(crate) fn step(
    alloc: Global,
    bank: Bank,
    pcrs: &[u8],
    cut: u32,
    states: &[Reached],
    variants: &[Variant],
) -> Result<List<Reached>, Stop>
    requires some { 1 ≤ length pcrs.now }
    requires few { length pcrs.now ≤ 24 }
    requires few_variants { length variants.now ≤ 64 }
    requires all_fit { All (HasState bank (length pcrs.now)) states.now }
    ensures collects { Collects result (next_states bank pcrs.now cut (map plain_variant variants.now) states.now) }
    ensures all_fit { IfOk result (All (HasState bank (length pcrs.now))) }
{
    let mut list = Distinct::new(alloc);
    for state in states {
        match put_after(alloc, bank, pcrs, cut, state, variants, &mut list) {
            Ok(()) => {}
            Err(stop) => return Err(stop),
        }
    }
    Ok(list.into_list())
}

/// Puts copies of the states to the list, if they stand at a cut of the window.
pub(crate) fn put_cut(
    alloc: Global,
    list: &mut Distinct,
    states: &[Reached],
    is_cut: bool,
) -> Result<(), Stop>
    requires { length list.old ≤ value_limit }
    ensures { Puts result list.old list.new (if is_cut then states.now else []) }
{
    if !is_cut {
        return Ok(());
    }
    for state in states {
        match list.put_copy(alloc, state) {
            Ok(()) => {}
            Err(_) => return Err(Stop::Memory),
        }
        if list.len() > LIMIT {
            return Err(Stop::Full);
        }
    }
    Ok(())
}
