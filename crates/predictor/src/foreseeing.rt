//! What is foreseen over a window.
ghost use Rattle.std.specs.Prelude.{◌≡◌, ◌≤◌, ◌<◌, ◌^◌, map, length, take, IfOk, OnOk, None};
ghost use Rattle.std.specs.List.{All};
ghost use Rattle.std.specs.Result.{result_map_both};
ghost use Rattle.component_tree.specs.PlainTree.{plain};
ghost use Rattle.policy_digest.specs.Table.{values_eq};
ghost use Rattle.policy_digest.specs.Levels.{first_of};
ghost use Rattle.policy_digest.specs.Mask.{pcrs_of};
ghost use Rattle.predictor.specs.Cuts.{cuts_between, inside_of};
ghost use Rattle.predictor.specs.States.{states_after};
ghost use Rattle.predictor.specs.Foreseen.{Answers, value_limit, foreseen, foreseen_joint, foreseen_by, lacking_error, lacking_in_any, over_cuts};
ghost use Rattle.predictor.specs.Reaching.{first_reached, reached_at, same_values, values_in};
ghost use Rattle.predictor.specs.Spread.{stopped_at};

use crate::error::ForeseeError;
use crate::reached::Reached;
use crate::reading::inside;
use crate::seen::Distinct;
use crate::spreading::{Stop, put_cut, start_state, step};
use crate::window::Window;
use component_tree::{Component, Tree};
use hash_bank::{Bank, Digest};
use pl_base::{List, Memory, Name};
use policy_digest::{Values, pcrs_in};
use record_match::{RecordPlace, first_lacking};
use std::alloc::Global;

/// Why it stops at a cut.
fn stopped(stop: Stop, cut: u32) -> ForeseeError
    ensures { result ≡ stopped_at cut stop }
{
    match stop {
        Stop::Full => ForeseeError::TooMany(cut),
        Stop::Memory => ForeseeError::Memory,
    }
}

/// The states of these PCRs over the cuts from the first one to the number of the components, and all
/// choices of the components before a cut, each with what first leads to it.
fn spread(
    alloc: Global,
    bank: Bank,
    locality: u8,
    pcrs: &[u8],
    components: &[Component],
    first: usize,
) -> Result<List<Reached>, ForeseeError>
    requires some { 1 ≤ length pcrs.now }
    requires few { length pcrs.now ≤ 24 }
    requires in_range { All (λ p. p ≤ 23) pcrs.now }
    requires few_components { length components.now ≤ 256 }
    ensures states { Answers (result_map_both values_in (λ e. e) result) (foreseen_by values_eq (λ k. states_after bank locality pcrs.now (take k (plain components.now))) first (length components.now) None) }
    ensures reached { IfOk result (λ list. list ≡ over_cuts same_values (λ k. reached_at bank locality pcrs.now k (take k (plain components.now))) (cuts_between first (length components.now))) }
{
    let mut states = List::new(alloc);
    states.push(start_state(alloc, bank, locality, pcrs)?)?;
    let mut reached = Distinct::new(alloc);
    match put_cut(alloc, &mut reached, states.as_slice(), first == 0) {
        Ok(()) => {}
        Err(stop) => return Err(stopped(stop, 0)),
    }
    for (number, component) in components.iter().enumerate() {
        let cut = number + 1;
        match step(
            alloc,
            bank,
            pcrs,
            cut as u32,
            states.as_slice(),
            component.variants.as_slice(),
        ) {
            Ok(next) => states = next,
            Err(stop) => return Err(stopped(stop, cut as u32)),
        }
        match put_cut(alloc, &mut reached, states.as_slice(), first <= cut) {
            Ok(()) => {}
            Err(stop) => return Err(stopped(stop, cut as u32)),
        }
    }
    Ok(reached.into_list())
}

/// The components inside the window's end, which are the tree's first ones.
pub fn components_inside<'a>(tree: &'a Tree, end: &Name) -> &'a [Component]
    ensures value { plain result.now ≡ inside_of end.now (plain tree.now.components) }
    ensures few { length result.now ≤ 256 }
{
    let count = inside(tree, end) as usize;
    &tree.components.as_slice()[..count]
}

/// The record that lacks the bank, as a refusal.
fn no_digest(at: RecordPlace) -> ForeseeError
    ensures { result ≡ lacking_error at }
{
    ForeseeError::NoDigest {
        component: at.component,
        variant: at.variant,
        place: at.place,
    }
}

/// The first value of a state, which has some.
fn first_value(state: &Reached) -> Digest
    ensures { result ≡ first_of state.now.values }
{
    state.values.as_slice()[0]
}

/// The first value of each state.
fn first_values(alloc: Global, states: &[Reached]) -> Result<List<Digest>, Memory>
    ensures { IfOk result (λ list. list ≡ map first_of (values_in states.now)) }
{
    let mut list = List::new(alloc);
    for state in states {
        list.push(first_value(state))?;
    }
    Ok(list)
}

/// The values of the PCR after each choice of variants of the components before a cut, for each cut of
/// the window and each choice in lexicographic order, where later repeats are dropped. A cut is a number
/// of components, from those up to the window's start to those up to its end. There are 24 PCRs, from 0
/// on.
///
/// # Errors
///
/// `NoDigest` names the first record of the PCR inside the window's end that lacks the bank; it comes
/// first. `TooMany` gives the least number of components, up to those inside, such that more than 512
/// distinct values are reached after them, or over the cuts up to it. `Memory` may come at any step.
pub fn foresee(
    alloc: Global,
    tree: &Tree,
    window: &Window,
    pcr: u8,
    bank: Bank,
    locality: u8,
) -> Result<List<Digest>, ForeseeError>
    requires { pcr ≤ 23 }
    ensures value { Answers result (foreseen bank locality pcr window.now (plain tree.now.components)) }
    ensures counted { IfOk result (λ list. (1 ≤ length list) × (length list ≤ value_limit)) }
{
    let components = components_inside(tree, &window.end);
    if let Some(at) = first_lacking(components, pcr, bank) {
        return Err(no_digest(at));
    }
    let first = inside(tree, &window.start) as usize;
    match spread(alloc, bank, locality, &[pcr], components, first) {
        Ok(states) => Ok(first_values(alloc, states.as_slice())?),
        Err(error) => Err(error),
    }
}

/// The first record that lacks the bank, of the first PCR that has one.
fn lacking_in_one(components: &[Component], pcrs: &[u8], bank: Bank) -> Option<RecordPlace>
    requires { length components.now ≤ 256 }
    ensures { result ≡ lacking_in_any bank pcrs.now (plain components.now) }
{
    for pcr in pcrs {
        if let Some(at) = first_lacking(components, *pcr, bank) {
            return Some(at);
        }
    }
    None
}

/// The states of these PCRs, as `foresee_choices` says.
fn reach(
    alloc: Global,
    tree: &Tree,
    window: &Window,
    pcrs: &[u8],
    bank: Bank,
    locality: u8,
) -> Result<List<Reached>, ForeseeError>
    requires some { 1 ≤ length pcrs.now }
    requires few { length pcrs.now ≤ 24 }
    requires in_range { All (λ p. p ≤ 23) pcrs.now }
    ensures states { Answers (result_map_both values_in (λ e. e) result) (foreseen_joint bank locality pcrs.now window.now (plain tree.now.components)) }
    ensures reached { IfOk result (λ list. list ≡ first_reached bank locality pcrs.now window.now (plain tree.now.components)) }
    ensures whole { OnOk result (lacking_in_any bank pcrs.now (inside_of window.now.end (plain tree.now.components)) ≡ None) }
{
    let components = components_inside(tree, &window.end);
    if let Some(at) = lacking_in_one(components, pcrs, bank) {
        return Err(no_digest(at));
    }
    let first = inside(tree, &window.start) as usize;
    spread(alloc, bank, locality, pcrs, components, first)
}

/// The values of each state.
fn values_of(alloc: Global, states: &[Reached]) -> Result<List<Values>, Memory>
    ensures { IfOk result (λ list. list ≡ values_in states.now) }
{
    let mut list = List::new(alloc);
    for state in states {
        list.push(state.values.copy(alloc)?)?;
    }
    Ok(list)
}

/// The states of these PCRs, as `foresee_joint` says.
pub(crate) fn foresee_pcrs(
    alloc: Global,
    tree: &Tree,
    window: &Window,
    pcrs: &[u8],
    bank: Bank,
    locality: u8,
) -> Result<List<Values>, ForeseeError>
    requires some { 1 ≤ length pcrs.now }
    requires few { length pcrs.now ≤ 24 }
    requires in_range { All (λ p. p ≤ 23) pcrs.now }
    ensures { Answers result (foreseen_joint bank locality pcrs.now window.now (plain tree.now.components)) }
{
    match reach(alloc, tree, window, pcrs, bank, locality) {
        Ok(states) => Ok(values_of(alloc, states.as_slice())?),
        Err(error) => Err(error),
    }
}

/// The states of the PCRs of the mask, ascending by PCR, after each choice of variants of the components
/// before a cut, for each cut of the window and each choice in lexicographic order, one cut and one
/// choice for all of the PCRs at once; later repeats are dropped.
///
/// # Errors
///
/// `NoDigest` is that of `foresee` for the first PCR of the mask that has one. `TooMany` gives the least
/// number of components, up to those inside, such that more than 512 distinct states are reached after
/// them, or over the cuts up to it. `Memory` may come at any step.
pub fn foresee_joint(
    alloc: Global,
    tree: &Tree,
    window: &Window,
    pcrs: u32,
    bank: Bank,
    locality: u8,
) -> Result<List<Values>, ForeseeError>
    requires some { 0 < pcrs }
    requires in_range { pcrs < 2 ^ 24 }
    ensures value { Answers result (foreseen_joint bank locality (pcrs_of pcrs) window.now (plain tree.now.components)) }
    ensures counted { IfOk result (λ list. (1 ≤ length list) × (length list ≤ value_limit)) }
{
    let pcrs = pcrs_in(alloc, pcrs)?;
    foresee_pcrs(alloc, tree, window, pcrs.as_slice(), bank, locality)
}

/// The states that `foresee_joint` gives, in its order, each with the first cut of the window that has it
/// and, of the choices that lead to it there, the first one in lexicographic order.
///
/// # Errors
///
/// Those of `foresee_joint`, where it has them.
pub fn foresee_choices(
    alloc: Global,
    tree: &Tree,
    window: &Window,
    pcrs: u32,
    bank: Bank,
    locality: u8,
) -> Result<List<Reached>, ForeseeError>
    requires some { 0 < pcrs }
    requires in_range { pcrs < 2 ^ 24 }
    ensures states { Answers (result_map_both values_in (λ e. e) result) (foreseen_joint bank locality (pcrs_of pcrs) window.now (plain tree.now.components)) }
    ensures reached { IfOk result (λ list. list ≡ first_reached bank locality (pcrs_of pcrs) window.now (plain tree.now.components)) }
    ensures counted { IfOk result (λ list. (1 ≤ length list) × (length list ≤ value_limit)) }
    // Each record of the PCRs inside the window has the bank.
    ensures whole { OnOk result (lacking_in_any bank (pcrs_of pcrs) (inside_of window.now.end (plain tree.now.components)) ≡ None) }
{
    let pcrs = pcrs_in(alloc, pcrs)?;
    reach(alloc, tree, window, pcrs.as_slice(), bank, locality)
}
