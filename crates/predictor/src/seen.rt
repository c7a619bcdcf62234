//! Distinct states in the order in which they first came, beside a set of their values for quick look-ups.

ghost use Rattle.std.specs.Prelude.{◌≡◌, ◌++◌, [], ◌∷◌, length, true, false, IfOk, OnOk, MatchOption, MatchResult};
ghost use Rattle.std.specs.Bool.{OnTrue};
ghost use Rattle.predictor.specs.Distinct.{put};
ghost use Rattle.predictor.specs.Reaching.{same_values};
ghost use Rattle.predictor.specs.StateOrder.{has_values, HasKeys};

use crate::reached::Reached;
use crate::state_key::StateKey;
use pl_base::{List, Memory};
use policy_digest::Values;
use std::alloc::Global;
use std::collections::BTreeSet;
use std::marker::Model;

/// States of which no two have the same values. Contracts see the list of them.
#[derive(Drop)]
pub(crate) struct Distinct {
    list: List<Reached>,
    keys: BTreeSet<StateKey>,
}

impl Model for Distinct {
    ghost use Rattle.std.specs.Prelude.{List};
    ghost use Rattle.predictor.specs.declared.reached.Reached.{Reached};
    ghost use Rattle.predictor.specs.StateOrder.{HasKeys};

    ghost Value = { List Reached };

    ghost view = { λ d. d.list };

    ghost invariant = { λ d. HasKeys d.keys.keys d.list };
}

/// Whether the values are those of the list's last state. Variants that measure the same into the PCRs,
/// or nothing, give the same values one after the other, so this is asked before the whole set.
fn is_last(list: &[Reached], values: &Values) -> bool
    ensures { OnTrue result (has_values values.now list.now ≡ true) }
{
    match list.last() {
        Some(last) => values.is_same(&last.values),
        None => false,
    }
}

/// The choice with one number more.
fn longer(alloc: Global, choice: &[u32], number: u32) -> Result<List<u32>, Memory>
    ensures { IfOk result (λ more. more ≡ choice.now ++ number ∷ []) }
{
    let mut more = Vec::with_capacity(alloc, choice.len() + 1)?;
    more.extend_from_slice(choice)?;
    more.push(number)?;
    Ok(List::from_vec(more))
}

/// Puts the state, whose values aren't there, to the list and its values to the keys. For want of memory
/// both stay.
fn add(
    list: &mut List<Reached>,
    keys: &mut BTreeSet<StateKey>,
    state: Reached,
    key: StateKey,
) -> Result<(), Memory>
    requires same { key ≡ state.values }
    requires has_keys { HasKeys keys.old.keys list.old }
    ensures listed { MatchResult result (λ _. list.new ≡ list.old ++ state ∷ []) (λ _. list.new ≡ list.old) }
    ensures has_keys { HasKeys keys.new.keys list.new }
{
    let count = list.len();
    list.push(state)?;
    match keys.insert(key) {
        Ok(_) => Ok(()),
        Err(_) => {
            let _refused = list.remove(count);
            Err(Memory)
        }
    }
}

impl Distinct {
    /// No states, which take no memory.
    pub(crate) fn new(alloc: Global) -> Distinct
        ensures { result ≡ [] }
    {
        Distinct {
            list: List::new(alloc),
            keys: BTreeSet::new(alloc),
        }
    }

    /// How many states there are.
    pub(crate) fn len(&self) -> usize
        ensures { result ≡ length self.now }
    {
        self.list.len()
    }

    /// The states without their keys.
    pub(crate) fn into_list(self) -> List<Reached>
        ensures { result ≡ self }
    {
        let Distinct { list, .. } = self;
        list
    }

    /// The values as a key, unless a state has them.
    fn missing(&self, values: Values) -> Option<StateKey>
        ensures { MatchOption result (has_values values self.now ≡ true) (λ key. (key ≡ values) × (has_values values self.now ≡ false)) }
    {
        if is_last(self.list.as_slice(), &values) {
            return None;
        }
        let key = StateKey::new(values);
        if self.keys.contains(&key) {
            return None;
        }
        Some(key)
    }

    /// Puts a state with these values at the end, unless there is one. Its choice is the one before with
    /// the number behind it.
    pub(crate) fn put_next(
        &mut self,
        alloc: Global,
        cut: u32,
        before: &[u32],
        number: u32,
        values: Values,
    ) -> Result<(), Memory>
        ensures { OnOk result (self.new ≡ put same_values self.old (record { cut = cut; choice = before.now ++ number ∷ []; values = values })) }
    {
        let Some(key) = self.missing(values) else {
            return Ok(());
        };
        let state = Reached {
            cut,
            choice: longer(alloc, before, number)?,
            values: key.values().copy(alloc)?,
        };
        add(&mut self.list, &mut self.keys, state, key)
    }

    /// Puts a copy of the state at the end, unless one with its values is there.
    pub(crate) fn put_copy(&mut self, alloc: Global, state: &Reached) -> Result<(), Memory>
        ensures { OnOk result (self.new ≡ put same_values self.old state.now) }
    {
        let Some(key) = self.missing(state.values.copy(alloc)?) else {
            return Ok(());
        };
        let state = Reached {
            cut: state.cut,
            choice: List::from_vec(Vec::from_slice(alloc, state.choice.as_slice())?),
            values: key.values().copy(alloc)?,
        };
        add(&mut self.list, &mut self.keys, state, key)
    }
}
