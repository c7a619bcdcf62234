//! A state as a key of a set.

ghost use Rattle.std.specs.Prelude.{◌≡◌, refl};
ghost use Rattle.std.specs.Cmp.{partial_order_from_total, partial_equiv_from_equiv, eq_by_cmp_equiv};
ghost use Rattle.std.specs.Ordering.{nat_cmp, as_partial_cmp, eq_by_cmp};
ghost use Rattle.std.specs.Cmp.Lexicographic.{slice_cmp};
ghost use Rattle.predictor.specs.StateOrder.{state_cmp, state_total};

use hash_bank::Digest;
use policy_digest::Values;
use std::cmp::Ordering;
use std::marker::Model;

/// A state as a key. Contracts see the state.
#[derive(Drop)]
pub(crate) struct StateKey {
    values: Values,
}

impl Model for StateKey {
    ghost use Rattle.std.specs.Prelude.{ℕ, List};

    ghost Value = { List (List ℕ) };

    ghost view = { λ key. key.values };
}

/// Compares the digests by their bytes.
fn compare_digests(a: &Digest, b: &Digest) -> Ordering
    ensures { result ≡ slice_cmp nat_cmp a.now b.now }
{
    a.as_slice().cmp(b.as_slice())
}

/// Compares one digest after the other; of two lists of which one begins with the other, the shorter
/// is the lesser.
fn compare_states(a: &[Digest], b: &[Digest]) -> Ordering
    ensures { result ≡ state_cmp a.now b.now }
{
    for (place, digest) in a.iter().enumerate() {
        if place == b.len() {
            return Ordering::Greater;
        }
        let order = compare_digests(digest, &b[place]);
        if order != Ordering::Equal {
            return order;
        }
    }
    if a.len() == b.len() {
        Ordering::Equal
    } else {
        Ordering::Less
    }
}

impl StateKey {
    /// The state as a key, without a copy.
    pub(crate) fn new(values: Values) -> StateKey
        ensures { result ≡ values }
    {
        StateKey { values }
    }

    /// The state.
    pub(crate) fn values(&self) -> &Values
        ensures { result.now ≡ self.now }
    {
        &self.values
    }
}

/// By the bytes of the digests, one digest after the other.
impl Ord for StateKey {
    ghost cmp = { state_cmp };

    ghost total = { state_total };

    ghost matches_partial_cmp = { λ _ _. refl };

    ghost matches_eq = { λ _ _. refl };

    fn cmp(&self, other: &StateKey) -> Ordering {
        compare_states(self.values.as_slice(), other.values.as_slice())
    }
}

impl PartialOrd for StateKey {
    ghost partial_cmp = { as_partial_cmp state_cmp };

    ghost laws = { partial_order_from_total state_total };

    fn partial_cmp(&self, other: &StateKey) -> Option<Ordering> {
        Some(self.cmp(other))
    }
}

impl PartialEq for StateKey {
    ghost eq = { eq_by_cmp state_cmp };

    ghost laws = { partial_equiv_from_equiv (eq_by_cmp_equiv state_total) };

    fn eq(&self, other: &StateKey) -> bool {
        self.cmp(other) == Ordering::Equal
    }
}

impl Eq for StateKey {
    ghost laws = { eq_by_cmp_equiv state_total };
}
