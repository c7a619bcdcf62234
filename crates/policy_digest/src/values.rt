//! The values of some PCRs at once.
ghost use Rattle.std.specs.Prelude.{◌≡◌, ◌≤◌, ◌↔◌, length, IsSome, IfSome, IfOk};
ghost use Rattle.policy_digest.specs.Table.{values_eq};

use hash_bank::Digest;
use pl_base::Memory;
use std::alloc::Global;
use std::marker::Model;

// The most PCRs that a row has (TCG PC Client Platform TPM Profile, 24 PCRs).
const MOST: usize = 24;

/// One to 24 digests: the values of a row's PCRs, ascending by PCR. Contracts see the list of them.
#[derive(Debug, Drop)]
pub struct Values {
    list: Vec<Digest>,
}

impl Model for Values {
    ghost use Rattle.std.specs.Prelude.{ℕ, ◌≤◌, List, length};

    ghost Value = { List (List ℕ) };

    ghost view = { λ v. v.list.items };

    ghost invariant = { λ v. (1 ≤ length v.list.items) × (length v.list.items ≤ 24) };
}

// Whether both are the same digests in the same order.
fn are_same(some: &[Digest], others: &[Digest]) -> bool
    ensures { result ≡ values_eq some.now others.now }
{
    if some.len() != others.len() {
        return false;
    }
    for (place, digest) in some.iter().enumerate() {
        if !digest.is_same(&others[place]) {
            return false;
        }
    }
    true
}

impl Values {
    /// The values of this list, or `None` exactly where it doesn't have 1 to 24 digests.
    pub fn from_vec(list: Vec<Digest>) -> Option<Values>
        ensures fits { IsSome result ↔ ((1 ≤ length list.items) × (length list.items ≤ 24)) }
        ensures value { IfSome result (λ values. values ≡ list.items) }
    {
        if list.is_empty() || list.len() > MOST {
            return None;
        }
        Some(Values { list })
    }

    /// The digests in order, of which there are 1 to 24.
    pub fn as_slice(&self) -> &[Digest]
        ensures value { result.now ≡ self.now }
        ensures some { 1 ≤ length self.now }
        ensures few { length self.now ≤ 24 }
    {
        self.list.as_slice()
    }

    /// Equal values with memory of their own.
    pub fn copy(&self, alloc: Global) -> Result<Values, Memory>
        ensures { IfOk result (λ values. values ≡ self.now) }
    {
        Ok(Values {
            list: Vec::from_slice(alloc, self.list.as_slice())?,
        })
    }

    /// Whether both are the same digests in the same order.
    pub fn is_same(&self, other: &Values) -> bool
        ensures { result ≡ values_eq self.now other.now }
    {
        are_same(self.as_slice(), other.as_slice())
    }
}
