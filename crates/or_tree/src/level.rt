//! Levels of digests, each cut from the left into groups of eight.
ghost use Rattle.std.specs.Prelude.{◌≡◌, ℕ, ◌+◌, ◌*◌, ◌/◌, ◌<◌, ◌≤◌, length, IfOk};
ghost use Rattle.std.specs.List.{All};
ghost use Rattle.policy_digest.specs.Levels.{group, group_count, next_level as next_level_of, up};

use hash_bank::Digest;
use pl_base::{List, Memory};
use policy_digest::{Group, policy_or};
use std::alloc::Global;

/// The most digests that a group has (TPM 2.0 Library Part 2, TPML_DIGEST).
pub(crate) const GROUP: usize = 8;

/// The group of this number.
pub(crate) fn group_at(level: &[Digest], number: usize) -> &[Digest]
    requires { number < group_count level.now }
    ensures value { result.now ≡ group level.now number }
    ensures some { 1 ≤ length result.now }
    ensures few { length result.now ≤ 8 }
{
    let start = GROUP * number;
    let end = level.len().min(start + GROUP);
    &level[start..end]
}

/// The digests as one group.
pub(crate) fn group_of(digests: &[Digest]) -> Group
    requires { length digests.now ≤ 8 }
    ensures { result ≡ digests.now }
{
    let Some(group) = Group::from_slice(digests) else {
        unreachable!();
    };
    group
}

/// What stands for a group in the level above.
pub(crate) fn raised(group: &[Digest]) -> Digest
    requires some { 1 ≤ length group.now }
    requires few { length group.now ≤ 8 }
    requires sizes { All (λ d. length d ≡ 32) group.now }
    ensures value { result ≡ up group.now }
    ensures size { length result ≡ 32 }
{
    match group {
        [only] => *only,
        several => policy_or(&group_of(several)),
    }
}

/// The level above.
#[tactic(auto, using(crate::proofs::Groups::raised_more, crate::proofs::Groups::group_sizes), unfolding(policy_digest::specs::Levels::next_level))]
pub(crate) fn next_level(alloc: Global, level: &[Digest]) -> Result<List<Digest>, Memory>
    requires { All (λ d. length d ≡ 32) level.now }
    ensures value { IfOk result (λ next. next ≡ next_level_of level.now) }
    ensures sizes { IfOk result (λ next. All (λ d. length d ≡ 32) next) }
{
    let mut next = List::new(alloc);
    for number in 0..level.len().div_ceil(GROUP) {
        next.push(raised(group_at(level, number)))?;
    }
    Ok(next)
}
