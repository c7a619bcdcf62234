//! The PolicyORs from a leaf up to its row's top.
ghost use Rattle.std.specs.Prelude.{◌≡◌, ◌<◌, ◌≤◌, nat_lt, [], length, MatchOption};
ghost use Rattle.or_tree.specs.Plan.{leaves_at};
ghost use Rattle.policy_walk.specs.Paths.{group_in, path_from, place_in as place_of};

use or_tree::OrPlan;
use policy_digest::Group;

/// The most digests of a group (TPM 2.0 Library Part 2, TPML_DIGEST).
const GROUP: u32 = 8;

/// The levels that PolicyORs may join.
const LEVELS: u32 = 3;

/// The place of a leaf's branch in a level.
fn place_in(leaf: u32, level: u32) -> u32
    requires { level < 3 }
    ensures { result ≡ place_of leaf level }
{
    match level {
        0 => leaf,
        1 => leaf / GROUP,
        _ => leaf / GROUP / GROUP,
    }
}

/// The group of a leaf's branch in a level.
#[tactic(auto, using(crate::proofs::Branches::within))]
pub(crate) fn group_at(plan: &OrPlan, row: u32, leaf: u32, level: u32) -> Group
    requires row { row < length plan.now.rows }
    requires leaf { leaf < length (leaves_at plan.now row) }
    requires level { level < 3 }
    ensures { result ≡ group_in (leaves_at plan.now row) leaf level }
{
    plan.group(row, level, place_in(leaf, level))
}

/// Whether PolicyOR joins a leaf's branch with others in a level.
fn is_joined(plan: &OrPlan, row: u32, leaf: u32, level: u32) -> bool
    requires row { row < length plan.now.rows }
    requires leaf { leaf < length (leaves_at plan.now row) }
    requires level { level < 3 }
    ensures { result ≡ nat_lt 1 (length (group_in (leaves_at plan.now row) leaf level)) }
{
    let group = group_at(plan, row, leaf, level);
    group.as_slice().len() > 1
}

/// The first level, from one on, in which PolicyOR joins a leaf's branch with others.
pub(crate) fn next_level(plan: &OrPlan, row: u32, leaf: u32, from: u32) -> Option<u32>
    requires row { row < length plan.now.rows }
    requires leaf { leaf < length (leaves_at plan.now row) }
    requires from { from ≤ 3 }
    ensures { MatchOption result (path_from (leaves_at plan.now row) leaf from ≡ []) (λ level.
        (level < 3) × (1 < length (group_in (leaves_at plan.now row) leaf level))
        × (path_from (leaves_at plan.now row) leaf level ≡ path_from (leaves_at plan.now row) leaf from)) }
{
    for level in from..LEVELS {
        if is_joined(plan, row, leaf, level) {
            return Some(level);
        }
    }
    None
}
