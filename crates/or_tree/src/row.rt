//! The branches of one row.
ghost use Rattle.std.specs.Prelude.{◌≡◌, ℕ, ◌+◌, ◌*◌, ◌/◌, ◌<◌, ◌≤◌, ◌^◌, true, List as Sequence, [], ◌++◌, length, map, position, slice_index_or, IfOk};
ghost use Rattle.std.specs.List.{All};
ghost use Rattle.std.specs.Str.{bytes_eq};
ghost use Rattle.or_tree.specs.Branching.{joined as joined_in, joined_levels as joined_levels_of, level_at};
ghost use Rattle.or_tree.specs.Leading.{Leads};
ghost use Rattle.or_tree.specs.Plan.{row_plan};
ghost use Rattle.policy_digest.specs.Levels.{group, group_count, listed, path_of, top_of_leaves};
ghost use Rattle.policy_digest.specs.Plain.{plain_row};
ghost use Rattle.policy_digest.specs.PlainTable.{leaf_of, leaves_of};
ghost use Rattle.policy_digest.specs.Strings.{values_string};
ghost use Rattle.policy_digest.specs.Table.{valid_row};

use crate::level::{GROUP, group_at, group_of, next_level, raised};
use hash_bank::{Bank, Digest};
use pl_base::{List, Memory};
use policy_digest::{Group, Row, Values, policy_pcr, values_digest};
use std::alloc::Global;
use std::marker::Model;

/// The leaf of one list of values, after the policy of the rows before.
fn leaf(bank: Bank, before: &Digest, pcrs: u32, values: &Values) -> Digest
    requires before_fits { length before.now ≡ 32 }
    requires pcrs_fit { pcrs < 2 ^ 24 }
    ensures value { result ≡ leaf_of bank before.now pcrs (values_string values.now) }
    ensures size { length result ≡ 32 }
{
    policy_pcr(before, bank, pcrs, &values_digest(values.as_slice()))
}

/// The leaves of a row, one for each of its lists.
fn leaves(alloc: Global, bank: Bank, before: &Digest, row: &Row) -> Result<List<Digest>, Memory>
    requires before_fits { length before.now ≡ 32 }
    requires pcrs_fit { row.now.pcrs < 2 ^ 24 }
    ensures value { IfOk result (λ leaves. leaves ≡ leaves_of bank before.now (plain_row row.now)) }
    ensures sizes { IfOk result (λ leaves. All (λ d. length d ≡ 32) leaves) }
{
    let mut leaves = List::new(alloc);
    for values in row.choices.as_slice() {
        leaves.push(leaf(bank, before, row.pcrs, values))?;
    }
    Ok(leaves)
}

/// 1 for a level that PolicyORs join, and 0 for one of a single digest.
fn joined(level: &[Digest]) -> u32
    ensures value { result ≡ joined_in level.now }
    ensures few { result ≤ 1 }
{
    if level.len() > 1 { 1 } else { 0 }
}

/// Puts the group of this number behind the others, where it has two digests or more.
fn list_group(path: &mut List<Group>, level: &[Digest], number: usize) -> Result<(), Memory>
    requires { number < group_count level.now }
    ensures { IfOk result (λ _. path.new ≡ path.old ++ listed (group level.now number)) }
{
    let found = group_at(level, number);
    if found.len() > 1 {
        path.push(group_of(found))?;
    }
    Ok(())
}

/// A row's levels. Contracts see the row's mask and its leaves.
#[derive(Debug, Drop)]
pub(crate) struct Branches {
    pcrs: u32,
    leaves: List<Digest>,
    second: List<Digest>,
    third: List<Digest>,
}

impl Model for Branches {
    ghost use Rattle.std.specs.Prelude.{◌≡◌, ◌≤◌, length};
    ghost use Rattle.std.specs.List.{All};
    ghost use Rattle.policy_digest.specs.Levels.{next_level};
    ghost use Rattle.or_tree.specs.Plan.{RowPlan};

    ghost Value = { RowPlan };

    ghost view = { λ b. record { pcrs = b.pcrs; leaves = b.leaves } };

    ghost invariant = { λ b.
        (1 ≤ length b.leaves) × (length b.leaves ≤ 512)
        × (b.second ≡ next_level b.leaves) × (b.third ≡ next_level b.second)
        × All (λ d. length d ≡ 32) b.third };
}

impl Branches {
    /// The branches of a row, after the policy of the rows before.
    pub(crate) fn of_row(
        alloc: Global,
        bank: Bank,
        before: &Digest,
        row: &Row,
    ) -> Result<Branches, Memory>
        requires before_fits { length before.now ≡ 32 }
        requires valid { valid_row bank row.now ≡ true }
        ensures { IfOk result (λ branches. branches ≡ row_plan bank before.now (plain_row row.now)) }
    {
        let leaves = leaves(alloc, bank, before, row)?;
        let second = next_level(alloc, leaves.as_slice())?;
        let third = next_level(alloc, second.as_slice())?;
        Ok(Branches {
            pcrs: row.pcrs,
            leaves,
            second,
            third,
        })
    }

    /// The row's mask.
    pub(crate) fn pcrs(&self) -> u32
        ensures { result ≡ self.now.pcrs }
    {
        self.pcrs
    }

    /// The one digest above the third level.
    pub(crate) fn top(&self) -> Digest
        ensures value { result ≡ top_of_leaves self.now.leaves }
        ensures size { length result ≡ 32 }
    {
        raised(self.third.as_slice())
    }

    /// The level of this number: the leaves, or one of the two above them.
    pub(crate) fn level(&self, number: u32) -> &[Digest]
        requires { number < 3 }
        ensures { result.now ≡ level_at self.now.leaves number }
    {
        match number {
            0 => self.leaves.as_slice(),
            1 => self.second.as_slice(),
            _ => self.third.as_slice(),
        }
    }

    /// The number of levels that PolicyORs join.
    pub(crate) fn joined_levels(&self) -> u32
        ensures value { result ≡ joined_levels_of self.now.leaves }
        ensures few { result ≤ 3 }
    {
        joined(self.leaves.as_slice())
            + joined(self.second.as_slice())
            + joined(self.third.as_slice())
    }

    /// The number of the first leaf that is the digest.
    pub(crate) fn leaf(&self, digest: &Digest) -> Option<usize>
        ensures value { result ≡ position (λ leaf. bytes_eq leaf digest.now) self.now.leaves }
        ensures few { length self.now.leaves ≤ 512 }
    {
        self.leaves
            .as_slice()
            .iter()
            .position(|leaf| leaf.as_slice() == digest.as_slice())
    }

    /// The group that holds the place of a level.
    pub(crate) fn group(&self, level: u32, place: u32) -> Group
        requires level { level < 3 }
        requires place { place < length (level_at self.now.leaves level) }
        ensures { result ≡ group (level_at self.now.leaves level) (place / 8) }
    {
        group_of(group_at(self.level(level), place as usize / GROUP))
    }

    /// The groups of two or more from a leaf up to the top.
    #[tactic(auto, using(crate::proofs::Leading::leads, crate::proofs::Leading::few_lists))]
    pub(crate) fn path(&self, alloc: Global, leaf: usize) -> Result<List<Group>, Memory>
        requires { leaf < length self.now.leaves }
        ensures value { IfOk result (λ path. path ≡ path_of self.now.leaves leaf) }
        ensures leads { Leads (slice_index_or self.now.leaves leaf []) (path_of self.now.leaves leaf) (top_of_leaves self.now.leaves) }
        ensures few { IfOk result (λ path. length path ≤ 3) }
    {
        let mut path = List::new(alloc);
        list_group(&mut path, self.leaves.as_slice(), leaf / GROUP)?;
        list_group(&mut path, self.second.as_slice(), leaf / GROUP / GROUP)?;
        list_group(
            &mut path,
            self.third.as_slice(),
            leaf / GROUP / GROUP / GROUP,
        )?;
        Ok(path)
    }
}
