//! The branches of a table.
ghost use Rattle.std.specs.Prelude.{◌≡◌, ◌/◌, ◌<◌, ◌≤◌, true, [], Some, length, position, slice_get, slice_index_or, IfOk, IfSome};
ghost use Rattle.std.specs.Str.{bytes_eq};
ghost use Rattle.or_tree.specs.Branching.{joined_levels, level_at};
ghost use Rattle.or_tree.specs.Leading.{Leads};
ghost use Rattle.or_tree.specs.Plan.{leaves_at, pcrs_at, plan_of};
ghost use Rattle.policy_digest.specs.Levels.{group, path_of, top_of_leaves};
ghost use Rattle.policy_digest.specs.Plain.{plain_table};
ghost use Rattle.policy_digest.specs.Table.{valid_table};

use crate::row::Branches;
use hash_bank::{Bank, Digest};
use pl_base::{List, Memory};
use policy_digest::{Group, Table};
use std::alloc::Global;
use std::marker::Model;

/// The branches of a table: for each row its leaves, one for each list of values, and the PolicyORs that
/// join them into the policy on which the next row stands (TPM 2.0 Library Part 3, TPM2_PolicyOR). SHA-256
/// throughout. Contracts see the bank, the rows with their leaves, and the root.
#[derive(Debug, Drop)]
pub struct OrPlan {
    bank: Bank,
    rows: List<Branches>,
    root: Digest,
}

impl Model for OrPlan {
    ghost use Rattle.std.specs.Prelude.{◌≡◌, ◌≤◌, length};
    ghost use Rattle.or_tree.specs.Plan.{Plan};

    ghost Value = { Plan };

    ghost view = { λ p. record { bank = p.bank; rows = p.rows; root = p.root } };

    ghost invariant = { λ p. (length p.rows ≤ 24) × (length p.root ≡ 32) };
}

/// The branches of a table.
///
/// # Errors
///
/// Want of memory.
pub fn build(alloc: Global, table: &Table) -> Result<OrPlan, Memory>
    requires { valid_table table.now ≡ true }
    ensures { IfOk result (λ plan. plan ≡ plan_of (plain_table table.now)) }
{
    let mut rows = List::new(alloc);
    let mut root = Digest::zeros(Bank::Sha256);
    for row in table.rows.as_slice() {
        let branches = Branches::of_row(alloc, table.bank, &root, row)?;
        root = branches.top();
        rows.push(branches)?;
    }
    Ok(OrPlan {
        bank: table.bank,
        rows,
        root,
    })
}

impl OrPlan {
    /// The row of this number.
    fn row(&self, row: u32) -> &Branches
        requires { row < length self.now.rows }
        ensures { slice_get self.now.rows row ≡ Some result.now }
    {
        &self.rows.as_slice()[row as usize]
    }

    /// The policy of the whole table, of 32 bytes.
    pub fn root(&self) -> Digest
        ensures value { result ≡ self.now.root }
        ensures size { length result ≡ 32 }
    {
        self.root
    }

    /// The number of rows.
    pub fn rows(&self) -> u32
        ensures value { result ≡ length self.now.rows }
        ensures few { result ≤ 24 }
    {
        self.rows.len() as u32
    }

    /// The bank of the table's values.
    pub fn bank(&self) -> Bank
        ensures { result ≡ self.now.bank }
    {
        self.bank
    }

    /// The mask of the row's PCRs.
    pub fn pcrs(&self, row: u32) -> u32
        requires { row < length self.now.rows }
        ensures { result ≡ pcrs_at self.now row }
    {
        self.row(row).pcrs()
    }

    /// The number of the row's first leaf that is the digest, or None where none is.
    pub fn leaf(&self, row: u32, digest: &Digest) -> Option<u32>
        requires { row < length self.now.rows }
        ensures inside { IfSome result (λ place. place < length (leaves_at self.now row)) }
        ensures value { result ≡ position (λ leaf. bytes_eq leaf digest.now) (leaves_at self.now row) }
    {
        match self.row(row).leaf(digest) {
            Some(place) => Some(place as u32),
            None => None,
        }
    }

    /// The number of the row's levels that PolicyORs join: 0 for one list of values, at most 3.
    pub fn levels(&self, row: u32) -> u32
        requires { row < length self.now.rows }
        ensures value { result ≡ joined_levels (leaves_at self.now row) }
        ensures few { result ≤ 3 }
    {
        self.row(row).joined_levels()
    }

    /// The group of a level, the leaves being level 0, that holds the place.
    pub fn group(&self, row: u32, level: u32, place: u32) -> Group
        requires row { row < length self.now.rows }
        requires level { level < 3 }
        requires place { place < length (level_at (leaves_at self.now row) level) }
        ensures { result ≡ group (level_at (leaves_at self.now row) level) (place / 8) }
    {
        self.row(row).group(level, place)
    }

    /// The lists of the PolicyORs from a leaf up to the top, at most three: the groups of two digests or more. The
    /// first holds the leaf, each other holds what the PolicyOR of the one before gives, and that of the last gives
    /// the row's top; where there is none, the leaf is the top.
    ///
    /// # Errors
    ///
    /// Want of memory.
    pub fn path(&self, alloc: Global, row: u32, leaf: u32) -> Result<List<Group>, Memory>
        requires row { row < length self.now.rows }
        requires leaf { leaf < length (leaves_at self.now row) }
        ensures value { IfOk result (λ path. path ≡ path_of (leaves_at self.now row) leaf) }
        ensures leads { IfOk result (λ path. Leads (slice_index_or (leaves_at self.now row) leaf []) path (top_of_leaves (leaves_at self.now row))) }
        ensures few { IfOk result (λ path. length path ≤ 3) }
    {
        self.row(row).path(alloc, leaf as usize)
    }
}
