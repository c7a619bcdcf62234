//! A walk that is prepared, before its session is started.
ghost use Rattle.std.specs.Prelude.{◌≡◌, ◌≤◌, true, [], ◌∷◌, length, map, IfOk};
ghost use Rattle.std.specs.List.{AllByRecursion};
ghost use Rattle.std.specs.Str.{bytes_eq};
ghost use Rattle.hash_bank.specs.declared.bank.Bank.TheVariants.{Sha256};
ghost use Rattle.or_tree.specs.Plan.{plan_of};
ghost use Rattle.policy_digest.specs.declared.table.Table.{Table as TableValue};
ghost use Rattle.policy_digest.specs.Plain.{plain_table};
ghost use Rattle.policy_digest.specs.Table.{valid_table};
ghost use Rattle.tpm_model.specs.declared.command.Command.TheVariants as command;
ghost use Rattle.tpm_model.specs.Fits.{fits};
ghost use Rattle.policy_walk.specs.declared.prepared.PrepareError.TheVariants.{Memory as NoMemory};
ghost use Rattle.policy_walk.specs.Choosing.{Answers, content_of, prepared_of};
ghost use Rattle.policy_walk.specs.Walking.{started_by};

use crate::started::{At, Started};
use crate::why::StartRefusal;
use hash_bank::{Bank, Digest};
use or_tree::{OrPlan, build};
use pl_base::{Memory, Small};
use policy_digest::Table;
use std::alloc::Global;
use std::marker::Model;
use tpm_model::{Command, Refusal, Response};

/// Why no walk was prepared.
#[derive(Clone, Copy, Debug)]
pub enum PrepareError {
    /// The index holds the root of none of the tables.
    Outdated {
        /// What it holds.
        content: Small,
        /// The root of the newest table.
        newest: Digest,
    },
    /// Memory ran out.
    Memory,
}

impl From<Memory> for PrepareError {
    ghost from_gives = { λ _ error. error ≡ NoMemory };

    fn from(_memory: Memory) -> PrepareError {
        PrepareError::Memory
    }
}

/// A walk by a table, for which no session was started. Contracts see the table with its branches, and the index.
#[derive(Debug, Drop)]
pub struct Prepared {
    plan: OrPlan,
    index: u32,
}

impl Model for Prepared {
    ghost use Rattle.std.specs.Prelude.{◌≤◌, length};
    ghost use Rattle.policy_walk.specs.Places.{Ready};

    ghost Value = { Ready };

    ghost view = { λ p. record { plan = p.plan; index = p.index } };

    ghost invariant = { λ p. 1 ≤ length p.plan.rows };
}

/// Whether the content is that of an index that holds the root.
fn is_in_force(content: &Small, root: &Digest) -> bool
    ensures { result ≡ bytes_eq content.now (content_of root.now) }
{
    match content.as_slice() {
        [0x00, 0x0b, held @ ..] => held == root.as_slice(),
        _ => false,
    }
}

/// The branches of a valid table.
#[tactic(auto, using(crate::proofs::Plans::some_rows))]
fn branches(alloc: Global, table: &Table) -> Result<OrPlan, Memory>
    requires { valid_table table.now ≡ true }
    ensures value { IfOk result (λ plan. plan ≡ plan_of (plain_table table.now)) }
    ensures some { IfOk result (λ plan. 1 ≤ length plan.rows) }
{
    build(alloc, table)
}

/// Prepares a walk by the last of one or two valid tables whose root, behind the bytes 00 0B, is the content of the
/// index. All that the walk needs is reserved here: the states that follow take no memory.
///
/// # Errors
///
/// `Outdated` where the content is that of none of the tables, or want of memory.
pub fn prepare(
    alloc: Global,
    tables: &[Table],
    index: u32,
    content: &Small,
) -> Result<Prepared, PrepareError>
    requires some { 1 ≤ length tables.now }
    requires few { length tables.now ≤ 2 }
    requires valid { AllByRecursion (λ (t : TableValue). valid_table t ≡ true) tables.now }
    ensures { Answers result (prepared_of index content.now (map plain_table tables.now)) }
{
    match tables {
        [only] => prepare_by_one(alloc, only, index, content),
        [older, newest] => prepare_by_two(alloc, older, newest, index, content),
        _ => unreachable!(),
    }
}

/// The same for one table.
fn prepare_by_one(
    alloc: Global,
    only: &Table,
    index: u32,
    content: &Small,
) -> Result<Prepared, PrepareError>
    requires { valid_table only.now ≡ true }
    ensures { Answers result (prepared_of index content.now (plain_table only.now ∷ [])) }
{
    let plan = branches(alloc, only)?;
    let newest = plan.root();
    if is_in_force(content, &newest) {
        return Ok(Prepared { plan, index });
    }
    Err(PrepareError::Outdated {
        content: *content,
        newest,
    })
}

/// The same for two tables.
fn prepare_by_two(
    alloc: Global,
    older: &Table,
    newest: &Table,
    index: u32,
    content: &Small,
) -> Result<Prepared, PrepareError>
    requires older { valid_table older.now ≡ true }
    requires newest { valid_table newest.now ≡ true }
    ensures { Answers result (prepared_of index content.now (plain_table older.now ∷ plain_table newest.now ∷ [])) }
{
    let plan = branches(alloc, newest)?;
    let newest = plan.root();
    if is_in_force(content, &newest) {
        return Ok(Prepared { plan, index });
    }
    let plan = branches(alloc, older)?;
    if is_in_force(content, &plan.root()) {
        return Ok(Prepared { plan, index });
    }
    Err(PrepareError::Outdated {
        content: *content,
        newest,
    })
}

impl Prepared {
    /// The bank of the table's values.
    pub fn bank(&self) -> Bank
        ensures { result ≡ self.now.plan.bank }
    {
        self.plan.bank()
    }

    /// StartAuthSession with SHA-256.
    pub fn command(&self) -> Command
        ensures { result ≡ command.StartSession Sha256 }
    {
        Command::StartSession { hash: Bank::Sha256 }
    }

    /// Spends the state with the answer to its command.
    ///
    /// # Errors
    ///
    /// No session was started.
    pub fn take(self, response: &Response) -> Result<Started, StartRefusal>
        requires { fits (command.StartSession Sha256) response.now ≡ true }
        ensures { result ≡ started_by self response.now }
    {
        match response {
            Response::Session(session) => Ok(Started {
                plan: self.plan,
                index: self.index,
                session: *session,
                row: 0,
                at: At::Pcr,
            }),
            Response::Refused(Refusal::HandlesEnd) => Err(StartRefusal::HandlesEnd),
            _ => Err(StartRefusal::SessionsFull),
        }
    }
}
