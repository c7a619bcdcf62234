//! A walk over the rows of a table.
ghost use Rattle.std.specs.Prelude.{◌≡◌, ◌<◌, ◌≤◌, true, length};
ghost use Rattle.or_tree.specs.Plan.{leaves_at};
ghost use Rattle.tpm_model.specs.Fits.{fits};
ghost use Rattle.policy_walk.specs.Paths.{group_in, path_from};
ghost use Rattle.policy_walk.specs.Walking.{behind_digest as behind_digest_of, behind_list as behind_list_of, behind_row as behind_row_of, stopped_for, walk_command, walked_by, why_walked as why_walked_of, with_lists as with_lists_of};
ghost use Rattle.tpm_model.specs.declared.response.Response.TheVariants as answer;

use crate::branch::{group_at, next_level};
use crate::ending::Branched;
use crate::stopped::Stopped;
use crate::walk::Walk;
use crate::why::Why;
use hash_bank::Digest;
use or_tree::OrPlan;
use std::marker::Model;
use tpm_model::{Command, Refusal, Response};

/// Where a walk stands at a row.
#[derive(Clone, Copy, Debug, PartialEq, Eq)]
pub(crate) enum At {
    /// Before PolicyPCR.
    Pcr,
    /// Before PolicyGetDigest.
    Digest,
    /// Before the PolicyOR of a leaf's group in a level.
    Or { leaf: u32, level: u32 },
}

/// A walk that was started and has rows before it. Contracts see its table with the branches, its index, its
/// session, and its place.
#[derive(Debug, Drop)]
pub struct Started {
    pub(crate) plan: OrPlan,
    pub(crate) index: u32,
    pub(crate) session: u32,
    pub(crate) row: u32,
    pub(crate) at: At,
}

impl Model for Started {
    ghost use Rattle.std.specs.Prelude.{◌<◌, length};
    ghost use Rattle.or_tree.specs.Plan.{leaves_at};
    ghost use Rattle.policy_walk.specs.Places.{Place};
    ghost use Rattle.policy_walk.specs.States.{IsAt, step_of};

    ghost Value = { Place };

    ghost view = { λ s. record {
      plan = s.plan;
      index = s.index;
      session = s.session;
      row = s.row;
      step = step_of (leaves_at s.plan s.row) s.at;
    } };

    ghost invariant = { λ s. (s.row < length s.plan.rows) × IsAt (leaves_at s.plan s.row) s.at };
}

/// Why a walk stops by a refusal of one of its commands on rows.
fn why_walked(session: u32, refusal: &Refusal) -> Why
    ensures { result ≡ why_walked_of session refusal.now }
{
    match refusal {
        Refusal::PcrChanged { noted, now } => Why::PcrChanged {
            noted: *noted,
            now: *now,
        },
        Refusal::BankAbsent(bank) => Why::BankAbsent(*bank),
        Refusal::Value => Why::Interfered,
        Refusal::TrailFull => Why::Interfered,
        _ => Why::SessionGone(session),
    }
}

/// The end of a session by a refusal.
fn stopped(session: u32, refusal: &Refusal) -> Stopped
    ensures { result ≡ stopped_for session (why_walked_of session refusal.now) }
{
    Stopped {
        session,
        why: Some(why_walked(session, refusal)),
    }
}

impl Started {
    /// The next command: PolicyPCR of the row's PCRs, PolicyGetDigest, or the next PolicyOR.
    pub fn command(&self) -> Command
        ensures { result ≡ walk_command self.now }
    {
        match self.at {
            At::Pcr => Command::PolicyPcr {
                session: self.session,
                bank: self.plan.bank(),
                pcrs: self.plan.pcrs(self.row),
            },
            At::Digest => Command::PolicyGetDigest {
                session: self.session,
            },
            At::Or { leaf, level } => Command::PolicyOr {
                session: self.session,
                list: group_at(&self.plan, self.row, leaf, level),
            },
        }
    }

    /// Behind the last command of a row.
    fn behind_row(self) -> Walk
        ensures { result ≡ behind_row_of self.plan self.index self.session self.row }
    {
        let next = self.row + 1;
        if next < self.plan.rows() {
            Walk::Started(Started {
                plan: self.plan,
                index: self.index,
                session: self.session,
                row: next,
                at: At::Pcr,
            })
        } else {
            Walk::Branched(Branched {
                plan: self.plan,
                index: self.index,
                session: self.session,
            })
        }
    }

    /// Before the PolicyORs of a leaf from a level on.
    fn with_lists(self, leaf: u32, from: u32) -> Walk
        requires leaf { leaf < length (leaves_at self.plan self.row) }
        requires from { from ≤ 3 }
        ensures { result ≡ with_lists_of self.plan self.index self.session self.row (path_from (leaves_at self.plan self.row) leaf from) }
    {
        match next_level(&self.plan, self.row, leaf, from) {
            Some(level) => Walk::Started(Started {
                plan: self.plan,
                index: self.index,
                session: self.session,
                row: self.row,
                at: At::Or { leaf, level },
            }),
            None => self.behind_row(),
        }
    }

    /// Behind the PolicyOR of a leaf's group in a level.
    #[tactic(auto, using(crate::proofs::Branches::behind_first))]
    fn behind_list(self, leaf: u32, level: u32) -> Walk
        requires leaf { leaf < length (leaves_at self.plan self.row) }
        requires level { level < 3 }
        requires several { 1 < length (group_in (leaves_at self.plan self.row) leaf level) }
        ensures { result ≡ with_lists_of self.plan self.index self.session self.row (behind_list_of (path_from (leaves_at self.plan self.row) leaf level)) }
    {
        self.with_lists(leaf, level + 1)
    }

    /// Behind PolicyGetDigest.
    fn behind_digest(self, digest: &Digest) -> Result<Walk, Stopped>
        ensures { result ≡ behind_digest_of self.plan self.index self.session self.row (answer.PolicyDigest digest.now) }
    {
        match self.plan.leaf(self.row, digest) {
            Some(leaf) => Ok(self.with_lists(leaf, 0)),
            None => Err(Stopped {
                session: self.session,
                why: Some(Why::NotForeseen(self.plan.pcrs(self.row))),
            }),
        }
    }

    /// Spends the state with the answer to its command.
    ///
    /// # Errors
    ///
    /// The session that is to be flushed, where the command was refused, or no leaf of the row is the session's
    /// digest.
    pub fn take(self, response: &Response) -> Result<Walk, Stopped>
        requires { fits (walk_command self) response.now ≡ true }
        ensures { result ≡ walked_by self response.now }
    {
        match self.at {
            At::Pcr => match response {
                Response::Refused(refusal) => Err(stopped(self.session, refusal)),
                _ => Ok(Walk::Started(Started {
                    plan: self.plan,
                    index: self.index,
                    session: self.session,
                    row: self.row,
                    at: At::Digest,
                })),
            },
            At::Digest => match response {
                Response::PolicyDigest(digest) => self.behind_digest(digest),
                Response::Refused(refusal) => Err(stopped(self.session, refusal)),
                _ => unreachable!(),
            },
            At::Or { leaf, level } => match response {
                Response::Refused(refusal) => Err(stopped(self.session, refusal)),
                _ => Ok(self.behind_list(leaf, level)),
            },
        }
    }
}
