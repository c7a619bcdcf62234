//! Which of the asked PCRs a policy can protect.
ghost use Rattle.std.specs.Prelude.{◌≡◌, ◌≢◌, true, ◌^◌, ◌≤◌, ◌<◌, [], ◌∷◌, map, length, slice_index_or, IfOk, OnOk};
ghost use Rattle.std.specs.List.{All};
ghost use Rattle.component_tree.specs.PlainTree.{plain};
ghost use Rattle.pcr_replay.specs.Row.{rows};
ghost use Rattle.pcr_replay.specs.Measured.{measured_in};
ghost use Rattle.policy_digest.specs.Mask.{mask_of, pcrs_of};
ghost use Rattle.policy_digest.specs.Table.{valid_table};
ghost use Rattle.predictor.specs.Cuts.{inside_of};
ghost use Rattle.predictor.specs.Foreseen.{foreseen, foreseen_joint};
ghost use Rattle.predictor.specs.Protected.{Answers, by_measured, standing_of, standing_in, refusal_for, replayed_with, refused_for, where_replayed, joint_rows, rows_of, kept_of, protected_each, protected_joint, protected_of};
ghost use Rattle.predictor.specs.Sorting.{TakesRow, TakesPcr, KeptAnswers};

use crate::error::{ForeseeError, ProtectError};
use crate::foreseeing::{components_inside, foresee, foresee_pcrs};
use crate::protection::{Cause, LeftOut, Protection};
use crate::window::Window;
use component_tree::{Component, Tree};
use hash_bank::{Bank, Digest};
use pcr_replay::{LogRecord, measured, replay};
use pl_base::{List, Memory};
use policy_digest::{Row, Table, Values, pcrs_in};
use record_match::{MatchError, explain};
use std::alloc::Global;

/// Why no choice of the components explains the PCR's digests in the log, if none does.
fn unexplained(
    alloc: Global,
    components: &[Component],
    pcr: u8,
    bank: Bank,
    log: &[LogRecord],
) -> Result<Option<Cause>, ProtectError>
    requires { length components.now ≤ 256 }
    ensures { Answers result (by_measured bank pcr (plain components.now) (measured_in bank pcr (rows log.now))) }
{
    let Some(list) = measured(alloc, log, pcr, bank)? else {
        return Ok(Some(Cause::NoLogDigest));
    };
    match explain(alloc, components, pcr, bank, list.as_slice()) {
        Ok(_) => Ok(None),
        Err(
            MatchError::NoDigest {
                component,
                variant,
                place,
            },
        ) => Err(ProtectError::NoDigest {
            component,
            variant,
            place,
        }),
        Err(MatchError::MissingComponent(component)) => Ok(Some(Cause::MissingComponent(
            component,
        ))),
        Err(MatchError::Unrecognised) => Ok(Some(Cause::Unrecognised)),
        Err(MatchError::Memory) => Err(ProtectError::Memory),
    }
}

/// Why the PCR, which holds the value now, is left out; nothing where it is protected.
#[tactic(auto, unfolding(crate::specs::Protected::standing_of))]
fn standing(
    alloc: Global,
    components: &[Component],
    pcr: u8,
    bank: Bank,
    log: &[LogRecord],
    locality: u8,
    now: &Digest,
) -> Result<Option<Cause>, ProtectError>
    requires few { length components.now ≤ 256 }
    requires in_range { pcr ≤ 23 }
    ensures { Answers result (standing_of bank locality (rows log.now) (plain components.now) now.now pcr) }
{
    let Some(replayed) = replay(log, pcr, bank, locality) else {
        return Ok(Some(Cause::NoLogDigest));
    };
    if !replayed.is_same(now) {
        return Ok(Some(Cause::ValueDiffers {
            replayed,
            now: *now,
        }));
    }
    unexplained(alloc, components, pcr, bank, log)
}

/// A refusal of what is foreseen of the PCR.
fn refused(pcr: u8, error: ForeseeError) -> ProtectError
    ensures { result ≡ refusal_for pcr error }
{
    match error {
        ForeseeError::NoDigest {
            component,
            variant,
            place,
        } => ProtectError::NoDigest {
            component,
            variant,
            place,
        },
        ForeseeError::TooMany(count) => ProtectError::TooMany { pcr, count },
        ForeseeError::Memory => ProtectError::Memory,
    }
}

/// The values that are foreseen of the PCR.
fn values_of(
    alloc: Global,
    tree: &Tree,
    window: &Window,
    pcr: u8,
    bank: Bank,
    locality: u8,
) -> Result<List<Digest>, ProtectError>
    requires { pcr ≤ 23 }
    ensures { Answers result (refused_for pcr (foreseen bank locality pcr window.now (plain tree.now.components))) }
{
    match foresee(alloc, tree, window, pcr, bank, locality) {
        Ok(values) => Ok(values),
        Err(error) => Err(refused(pcr, error)),
    }
}

/// Whether the PCR's replay is its value, by why it is left out.
fn is_replayed(cause: &Option<Cause>) -> bool
    ensures { result ≡ replayed_with cause.now }
{
    match cause {
        None => true,
        Some(Cause::NoLogDigest) => false,
        Some(Cause::ValueDiffers { .. }) => false,
        Some(Cause::MissingComponent(_)) => true,
        Some(Cause::Unrecognised) => true,
    }
}

/// Each value as a list of its own.
fn alone(alloc: Global, values: &[Digest]) -> Result<List<Values>, Memory>
    ensures { IfOk result (λ list. list ≡ map (λ v. v ∷ []) values.now) }
{
    let mut list = List::new(alloc);
    for value in values {
        let mut one = List::new(alloc);
        one.push(*value)?;
        match Values::from_vec(one.into_vec()) {
            Some(values) => list.push(values)?,
            None => unreachable!(),
        }
    }
    Ok(list)
}

/// Puts the PCR's row to the rows, or the cause to those left out.
fn take_row(
    alloc: Global,
    pcr: u8,
    cause: Option<Cause>,
    values: &[Digest],
    rows: &mut List<Row>,
    left: &mut List<LeftOut>,
) -> Result<(), Memory>
    requires { pcr ≤ 23 }
    ensures { OnOk result (TakesRow pcr cause values.now rows.old rows.new left.old left.new) }
{
    match cause {
        Some(cause) => left.push(LeftOut { pcr, cause }),
        None => {
            let choices = alone(alloc, values)?;
            rows.push(Row {
                pcrs: 1 << pcr,
                choices,
            })
        }
    }
}

/// Puts the PCR to those kept, or the cause to those left out.
fn take_pcr(
    pcr: u8,
    cause: Option<Cause>,
    kept: &mut List<u8>,
    left: &mut List<LeftOut>,
) -> Result<(), Memory>
    ensures { OnOk result (TakesPcr pcr cause kept.old kept.new left.old left.new) }
{
    match cause {
        Some(cause) => left.push(LeftOut { pcr, cause }),
        None => kept.push(pcr),
    }
}

/// The values that are foreseen of the PCR, where its replay is its value.
fn values_where(
    alloc: Global,
    tree: &Tree,
    window: &Window,
    pcr: u8,
    bank: Bank,
    locality: u8,
    cause: &Option<Cause>,
) -> Result<List<Digest>, ProtectError>
    requires { pcr ≤ 23 }
    ensures { Answers result (where_replayed cause.now (refused_for pcr (foreseen bank locality pcr window.now (plain tree.now.components)))) }
{
    if !is_replayed(cause) {
        return Ok(List::new(alloc));
    }
    values_of(alloc, tree, window, pcr, bank, locality)
}

/// A table with a row for each of the PCRs that is protected.
fn protect_each(
    alloc: Global,
    tree: &Tree,
    window: &Window,
    pcrs: &[u8],
    bank: Bank,
    log: &[LogRecord],
    locality: u8,
    now: &[Digest],
) -> Result<Protection, ProtectError>
    requires count { length now.now ≡ 24 }
    requires in_range { All (λ p. p ≤ 23) pcrs.now }
    ensures { Answers result (protected_each (plain tree.now.components) window.now pcrs.now bank (rows log.now) locality now.now) }
{
    let components = components_inside(tree, &window.end);
    let mut rows = List::new(alloc);
    let mut left = List::new(alloc);
    for pcr in pcrs {
        let held = &now[*pcr as usize];
        let cause = match standing(alloc, components, *pcr, bank, log, locality, held) {
            Ok(cause) => cause,
            Err(error) => return Err(error),
        };
        let values = match values_where(alloc, tree, window, *pcr, bank, locality, &cause) {
            Ok(values) => values,
            Err(error) => return Err(error),
        };
        take_row(alloc, *pcr, cause, values.as_slice(), &mut rows, &mut left)?;
    }
    Ok(Protection {
        table: Table { bank, rows },
        left,
    })
}

/// The protected ones of some PCRs, and the others.
#[derive(Debug, Drop)]
struct Kept {
    /// The protected ones.
    pcrs: List<u8>,
    /// The others, each with its cause.
    left: List<LeftOut>,
}

/// Which of the PCRs are protected.
fn keep(
    alloc: Global,
    tree: &Tree,
    window: &Window,
    pcrs: &[u8],
    bank: Bank,
    log: &[LogRecord],
    locality: u8,
    now: &[Digest],
) -> Result<Kept, ProtectError>
    requires count { length now.now ≡ 24 }
    requires in_range { All (λ p. p ≤ 23) pcrs.now }
    ensures value { KeptAnswers result (kept_of (standing_in (plain tree.now.components) window.now bank (rows log.now) locality now.now) pcrs.now) }
    ensures few { IfOk result (λ kept. length kept.pcrs ≤ length pcrs.now) }
    ensures in_range { IfOk result (λ kept. All (λ p. p ≤ 23) kept.pcrs) }
{
    let components = components_inside(tree, &window.end);
    let mut kept = List::new(alloc);
    let mut left = List::new(alloc);
    for pcr in pcrs {
        let held = &now[*pcr as usize];
        let cause = match standing(alloc, components, *pcr, bank, log, locality, held) {
            Ok(cause) => cause,
            Err(error) => return Err(error),
        };
        take_pcr(*pcr, cause, &mut kept, &mut left)?;
    }
    Ok(Kept { pcrs: kept, left })
}

/// The mask with these PCRs' bits.
fn mask_with(pcrs: &[u8]) -> u32
    requires { All (λ p. p ≤ 23) pcrs.now }
    ensures { result ≡ mask_of pcrs.now }
{
    let mut mask = 0u32;
    for pcr in pcrs {
        mask = mask | 1 << *pcr;
    }
    mask
}

/// One row for all of these PCRs, and none for no PCR.
fn joint_row(
    alloc: Global,
    tree: &Tree,
    window: &Window,
    pcrs: &[u8],
    bank: Bank,
    locality: u8,
) -> Result<List<Row>, ProtectError>
    requires few { length pcrs.now ≤ 24 }
    requires in_range { All (λ p. p ≤ 23) pcrs.now }
    ensures { Answers result (joint_rows (λ ps. foreseen_joint bank locality ps window.now (plain tree.now.components)) pcrs.now) }
{
    let mut rows = List::new(alloc);
    let Some(lowest) = pcrs.first() else {
        return Ok(rows);
    };
    match foresee_pcrs(alloc, tree, window, pcrs, bank, locality) {
        Ok(choices) => {
            rows.push(Row {
                pcrs: mask_with(pcrs),
                choices,
            })?;
            Ok(rows)
        }
        Err(error) => Err(refused(*lowest, error)),
    }
}

/// A table with one row for all of the PCRs that are protected.
#[tactic(auto, unfolding(crate::specs::Protected::protected_joint))]
fn protect_together(
    alloc: Global,
    tree: &Tree,
    window: &Window,
    pcrs: &[u8],
    bank: Bank,
    log: &[LogRecord],
    locality: u8,
    now: &[Digest],
) -> Result<Protection, ProtectError>
    requires count { length now.now ≡ 24 }
    requires few { length pcrs.now ≤ 24 }
    requires in_range { All (λ p. p ≤ 23) pcrs.now }
    ensures { Answers result (protected_joint (plain tree.now.components) window.now pcrs.now bank (rows log.now) locality now.now) }
{
    let Kept { pcrs, left } = match keep(alloc, tree, window, pcrs, bank, log, locality, now) {
        Ok(kept) => kept,
        Err(error) => return Err(error),
    };
    match joint_row(alloc, tree, window, pcrs.as_slice(), bank, locality) {
        Ok(rows) => Ok(Protection {
            table: Table { bank, rows },
            left,
        }),
        Err(error) => Err(error),
    }
}

/// The table that protects the asked PCRs, of which bit i of `asked` stands for PCR i, and why each
/// other asked one is left out. `now` has the present values of the 24 PCRs in the bank.
///
/// A PCR is protected where its records in the log all have the bank, their replay since a restart at
/// the locality is the value that it holds now, and some choice of the components inside the window's
/// end explains them. Each other one is left out for the first of the causes in their order. The table
/// has, with `joint`, one row for all protected PCRs with the states that `foresee_joint` gives, else a
/// row for each with the values that `foresee` gives; it has no row where no PCR is protected, and else
/// it is valid.
///
/// # Errors
///
/// Without `joint` those of the first asked PCR whose replay is its value and that has one: `NoDigest`
/// where a record of the PCR inside the window lacks the bank, else `TooMany` of `foresee`. With `joint`
/// `NoDigest` comes for the first such PCR that has it, and after that `TooMany` of `foresee_joint` over
/// the protected PCRs, which names the lowest of them. `Memory` may come at any step.
pub fn protect(
    alloc: Global,
    tree: &Tree,
    window: &Window,
    asked: u32,
    bank: Bank,
    log: &[LogRecord],
    locality: u8,
    now: &[Digest],
    joint: bool,
) -> Result<Protection, ProtectError>
    requires { length now.now ≡ 24 }
    ensures value { Answers result (protected_of joint (plain tree.now.components) window.now asked bank (rows log.now) locality now.now) }
    ensures valid { IfOk result (λ p. p.table.rows ≢ [] → valid_table p.table ≡ true) }
{
    let pcrs = pcrs_in(alloc, asked)?;
    let pcrs = pcrs.as_slice();
    if joint {
        protect_together(alloc, tree, window, pcrs, bank, log, locality, now)
    } else {
        protect_each(alloc, tree, window, pcrs, bank, log, locality, now)
    }
}
