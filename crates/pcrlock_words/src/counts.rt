//! The lines of `make-policy`: how many values are foreseen.

ghost use Rattle.std.specs.Prelude.{◌≡◌, ◌≤◌, ◌++◌, filter, flat_map, codes, length, IfOk, OnOk, string_bytes};
ghost use Rattle.std.specs.Fmt.{decimal};
ghost use Rattle.component_tree.specs.PlainTree.{plain};
ghost use Rattle.policy_digest.specs.Mask.{has_pcr};
ghost use Rattle.pcrlock_words.specs.PredictText.{count_text, counts_text as text_of, each_count, joint_counts, one_pcr_count, together_count};

use crate::predict::{write_all_left, write_left_of};
use component_tree::Tree;
use pl_base::Memory;
use pl_text::write_numbers;
use policy_digest::{Row, is_in_mask, pcrs_in};
use predictor::Protection;
use std::alloc::Global;
use std::fmt::Write;

/// The lines of `make-policy` for a protection of a tree's components.
///
/// Without `joint` each asked PCR has, ascending, a line with the number of its values, or one that says why it is
/// left out, as [`predict_text`](crate::predict_text) does. With `joint` there is a line with the number of the lists
/// of values that the protected PCRs have together, and then one for each PCR that is left out.
#[tactic(auto, unfolding(crate::specs::PredictText::counts_text))]
pub fn counts_text(
    alloc: Global,
    protection: &Protection,
    tree: &Tree,
    joint: bool,
) -> Result<Vec<u8>, Memory>
    ensures { IfOk result (λ text. text.items ≡ text_of protection.now (plain tree.now.components) joint) }
{
    let mut text = String::new(alloc);
    if joint {
        write_joint_counts(alloc, &mut text, protection, tree)?;
    } else {
        write_each_count(&mut text, protection, tree)?;
    }
    Ok(text.into_bytes())
}

// Writes how many values a PCR has in a row.
fn write_count(text: &mut String, pcr: u8, row: &Row) -> Result<(), Memory>
    ensures { OnOk result (string_bytes text.new ≡ string_bytes text.old ++ count_text pcr row.now) }
{
    let count = row.choices.len();
    writeln!(text, "{pcr} {count}")?;
    Ok(())
}

// Writes how many values the PCR has in its row.
fn write_counts_of(text: &mut String, pcr: u8, rows: &[Row]) -> Result<(), Memory>
    requires { pcr ≤ 23 }
    ensures { OnOk result (string_bytes text.new ≡ string_bytes text.old ++ flat_map (count_text pcr) (filter (λ row. has_pcr row.pcrs pcr) rows.now)) }
{
    for row in rows {
        if is_in_mask(row.pcrs, pcr) {
            write_count(text, pcr, row)?;
        }
    }
    Ok(())
}

// Writes the line of the PCR.
fn write_pcr_count(
    text: &mut String,
    pcr: u8,
    protection: &Protection,
    tree: &Tree,
) -> Result<(), Memory>
    requires { pcr ≤ 23 }
    ensures { OnOk result (string_bytes text.new ≡ string_bytes text.old ++ one_pcr_count protection.now (plain tree.now.components) pcr) }
{
    write_counts_of(text, pcr, protection.table.rows.as_slice())?;
    write_left_of(text, pcr, protection.left.as_slice(), tree)?;
    Ok(())
}

// Writes the line of each PCR for itself.
fn write_each_count(text: &mut String, protection: &Protection, tree: &Tree) -> Result<(), Memory>
    ensures { OnOk result (string_bytes text.new ≡ string_bytes text.old ++ each_count protection.now (plain tree.now.components)) }
{
    for pcr in 0..24u8 {
        write_pcr_count(text, pcr, protection, tree)?;
    }
    Ok(())
}

// Writes how many lists of values the PCRs of a row have together.
fn write_together_count(alloc: Global, text: &mut String, row: &Row) -> Result<(), Memory>
    ensures { OnOk result (string_bytes text.new ≡ string_bytes text.old ++ together_count row.now) }
{
    let pcrs = pcrs_in(alloc, row.pcrs)?;
    let count = row.choices.len();
    write!(text, "joint ")?;
    write_numbers(text, pcrs.as_slice())?;
    writeln!(text, " {count}")?;
    Ok(())
}

// Writes the lines of the rows.
fn write_together_counts(alloc: Global, text: &mut String, rows: &[Row]) -> Result<(), Memory>
    ensures { OnOk result (string_bytes text.new ≡ string_bytes text.old ++ flat_map together_count rows.now) }
{
    for row in rows {
        write_together_count(alloc, text, row)?;
    }
    Ok(())
}

// Writes the lines of the protected PCRs together, and why each other one is left out.
fn write_joint_counts(
    alloc: Global,
    text: &mut String,
    protection: &Protection,
    tree: &Tree,
) -> Result<(), Memory>
    ensures { OnOk result (string_bytes text.new ≡ string_bytes text.old ++ joint_counts protection.now (plain tree.now.components)) }
{
    write_together_counts(alloc, text, protection.table.rows.as_slice())?;
    write_all_left(text, protection.left.as_slice(), tree)?;
    Ok(())
}
