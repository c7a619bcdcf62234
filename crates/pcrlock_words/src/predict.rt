//! The lines of `predict`.

ghost use Rattle.std.specs.Prelude.{◌≡◌, ◌≤◌, ◌==◌, ◌++◌, filter, flat_map, map, codes, IfOk, OnOk, string_bytes};
ghost use Rattle.std.specs.Fmt.{decimal};
ghost use Rattle.hex.specs.Hex.{encode_lower};
ghost use Rattle.component_tree.specs.PlainTree.{plain};
ghost use Rattle.policy_digest.specs.Mask.{has_pcr, pcrs_of};
ghost use Rattle.pl_text.specs.Texts.{mask_text, with_commas};
ghost use Rattle.pcrlock_words.specs.PredictText.{each_text, joint_text, left_text, one_pcr_text, predict_text, together_text, value_text, values_text};

use crate::log::component_id;
use component_tree::Tree;
use hash_bank::Digest;
use pl_base::Memory;
use pl_text::write_numbers;
use policy_digest::{Row, Values, is_in_mask, pcrs_in};
use predictor::{Cause, LeftOut, Protection};
use std::alloc::Global;
use std::fmt::Write;

/// The lines of `predict` for a protection of a tree's components.
///
/// Without `joint` each asked PCR has, ascending, a line for each value of its row, or one that says why it
/// is left out: `no-digest`, `value-differs`, `missing` with a component's id, or `unrecognised`. With
/// `joint` there is a line for each list of values that the protected PCRs have together, and then one for
/// each PCR that is left out.
#[tactic(auto, unfolding(crate::specs::PredictText::predict_text))]
pub fn predict_text(
    alloc: Global,
    protection: &Protection,
    tree: &Tree,
    joint: bool,
) -> Result<Vec<u8>, Memory>
    ensures { IfOk result (λ text. text.items ≡ predict_text protection.now (plain tree.now.components) joint) }
{
    let mut text = String::new(alloc);
    if joint {
        write_joint(alloc, &mut text, protection, tree)?;
    } else {
        write_each(&mut text, protection, tree)?;
    }
    Ok(text.into_bytes())
}

// Writes further digests, each behind a comma.
fn write_more(text: &mut String, digests: &[Digest]) -> Result<(), Memory>
    ensures { OnOk result (string_bytes text.new ≡ string_bytes text.old ++ flat_map (λ digest. codes "," ++ encode_lower digest) digests.now) }
{
    for digest in digests {
        write!(text, ",{digest}")?;
    }
    Ok(())
}

// Writes digests with commas between.
fn write_values(text: &mut String, digests: &[Digest]) -> Result<(), Memory>
    ensures { OnOk result (string_bytes text.new ≡ string_bytes text.old ++ values_text digests.now) }
{
    let Some((first, others)) = digests.split_first() else {
        return Ok(());
    };
    write!(text, "{first}")?;
    write_more(text, others)?;
    Ok(())
}

// Writes the line of a PCR that is left out.
fn write_left(text: &mut String, left: &LeftOut, tree: &Tree) -> Result<(), Memory>
    ensures { OnOk result (string_bytes text.new ≡ string_bytes text.old ++ left_text (plain tree.now.components) left.now) }
{
    let pcr = left.pcr;
    match &left.cause {
        Cause::NoLogDigest => writeln!(text, "{pcr} - no-digest")?,
        Cause::ValueDiffers { .. } => writeln!(text, "{pcr} - value-differs")?,
        Cause::MissingComponent(number) => {
            let id = component_id(tree, *number);
            writeln!(text, "{pcr} - missing {id}")?
        }
        Cause::Unrecognised => writeln!(text, "{pcr} - unrecognised")?,
    }
    Ok(())
}

// Writes the line of one value of a PCR.
fn write_value(text: &mut String, pcr: u8, values: &[Digest]) -> Result<(), Memory>
    ensures { OnOk result (string_bytes text.new ≡ string_bytes text.old ++ value_text pcr values.now) }
{
    write!(text, "{pcr} ")?;
    write_values(text, values)?;
    writeln!(text, "")?;
    Ok(())
}

// Writes the lines of a PCR's values.
fn write_choices(text: &mut String, pcr: u8, choices: &[Values]) -> Result<(), Memory>
    ensures { OnOk result (string_bytes text.new ≡ string_bytes text.old ++ flat_map (value_text pcr) choices.now) }
{
    for values in choices {
        write_value(text, pcr, values.as_slice())?;
    }
    Ok(())
}

// Writes the lines of the PCR's values in its row.
fn write_rows_of(text: &mut String, pcr: u8, rows: &[Row]) -> Result<(), Memory>
    requires { pcr ≤ 23 }
    ensures { OnOk result (string_bytes text.new ≡ string_bytes text.old ++ flat_map (λ row. flat_map (value_text pcr) row.choices) (filter (λ row. has_pcr row.pcrs pcr) rows.now)) }
{
    for row in rows {
        if is_in_mask(row.pcrs, pcr) {
            write_choices(text, pcr, row.choices.as_slice())?;
        }
    }
    Ok(())
}

// Writes why the PCR is left out, where it is.
pub(crate) fn write_left_of(
    text: &mut String,
    pcr: u8,
    left: &[LeftOut],
    tree: &Tree,
) -> Result<(), Memory>
    ensures { OnOk result (string_bytes text.new ≡ string_bytes text.old ++ flat_map (left_text (plain tree.now.components)) (filter (λ left. left.pcr == pcr) left.now)) }
{
    for one in left {
        if one.pcr == pcr {
            write_left(text, one, tree)?;
        }
    }
    Ok(())
}

// Writes the lines of the PCR.
fn write_pcr(text: &mut String, pcr: u8, protection: &Protection, tree: &Tree) -> Result<(), Memory>
    requires { pcr ≤ 23 }
    ensures { OnOk result (string_bytes text.new ≡ string_bytes text.old ++ one_pcr_text protection.now (plain tree.now.components) pcr) }
{
    write_rows_of(text, pcr, protection.table.rows.as_slice())?;
    write_left_of(text, pcr, protection.left.as_slice(), tree)?;
    Ok(())
}

// Writes the lines of each PCR for itself.
fn write_each(text: &mut String, protection: &Protection, tree: &Tree) -> Result<(), Memory>
    ensures { OnOk result (string_bytes text.new ≡ string_bytes text.old ++ each_text protection.now (plain tree.now.components)) }
{
    for pcr in 0..24u8 {
        write_pcr(text, pcr, protection, tree)?;
    }
    Ok(())
}

// Writes the line of one list of values that some PCRs have together.
fn write_together(text: &mut String, pcrs: &[u8], values: &[Digest]) -> Result<(), Memory>
    ensures { OnOk result (string_bytes text.new ≡ string_bytes text.old ++ (codes "joint " ++ with_commas (map decimal pcrs.now) ++ codes " " ++ values_text values.now ++ codes "\n")) }
{
    write!(text, "joint ")?;
    write_numbers(text, pcrs)?;
    write!(text, " ")?;
    write_values(text, values)?;
    writeln!(text, "")?;
    Ok(())
}

// Writes the lines of a row.
fn write_row(alloc: Global, text: &mut String, row: &Row) -> Result<(), Memory>
    ensures { OnOk result (string_bytes text.new ≡ string_bytes text.old ++ flat_map (together_text row.now.pcrs) row.now.choices) }
{
    let pcrs = pcrs_in(alloc, row.pcrs)?;
    for values in row.choices.as_slice() {
        write_together(text, pcrs.as_slice(), values.as_slice())?;
    }
    Ok(())
}

// Writes the lines of the rows.
fn write_rows(alloc: Global, text: &mut String, rows: &[Row]) -> Result<(), Memory>
    ensures { OnOk result (string_bytes text.new ≡ string_bytes text.old ++ flat_map (λ row. flat_map (together_text row.pcrs) row.choices) rows.now) }
{
    for row in rows {
        write_row(alloc, text, row)?;
    }
    Ok(())
}

// Writes why each of these PCRs is left out.
pub(crate) fn write_all_left(text: &mut String, left: &[LeftOut], tree: &Tree) -> Result<(), Memory>
    ensures { OnOk result (string_bytes text.new ≡ string_bytes text.old ++ flat_map (left_text (plain tree.now.components)) left.now) }
{
    for one in left {
        write_left(text, one, tree)?;
    }
    Ok(())
}

// Writes the lines of the protected PCRs together, and why each other one is left out.
fn write_joint(
    alloc: Global,
    text: &mut String,
    protection: &Protection,
    tree: &Tree,
) -> Result<(), Memory>
    ensures { OnOk result (string_bytes text.new ≡ string_bytes text.old ++ joint_text protection.now (plain tree.now.components)) }
{
    write_rows(alloc, text, protection.table.rows.as_slice())?;
    write_all_left(text, protection.left.as_slice(), tree)?;
    Ok(())
}
