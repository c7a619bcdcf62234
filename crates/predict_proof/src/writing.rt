//! Proof files as text.
ghost use Rattle.std.specs.Prelude.{◌≡◌, ◌++◌, flat_map, codes, Ok, IfOk, OnOk, string_bytes};
ghost use Rattle.std.specs.List.{All};
ghost use Rattle.std.specs.Fmt.{decimal};
ghost use Rattle.hex.specs.Hex.{encode_lower, IsBytes};
ghost use Rattle.policy_digest.specs.Mask.{pcrs_of};
ghost use Rattle.predict_proof.specs.ProofsIn.{proofs_in};
ghost use Rattle.predict_proof.specs.ReadsAs.{IsFile};
ghost use Rattle.predict_proof.specs.ProofText.{choice_text, file_text, head_text, line, numbers_text, proof_text, proofs_text, values_text};

use crate::file::ProofFile;
use crate::proof::Proof;
use hash_bank::{Bank, Digest};
use pl_base::{List, Memory};
use policy_digest::pcrs_in;
use std::alloc::Global;
use std::fmt::Write;

/// Writes further numbers, each behind a comma.
fn write_more_numbers(text: &mut String, numbers: &[u32]) -> Result<(), Memory>
    ensures { OnOk result (string_bytes text.new ≡ string_bytes text.old ++ flat_map (λ n. codes "," ++ decimal n) numbers.now) }
{
    for number in numbers {
        write!(text, ",{number}")?;
    }
    Ok(())
}

/// Writes numbers with commas between.
fn write_numbers(text: &mut String, numbers: &[u32]) -> Result<(), Memory>
    ensures { OnOk result (string_bytes text.new ≡ string_bytes text.old ++ numbers_text numbers.now) }
{
    let Some((first, others)) = numbers.split_first() else {
        return Ok(());
    };
    write!(text, "{first}")?;
    write_more_numbers(text, others)?;
    Ok(())
}

/// Writes further digests, each behind a comma.
fn write_more_values(text: &mut String, values: &[Digest]) -> Result<(), Memory>
    ensures { OnOk result (string_bytes text.new ≡ string_bytes text.old ++ flat_map (λ digest. codes "," ++ encode_lower digest) values.now) }
{
    for digest in values {
        write!(text, ",{digest}")?;
    }
    Ok(())
}

/// Writes digests with commas between.
fn write_values(text: &mut String, values: &[Digest]) -> Result<(), Memory>
    ensures { OnOk result (string_bytes text.new ≡ string_bytes text.old ++ values_text values.now) }
{
    let Some((first, others)) = values.split_first() else {
        return Ok(());
    };
    write!(text, "{first}")?;
    write_more_values(text, others)?;
    Ok(())
}

/// The same numbers in more room.
fn widened(alloc: Global, pcrs: &[u8]) -> Result<List<u32>, Memory>
    ensures { IfOk result (λ numbers. numbers ≡ pcrs.now) }
{
    let mut numbers = List::new(alloc);
    for pcr in pcrs {
        numbers.push(u32::from(*pcr))?;
    }
    Ok(numbers)
}

/// Writes the numbers of variants, or `-` for none.
fn write_choice(text: &mut String, choice: &[u32]) -> Result<(), Memory>
    ensures { OnOk result (string_bytes text.new ≡ string_bytes text.old ++ choice_text choice.now) }
{
    if choice.is_empty() {
        write!(text, "-")?;
        return Ok(());
    }
    write_numbers(text, choice)
}

/// Writes the words of a proof with spaces between, and a line feed.
fn write_words(alloc: Global, text: &mut String, proof: &Proof) -> Result<(), Memory>
    ensures { OnOk result (string_bytes text.new ≡ string_bytes text.old
        ++ (numbers_text (pcrs_of proof.now.pcrs) ++ codes " " ++ decimal proof.now.cut ++ codes " " ++ choice_text proof.now.choice ++ codes " " ++ values_text proof.now.values ++ codes "\n")) }
{
    let pcrs = pcrs_in(alloc, proof.pcrs)?;
    let numbers = widened(alloc, pcrs.as_slice())?;
    write_numbers(text, numbers.as_slice())?;
    let cut = proof.cut;
    write!(text, " {cut} ")?;
    write_choice(text, proof.choice.as_slice())?;
    write!(text, " ")?;
    write_values(text, proof.values.as_slice())?;
    writeln!(text, "")?;
    Ok(())
}

/// Writes the line of a proof.
fn write_proof(alloc: Global, text: &mut String, proof: &Proof) -> Result<(), Memory>
    ensures { OnOk result (string_bytes text.new ≡ string_bytes text.old ++ line (proof_text proof.now)) }
{
    write_words(alloc, text, proof)
}

/// Writes the lines of the proofs.
fn write_lines(alloc: Global, text: &mut String, proofs: &[Proof]) -> Result<(), Memory>
    ensures { OnOk result (string_bytes text.new ≡ string_bytes text.old ++ proofs_text proofs.now) }
{
    for proof in proofs {
        write_proof(alloc, text, proof)?;
    }
    Ok(())
}

/// Writes the first line.
#[tactic(auto, unfolding(crate::specs::ProofText::head_text))]
fn write_head(text: &mut String, bank: Bank, locality: u8) -> Result<(), Memory>
    ensures { OnOk result (string_bytes text.new ≡ string_bytes text.old ++ line (head_text bank locality)) }
{
    let bank = bank.name();
    writeln!(text, "pcrlock-proof 1 {bank} {locality}")?;
    Ok(())
}

/// What stands in a slice of bytes is below 256.
fn are_bytes(bytes: &[u8])
    ensures { IsBytes bytes.now }
{
    let _ = bytes;
}

/// The digests are lists of bytes.
fn values_are_bytes(values: &[Digest])
    ensures { All IsBytes values.now }
{
    for digest in values {
        are_bytes(digest.as_slice());
    }
}

/// The values of the proofs are lists of bytes.
fn proofs_are_bytes(proofs: &[Proof])
    ensures { All (λ q. All IsBytes q.values) proofs.now }
{
    for proof in proofs {
        values_are_bytes(proof.values.as_slice());
    }
}

/// The file's text: lines that each end in a line feed, the first `pcrlock-proof 1 BANK LOCALITY`, and one
/// for each proof, of four words with single spaces between. The words are the PCRs, ascending; the cut;
/// the numbers of the chosen variants, or `-` for none; and the values in lower-case hexadecimal digits.
/// Commas part a list, and numbers are decimal without sign and leading zero.
pub fn write_proofs(alloc: Global, file: &ProofFile) -> Result<Vec<u8>, Memory>
    ensures text { IfOk result (λ text. text.items ≡ file_text file.now) }
    ensures reads_back { IfOk result (λ text. IsFile file.now → proofs_in text.items ≡ Ok file.now) }
    // What any file keeps, told here for what its text is read as.
    ensures bytes { All (λ q. All IsBytes q.values) file.now.proofs }
{
    proofs_are_bytes(file.proofs.as_slice());
    let mut text = String::new(alloc);
    write_head(&mut text, file.bank, file.locality)?;
    write_lines(alloc, &mut text, file.proofs.as_slice())?;
    Ok(text.into_bytes())
}
