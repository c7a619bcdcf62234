//! Proof files, read.
ghost use Rattle.std.specs.Prelude.{◌≡◌, ◌⊎◌, ◌≤◌, ◌∷◌, length, IfOk, MatchOption, Ok, Err};
ghost use Rattle.std.specs.List.{All};
ghost use Rattle.predict_proof.specs.declared.error.ProofError.TheVariants as errors;
ghost use Rattle.predict_proof.specs.declared.file.ProofFile.{ProofFile as File};
ghost use Rattle.predict_proof.specs.Proved.{HasShape};
ghost use Rattle.predict_proof.specs.ProofText.{file_text};
ghost use Rattle.predict_proof.specs.ReadsAs.{IsFile, ReadsAs, ReadsLines};
ghost use Rattle.predict_proof.specs.ProofsIn.{proofs_from, proofs_in, AnswersText};
ghost use Rattle.pl_text.specs.Parts.{parts_of};
ghost use Rattle.predict_proof.specs.Words.{head_of, proof_by, proof_of};

use crate::error::ProofError;
use crate::file::ProofFile;
use crate::proof::Proof;
use crate::values::{is_locality, read_choice, read_pcrs, read_values};
use hash_bank::{Bank, Digest};
use pl_base::{List, Memory};
use pl_text::{four_parts, read_bank, read_number};
use policy_digest::{Values, pcr_count};
use std::alloc::Global;

/// The most proofs of a file.
const LIMIT: u32 = 12_288;

/// The greatest cut.
const LAST_CUT: u32 = 256;

/// The greatest locality.
const LAST_LOCALITY: u32 = 4;

/// The bank and the locality that the first line tells.
#[tactic(auto, unfolding(crate::specs::Words::head_of))]
fn read_head(line: &[u8]) -> Option<(Bank, u8)>
    ensures { result ≡ head_of line.now }
{
    let (name, version, bank, locality) = four_parts(Some(line), b' ')?;
    if name != b"pcrlock-proof".as_slice() || version != b"1".as_slice() {
        return None;
    }
    let bank = read_bank(bank)?;
    let locality = read_number(locality, LAST_LOCALITY)?;
    if is_locality(locality) {
        Some((bank, locality as u8))
    } else {
        None
    }
}

/// The proof of these parts, where there is a value for each PCR.
fn proof_of_parts(pcrs: u32, cut: u32, choice: List<u32>, values: List<Digest>) -> Option<Proof>
    ensures { result ≡ proof_by pcrs cut choice values }
{
    if values.is_empty() || values.len() != pcr_count(pcrs) {
        return None;
    }
    match Values::from_vec(values.into_vec()) {
        Some(values) => Some(Proof {
            pcrs,
            cut,
            choice,
            values,
        }),
        None => None,
    }
}

/// The proof that a line spells.
#[tactic(auto, unfolding(crate::specs::Words::proof_of))]
fn read_proof(alloc: Global, bank: Bank, line: &[u8]) -> Result<Option<Proof>, Memory>
    ensures { IfOk result (λ proof. proof ≡ proof_of bank line.now) }
{
    let Some((pcrs, cut, choice, values)) = four_parts(Some(line), b' ') else {
        return Ok(None);
    };
    let Some(pcrs) = read_pcrs(pcrs) else {
        return Ok(None);
    };
    let Some(cut) = read_number(cut, LAST_CUT) else {
        return Ok(None);
    };
    let Some(choice) = read_choice(alloc, choice)? else {
        return Ok(None);
    };
    let Some(values) = read_values(alloc, bank, values)? else {
        return Ok(None);
    };
    Ok(proof_of_parts(pcrs, cut, choice, values))
}

/// The first line of a text, without its line feed, and the text behind it; nothing where no line feed
/// stands in the text.
fn next_line(text: &[u8]) -> Option<(&[u8], &[u8])>
    ensures { MatchOption result (length (parts_of 10 text.now) ≡ 1) (λ at. parts_of 10 text.now ≡ at.0.now ∷ parts_of 10 at.1.now) }
{
    let (line, behind) = pl_text::cut(text, b'\n');
    match behind {
        Some(behind) => Some((line, behind)),
        None => None,
    }
}

/// The proofs of the lines behind the first one.
fn read_lines(alloc: Global, bank: Bank, text: &[u8]) -> Result<List<Proof>, ProofError>
    ensures reads { ReadsLines bank text.now result }
    ensures answer { AnswersText result (proofs_from bank 0 (parts_of 10 text.now)) }
{
    let mut proofs = List::new(alloc);
    let mut rest = text;
    for place in 0..LIMIT {
        if rest.is_empty() {
            return Ok(proofs);
        }
        let Some((line, behind)) = next_line(rest) else {
            return Err(ProofError::BadLine(place + 1));
        };
        let Some(proof) = read_proof(alloc, bank, line)? else {
            return Err(ProofError::BadLine(place + 1));
        };
        proofs.push(proof)?;
        rest = behind;
    }
    if rest.is_empty() {
        Ok(proofs)
    } else {
        Err(ProofError::TooMany)
    }
}

/// The file that a text spells, as `write_proofs` has it. The last line needs its line feed, hexadecimal
/// digits are of lower case alone, and numbers have no sign and no leading zero: so each file has one
/// spelling. The locality is 0, 3 or 4, a cut at most 256, the number of a variant at most 63.
///
/// # Errors
///
/// `BadLine` with the first line that isn't so, among the first and the 12,288 behind it. Else `TooMany`
/// where a further line begins. `Memory` may come at any step.
pub fn read_proofs(alloc: Global, bytes: &[u8]) -> Result<ProofFile, ProofError>
    ensures reads { ReadsAs bytes.now result }
    ensures answer { AnswersText result (proofs_in bytes.now) }
    ensures few { IfOk result (λ file. length file.proofs ≤ 12288) }
    ensures shaped { IfOk result (λ file. All (HasShape file.bank) file.proofs) }
    ensures spelled { (file : File) → IsFile file → bytes.now ≡ file_text file → (result ≡ Ok file) ⊎ (result ≡ Err errors.Memory) }
{
    let Some((line, rest)) = next_line(bytes) else {
        return Err(ProofError::BadLine(0));
    };
    let Some((bank, locality)) = read_head(line) else {
        return Err(ProofError::BadLine(0));
    };
    match read_lines(alloc, bank, rest) {
        Ok(proofs) => Ok(ProofFile {
            bank,
            locality,
            proofs,
        }),
        Err(error) => Err(error),
    }
}
