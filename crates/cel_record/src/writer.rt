//! Records as text.
ghost use Rattle.std.specs.Prelude.{◌≡◌, ◌≤◌, ◌++◌, ◌∷◌, List, ℕ, true, nat_lt, All, IfOk, OnOk, length, map, string_bytes};
ghost use Rattle.cel_record.specs.Commas.{comma_if, comma_texts};
ghost use Rattle.cel_record.specs.ComponentText.{component_of, record_limit};
ghost use Rattle.cel_record.specs.Listed.{listed, listed_in};
ghost use Rattle.cel_record.specs.Proper.{IsDigestOf, AreDigests, IsProper};
ghost use Rattle.hex.specs.Hex.{IsBytes};
ghost use Rattle.cel_record.specs.Spelled.{spelled};
ghost use Rattle.cel_record.specs.Written.{digest_text, digest_texts, component_text, digest_texts_in, number_text, numbered_text, numbered_texts, pcr_text, record_front, record_opening, record_text as text_of, with_commas};

use crate::record::CelRecord;
use hash_bank::{Bank, Digest, Digests};
use pl_base::Memory;
use std::alloc::Global;
use std::fmt::Write;

// Writes a comma where a text stands before.
fn write_comma(out: &mut String, later: bool) -> Result<(), Memory>
    ensures { OnOk result (string_bytes out.new ≡ string_bytes out.old ++ comma_if later) }
{
    if later {
        out.push(',')?;
    }
    Ok(())
}

// What stands in a slice of bytes is below 256.
fn are_bytes(bytes: &[u8])
    ensures { IsBytes bytes.now }
{
    let _ = bytes;
}

// Writes the digest of a bank.
#[tactic(auto, unfolding(crate::specs::Written::digest_text))]
fn write_digest(out: &mut String, bank: Bank, digest: &Digest) -> Result<(), Memory>
    ensures text { OnOk result (string_bytes out.new ≡ string_bytes out.old ++ digest_text bank digest.now) }
    ensures bytes { OnOk result (IsBytes digest.now) }
{
    are_bytes(digest.as_slice());
    let name = bank.name();
    write!(out, "{{\"digest\":\"{digest}\",\"hashAlg\":\"{name}\"}}")?;
    Ok(())
}

// Writes the digest of a bank, if there is one, and answers whether a text stands before the next.
fn write_next(out: &mut String, later: bool, digests: &Digests, bank: Bank) -> Result<bool, Memory>
    ensures text { IfOk result (λ next. (more : List (List ℕ)) → string_bytes out.new ++ comma_texts next more
        ≡ string_bytes out.old ++ comma_texts later (digest_texts_in (listed digests.now) bank ++ more)) }
    ensures digest { OnOk result (IsDigestOf bank (listed_in bank (listed digests.now))) }
{
    let Some(digest) = digests.get(bank) else {
        return Ok(later);
    };
    write_comma(out, later)?;
    write_digest(out, bank, &digest)?;
    Ok(true)
}

// Writes the digests.
#[tactic(auto, using(crate::proofs::Commas::comma_laws))]
fn write_digests(out: &mut String, digests: &Digests) -> Result<(), Memory>
    ensures text { OnOk result (string_bytes out.new ≡ string_bytes out.old ++ with_commas (digest_texts (listed digests.now))) }
    ensures digests { OnOk result (AreDigests (listed digests.now)) }
{
    let mut later = false;
    for bank in &Bank::ALL {
        later = write_next(out, later, digests, *bank)?;
    }
    Ok(())
}

// Writes what stands before the digests.
#[tactic(auto, unfolding(crate::specs::Written::record_opening))]
fn write_opening(out: &mut String) -> Result<(), Memory>
    ensures { OnOk result (string_bytes out.new ≡ string_bytes out.old ++ record_opening) }
{
    out.push_str("{\"digests\":[")?;
    Ok(())
}

// Writes what stands after the digests, up to the PCR.
#[tactic(auto, unfolding(crate::specs::Written::pcr_text))]
fn write_pcr(out: &mut String, pcr: u8) -> Result<(), Memory>
    ensures { OnOk result (string_bytes out.new ≡ string_bytes out.old ++ pcr_text pcr) }
{
    write!(out, "],\"pcr\":{pcr}")?;
    Ok(())
}

// Writes a record's number, and the closing brace.
#[tactic(auto, unfolding(crate::specs::Written::number_text))]
fn write_number(out: &mut String, number: usize) -> Result<(), Memory>
    ensures { OnOk result (string_bytes out.new ≡ string_bytes out.old ++ number_text number) }
{
    write!(out, ",\"recnum\":{number}}}")?;
    Ok(())
}

// Writes a record up to its PCR.
fn write_front(out: &mut String, record: &CelRecord) -> Result<(), Memory>
    ensures text { OnOk result (string_bytes out.new ≡ string_bytes out.old ++ record_front (spelled «record».now)) }
    ensures proper { OnOk result (IsProper (spelled «record».now)) }
{
    write_opening(out)?;
    write_digests(out, &record.digests)?;
    write_pcr(out, record.pcr)
}

/// The text of a record that stands alone, without a number.
pub fn record_text(alloc: Global, record: &CelRecord) -> Result<String, Memory>
    ensures text { IfOk result (λ s. string_bytes s ≡ text_of (spelled «record».now)) }
    // What any record keeps, told here for what the text reads back as.
    ensures proper { OnOk result (IsProper (spelled «record».now)) }
{
    let mut out = String::new(alloc);
    write_front(&mut out, record)?;
    out.push('}')?;
    Ok(out)
}

// Writes a record with its number in the file, after a comma where another stands before.
fn write_numbered(out: &mut String, number: usize, record: &CelRecord) -> Result<(), Memory>
    ensures text { OnOk result ((more : List (List ℕ)) → string_bytes out.new ++ comma_texts true more
        ≡ string_bytes out.old ++ comma_texts (nat_lt 0 number) (numbered_text number (spelled «record».now) ∷ more)) }
    ensures proper { OnOk result (IsProper (spelled «record».now)) }
{
    write_comma(out, number > 0)?;
    write_front(out, record)?;
    write_number(out, number)
}

// Writes the records between commas.
fn write_all_numbered(out: &mut String, records: &[CelRecord]) -> Result<(), Memory>
    ensures text { OnOk result (string_bytes out.new ≡ string_bytes out.old ++ with_commas (numbered_texts 0 (map spelled records.now))) }
    ensures proper { OnOk result (All IsProper (map spelled records.now)) }
{
    for (number, record) in records.iter().enumerate() {
        write_numbered(out, number, record)?;
    }
    Ok(())
}

// The text of a component file of the records.
#[tactic(auto, unfolding(crate::specs::Written::component_text))]
fn component_string(alloc: Global, records: &[CelRecord]) -> Result<String, Memory>
    ensures text { IfOk result (λ s. string_bytes s ≡ component_text (map spelled records.now)) }
    ensures proper { OnOk result (All IsProper (map spelled records.now)) }
{
    let mut out = String::new(alloc);
    out.push('[')?;
    write_all_numbered(&mut out, records)?;
    out.push(']')?;
    Ok(out)
}

/// The text of a component file of the records: the array of them in order, each with its number.
/// `read_records` reads it as the records where there are at most 256 of them.
pub fn write_cel(alloc: Global, records: &[CelRecord]) -> Result<Vec<u8>, Memory>
    requires { length records.now ≤ 65536 }
    ensures text { IfOk result (λ v. v.items ≡ component_text (map spelled records.now)) }
    ensures reads_back { IfOk result (λ v. length records.now ≤ record_limit
        → component_of v.items ≡ Ok (map spelled records.now)) }
{
    let text = component_string(alloc, records)?;
    Ok(text.into_bytes())
}
