//! A JSON value as a record.
ghost use Rattle.std.specs.Prelude.{◌≡◌};
ghost use Rattle.serde_json.specs.View.{view};
ghost use Rattle.cel_record.specs.Step.{Gives};
ghost use Rattle.cel_record.specs.RecordText.{record_of, pcr_number};
ghost use Rattle.cel_record.specs.Spelled.{spelled};

use crate::digests::read_digests;
use crate::kind::RecordKind;
use crate::record::CelRecord;
use crate::value::{array_under, unsigned_under};
use serde_json::Value;

// The number of a PCR, of which a PC has 24.
fn pcr_of(number: u64) -> Option<u8>
    ensures { result ≡ pcr_number number }
{
    if number <= 23 {
        Some(number as u8)
    } else {
        None
    }
}

/// The record that a JSON value is, by its members `pcr` and `digests` (TCG Canonical Event Log);
/// other members are passed over. Each member of `digests` has the texts `hashAlg` and `digest`, the
/// digest in hexadecimal digits of either case. The algorithms `sha1`, `sha256`, `sha384` and
/// `sha512` are read, at most once each, and those with another name are passed over.
///
/// # Errors
///
/// The first test of `RecordKind` that fails.
pub fn read_record(value: &Value) -> Result<CelRecord, RecordKind>
    ensures { Gives spelled result (record_of (view value.now)) }
{
    if !value.is_object() {
        return Err(RecordKind::NotObject);
    }
    let number = unsigned_under(value, "pcr").ok_or(RecordKind::Pcr)?;
    let pcr = pcr_of(number).ok_or(RecordKind::Pcr)?;
    let members = array_under(value, "digests").ok_or(RecordKind::Digests)?;
    let digests = read_digests(members)?;
    Ok(CelRecord { pcr, digests })
}
