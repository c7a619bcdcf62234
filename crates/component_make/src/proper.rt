//! What every record keeps, told for what its text reads back as. These functions compute nothing.
ghost use Rattle.std.specs.Prelude.{All, map};
ghost use Rattle.hex.specs.Hex.{IsBytes};
ghost use Rattle.cel_record.specs.Listed.{listed, listed_in};
ghost use Rattle.cel_record.specs.Proper.{IsDigestOf, IsProper};
ghost use Rattle.cel_record.specs.Spelled.{spelled};

use cel_record::CelRecord;
use hash_bank::{Bank, Digests};

/// What stands in a slice of bytes is below 256.
fn are_bytes(bytes: &[u8])
    ensures { IsBytes bytes.now }
{
    let _ = bytes;
}

/// The bank's digest has the bank's length, in bytes.
fn is_digest(digests: &Digests, bank: Bank)
    ensures { IsDigestOf bank (listed_in bank (listed digests.now)) }
{
    if let Some(digest) = digests.get(bank) {
        are_bytes(digest.as_slice());
    }
}

/// The record has a PCR that is there, and digests of their banks.
fn is_proper(record: &CelRecord)
    ensures { IsProper (spelled «record».now) }
{
    is_digest(&record.digests, Bank::Sha1);
    is_digest(&record.digests, Bank::Sha256);
    is_digest(&record.digests, Bank::Sha384);
    is_digest(&record.digests, Bank::Sha512);
}

/// So does each of the records.
pub(crate) fn are_proper(records: &[CelRecord])
    ensures { All IsProper (map spelled records.now) }
{
    for record in records {
        is_proper(record);
    }
}
