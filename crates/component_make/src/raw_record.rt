ghost use Rattle.std.specs.Prelude.{◌≡◌, ◌≤◌};
ghost use Rattle.cel_record.specs.Spelled.{spelled};
ghost use Rattle.component_make.specs.RawRecord.{raw_record};

use cel_record::CelRecord;
use hash_bank::hash_all;

/// The record of the bytes' hashes in the PCR, one for each bank. There are 24 PCRs, from 0 on.
pub fn raw(pcr: u8, bytes: &[u8]) -> CelRecord
    requires { pcr ≤ 23 }
    ensures { spelled result ≡ raw_record pcr bytes.now }
{
    CelRecord {
        pcr,
        digests: hash_all(bytes),
    }
}
