ghost use Rattle.std.specs.Prelude.{◌≡◌, IfOk};
ghost use Rattle.pcr_replay.specs.Row.{rows};
ghost use Rattle.pcr_replay.specs.Measured.{measured_in};

use crate::record::LogRecord;
use hash_bank::{Bank, Digest};
use pl_base::{List, Memory};
use std::alloc::Global;

/// The bank's digests of the PCR's records, in order. `None` exactly where one of these lacks the
/// bank.
pub fn measured(
    alloc: Global,
    list: &[LogRecord],
    pcr: u8,
    bank: Bank,
) -> Result<Option<List<Digest>>, Memory>
    ensures { IfOk result (λ digests. digests ≡ measured_in bank pcr (rows list.now)) }
{
    let mut digests = List::new(alloc);
    for record in list {
        if record.pcr != pcr {
            continue;
        }
        match record.digests.get(bank) {
            Some(digest) => digests.push(digest)?,
            None => return Ok(None),
        }
    }
    Ok(Some(digests))
}
