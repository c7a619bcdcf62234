//! Records as a userspace log.
ghost use Rattle.std.specs.Prelude.{◌≡◌, ◌≤◌, ◌++◌, IfOk, Ok, OnOk, length, map};
ghost use Rattle.cel_record.specs.Proper.{IsProper};
ghost use Rattle.cel_record.specs.Spelled.{spelled};
ghost use Rattle.userspace_log.specs.Found.{found_all};
ghost use Rattle.userspace_log.specs.UserText.{log_of, text_limit};
ghost use Rattle.userspace_log.specs.Written.{seq_text, written_text};

use cel_record::{CelRecord, record_text};
use pl_base::Memory;
use std::alloc::Global;

// Writes a record between its separator and a line feed.
fn write_text(alloc: Global, out: &mut Vec<u8>, record: &CelRecord) -> Result<(), Memory>
    ensures text { OnOk result (out.new.items ≡ out.old.items ++ written_text (spelled «record».now)) }
    ensures proper { OnOk result (IsProper (spelled «record».now)) }
{
    let text = record_text(alloc, record)?;
    out.push(0x1E)?;
    out.extend_from_slice(text.as_bytes())?;
    out.push(b'\n')?;
    Ok(())
}

/// The text of a userspace log of the records, in order. `read_seq` reads it as the records where
/// there are at most 4,096 of them and the text has at most 1,048,576 bytes.
pub fn write_seq(alloc: Global, records: &[CelRecord]) -> Result<Vec<u8>, Memory>
    ensures text { IfOk result (λ v. v.items ≡ seq_text (map spelled records.now)) }
    ensures reads_back { IfOk result (λ v. length records.now ≤ text_limit
        → log_of v.items ≡ Ok (found_all (map spelled records.now))) }
{
    let mut out = Vec::new(alloc);
    for record in records {
        write_text(alloc, &mut out, record)?;
    }
    Ok(out)
}
