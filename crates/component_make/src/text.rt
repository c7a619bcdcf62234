ghost use Rattle.std.specs.Prelude.{◌≡◌, ◌≤◌, Ok, length, map, IfOk};
ghost use Rattle.cel_record.specs.ComponentText.{component_of, record_limit};
ghost use Rattle.cel_record.specs.Spelled.{spelled};
ghost use Rattle.component_make.specs.FileText.{object_text, file_text};

use crate::proper::are_proper;
use cel_record::{CelRecord, write_cel};
use pl_base::Memory;
use std::alloc::Global;

/// The text of an object with an array's text under `records`, and a line feed.
fn object_over(alloc: Global, array: &[u8]) -> Result<Vec<u8>, Memory>
    ensures { IfOk result (λ v. v.items ≡ object_text array.now) }
{
    let mut text = Vec::new(alloc);
    text.extend_from_slice(b"{\"records\":")?;
    text.extend_from_slice(array)?;
    text.extend_from_slice(b"}\n")?;
    Ok(text)
}

/// The text of a component file of the records (systemd.pcrlock(5)): an object with the array of them,
/// in order, under `records`, and a line feed. `read_records` reads it as the records.
pub fn component_text(alloc: Global, records: &[CelRecord]) -> Result<Vec<u8>, Memory>
    requires { length records.now ≤ record_limit }
    ensures text { IfOk result (λ v. v.items ≡ file_text (map spelled records.now)) }
    ensures reads_back { IfOk result (λ v. component_of v.items ≡ Ok (map spelled records.now)) }
{
    are_proper(records);
    let list = write_cel(alloc, records)?;
    let text = object_over(alloc, list.as_slice())?;
    Ok(text)
}
