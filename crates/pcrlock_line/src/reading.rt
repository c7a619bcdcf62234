//! Files that a command reads.
ghost use Rattle.std.specs.Prelude.{◌≡◌, ◌<◌, ◌≤◌, ◌⊎◌, ℕ, Some, Err, IfOk, IfErr};
ghost use Rattle.pl_base.specs.FileMap.{FileMap};
ghost use Rattle.pcrlock_line.specs.Content.{content_of, content_found};
ghost use Rattle.pcrlock_line.specs.Causes.{HasCauses};

use crate::Stop;
use pl_base::{Files, ReadError};
use std::alloc::Global;

/// What stands at a path.
#[derive(Debug, Drop)]
pub enum Found {
    /// No file.
    Missing,
    /// A file of this many bytes, more than the limit.
    TooLarge(u64),
    /// A file of these bytes.
    Bytes(Vec<u8>),
}

/// What stands at the path, where at most `limit` bytes are allowed. The files stay as they are.
pub fn read_file<F: Files>(
    alloc: Global,
    files: &mut F,
    path: &str,
    limit: u64,
) -> Result<Found, Stop>
    ensures causes { HasCauses (F.faults files.old, 0, 0, 0) (F.faults files.new, 0, 0, 0) result }
    ensures told { (held : FileMap) → F.held files.old ≡ Some held → IfOk result (λ found. content_found found ≡ content_of held path.now limit) }
    ensures same { F.held files.new ≡ F.held files.old }
    ensures kind { IfErr result (λ stop. (stop ≡ Stop.ReadFault) ⊎ (stop ≡ Stop.Memory)) }
{
    match files.read(alloc, path, limit) {
        Ok(bytes) => Ok(Found::Bytes(bytes)),
        Err(ReadError::Missing) => Ok(Found::Missing),
        Err(ReadError::TooLarge(size)) => Ok(Found::TooLarge(size)),
        Err(ReadError::Failed) => Err(Stop::ReadFault),
        Err(ReadError::Memory) => Err(Stop::Memory),
    }
}
