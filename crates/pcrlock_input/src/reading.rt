//! What stands at the path of an input.
ghost use Rattle.std.specs.Prelude.{◌≡◌, Some, Ok, Err, IfOk};
ghost use Rattle.pl_base.specs.Faults.{HasCause};
ghost use Rattle.pl_base.specs.FileMap.{FileMap};
ghost use Rattle.pcrlock_line.specs.Content.{content_found, content_of};
ghost use Rattle.pcrlock_input.specs.Answering.{Answers, IsShort};

use crate::error::InputError;
use pcrlock_line::Found;
use pl_base::{Files, ReadError};
use std::alloc::Global;

/// What stands at the path, where at most `limit` bytes are allowed. The files stay as they are.
pub(crate) fn read_input<F: Files>(
    alloc: Global,
    files: &mut F,
    path: &str,
    limit: u64,
) -> Result<Found, InputError>
    ensures cause { HasCause (F.faults files.old) (F.faults files.new) (result ≡ Err InputError.Failed) }
    ensures told { (held : FileMap) → F.held files.old ≡ Some held → Answers content_found result (Ok (content_of held path.now limit)) }
    ensures short { IfOk result (λ found. IsShort limit found) }
    ensures same { F.held files.new ≡ F.held files.old }
{
    match files.read(alloc, path, limit) {
        Ok(bytes) => Ok(Found::Bytes(bytes)),
        Err(ReadError::Missing) => Ok(Found::Missing),
        Err(ReadError::TooLarge(size)) => Ok(Found::TooLarge(size)),
        Err(ReadError::Failed) => Err(InputError::Failed),
        Err(ReadError::Memory) => Err(InputError::Memory),
    }
}
