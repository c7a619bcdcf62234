//! Files that a command writes and takes out, and random words that it draws.
ghost use Rattle.std.specs.Prelude.{◌≡◌, ◌⊎◌, ◌∷◌, ℕ, is_some, List as Sequence, Some, IfOk, IfErr, OnOk};
ghost use Rattle.std.specs.FinMap.{get, insert, remove};
ghost use Rattle.pl_base.specs.FileMap.{FileMap};
ghost use Rattle.pcrlock_line.specs.Changes.{IsDrawn};
ghost use Rattle.pcrlock_line.specs.Causes.{HasCauses};

use crate::Stop;
use pl_base::{Entropy, Files, RemoveError, ReplaceError};
use std::alloc::Global;

/// Sets the bytes of the file at the path. After a stop the file is the old or the new one.
pub fn replace_file<F: Files>(
    alloc: Global,
    files: &mut F,
    path: &str,
    bytes: &[u8],
) -> Result<(), Stop>
    ensures causes { HasCauses (F.faults files.old, 0, 0, 0) (F.faults files.new, 0, 0, 0) result }
    ensures told { (held : FileMap) → F.held files.old ≡ Some held → OnOk result (F.held files.new ≡ Some (insert held path.now bytes.now)) }
    ensures stops { (held : FileMap) → F.held files.old ≡ Some held
        → IfErr result (λ _. (F.held files.new ≡ Some held) ⊎ (F.held files.new ≡ Some (insert held path.now bytes.now))) }
    ensures kind { IfErr result (λ stop. (stop ≡ Stop.WriteFault) ⊎ (stop ≡ Stop.Memory)) }
{
    match files.replace(alloc, path, bytes) {
        Ok(()) => Ok(()),
        Err(ReplaceError::Failed) => Err(Stop::WriteFault),
        Err(ReplaceError::Memory) => Err(Stop::Memory),
    }
}

/// Takes the file at the path out, and tells whether it was there. After a stop it is there as before,
/// or gone.
pub fn remove_file<F: Files>(alloc: Global, files: &mut F, path: &str) -> Result<bool, Stop>
    ensures causes { HasCauses (F.faults files.old, 0, 0, 0) (F.faults files.new, 0, 0, 0) result }
    ensures was { (held : FileMap) → F.held files.old ≡ Some held → IfOk result (λ was. was ≡ is_some (get held path.now)) }
    ensures told { (held : FileMap) → F.held files.old ≡ Some held → IfOk result (λ _. F.held files.new ≡ Some (remove held path.now)) }
    ensures stops { (held : FileMap) → F.held files.old ≡ Some held
        → IfErr result (λ _. (F.held files.new ≡ Some held) ⊎ (F.held files.new ≡ Some (remove held path.now))) }
    ensures kind { IfErr result (λ stop. (stop ≡ Stop.WriteFault) ⊎ (stop ≡ Stop.Memory)) }
{
    match files.remove(alloc, path) {
        Ok(()) => Ok(true),
        Err(RemoveError::Missing) => Ok(false),
        Err(RemoveError::Failed) => Err(Stop::WriteFault),
        Err(RemoveError::Memory) => Err(Stop::Memory),
    }
}

/// Draws a random word of 32 bytes. After a stop the words to come are as before.
pub fn draw<E: Entropy>(entropy: &mut E) -> Result<[u8; 32], Stop>
    ensures causes { HasCauses (0, E.faults entropy.old, 0, 0) (0, E.faults entropy.new, 0, 0) result }
    ensures told { (words : Sequence (Sequence ℕ)) → E.draws entropy.old ≡ Some words → IfOk result (λ word. IsDrawn words word (E.draws entropy.new)) }
    ensures stops { (words : Sequence (Sequence ℕ)) → E.draws entropy.old ≡ Some words → IfErr result (λ _. E.draws entropy.new ≡ Some words) }
    ensures kind { IfErr result (λ stop. stop ≡ Stop.EntropyFault) }
{
    match entropy.fill32() {
        Ok(word) => Ok(word),
        Err(_) => Err(Stop::EntropyFault),
    }
}
