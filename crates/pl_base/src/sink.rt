ghost use Rattle.std.specs.Prelude.{◌≡◌, ℕ, Option, Some, List, ◌++◌, Err, MatchResult};
ghost use Rattle.pl_base.specs.Faults.{HasCause};
ghost use Rattle.pl_base.specs.Written.{WriteLeaves};

use std::alloc::Global;

/// Why bytes could not be written.
#[derive(Clone, Copy, Debug, PartialEq, Eq)]
pub enum SinkError {
    /// The outside refused, and the count of faults rose.
    Failed,
    /// Memory ran out, and nothing was written.
    Memory,
}

/// A place where bytes are written to, one after the other.
pub trait Sink {
    /// All bytes written, where they are told.
    ghost written: { Self → Option (List ℕ) };

    /// How often a write failed.
    ghost faults: { Self → ℕ };

    /// Writes all bytes. After `Failed` a front of them was written, after `Memory` none.
    fn write_all(&mut self, alloc: Global, bytes: &[u8]) -> Result<(), SinkError>
        ensures cause { HasCause (faults self.old) (faults self.new) (result ≡ Err SinkError.Failed) }
        ensures told { (before : List ℕ) → written self.old ≡ Some before → WriteLeaves before bytes.now result (written self.new) };
}
