ghost use Rattle.std.specs.Prelude.{◌≡◌, IfOk, OnOk};

use pl_base::Memory;
use std::alloc::Global;

/// What the lines of a file spell, one after the other.
pub(crate) trait Grammar {
    ghost use Rattle.std.specs.Prelude.{ℕ, List as Sequence, Option};

    type Item: Drop;

    /// What a line spells.
    ghost spells: { Self → Sequence ℕ → Option Self.Item };

    /// The grammar of the lines behind it.
    ghost behind: { Self → Sequence ℕ → Self };

    /// Reads a line, given without its line feed.
    fn read(&mut self, alloc: Global, line: &[u8]) -> Result<Option<Self::Item>, Memory>
        ensures item { IfOk result (λ item. item ≡ spells self.old line.now) }
        ensures behind { OnOk result (self.new ≡ behind self.old line.now) };
}
