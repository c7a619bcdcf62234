ghost use Rattle.std.specs.Prelude.{◌≡◌, ℕ, Option, Some, List, Result, Err};
ghost use Rattle.pl_base.specs.Faults.{HasCause};
ghost use Rattle.pl_base.specs.Draw.{DrawLeaves};

/// No random word could be had.
#[derive(Clone, Copy, Debug, PartialEq, Eq)]
pub struct Failed;

/// A source of random words of 32 bytes.
pub trait Entropy {
    /// The words still to come, where they are told.
    ghost draws: { Self → Option (List (List ℕ)) };

    /// How often no word could be had.
    ghost faults: { Self → ℕ };

    /// The next word. A failure leaves the words as they were.
    fn fill32(&mut self) -> Result<[u8; 32], Failed>
        ensures cause { HasCause (faults self.old) (faults self.new) (result ≡ Err record {}) }
        ensures told { (before : List (List ℕ)) → draws self.old ≡ Some before → DrawLeaves before result (draws self.new) };
}
