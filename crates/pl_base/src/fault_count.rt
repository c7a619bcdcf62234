ghost use Rattle.std.specs.Prelude.{◌≡◌, ◌+◌, ◌-◌, ◌^◌, min, IsErr};
ghost use Rattle.pl_base.specs.Faults.{HasCause};

use std::marker::Model;

/// How often an object failed, from 0 to 2^64 - 1. The count stays at its greatest value once it
/// reaches it. An adapter of `Files`, `Sink` or `Entropy` keeps one for each kind of fault: what
/// `rise` and `counted` ensure is what those traits ask of a count.
#[derive(Debug, Drop)]
pub struct FaultCount {
    count: u64,
}

impl Model for FaultCount {
    ghost use Rattle.std.specs.Prelude.{ℕ};

    ghost Value = { ℕ };

    ghost view = { λ a. a.count };
}

impl FaultCount {
    /// The count before the first fault.
    pub fn new() -> FaultCount
        ensures { result ≡ 0 }
    {
        FaultCount { count: 0 }
    }

    /// Counts a fault.
    pub fn rise(&mut self)
        ensures rose { HasCause self.old self.new (Unit {0}) }
        ensures value { self.new ≡ min (self.old + 1) (2 ^ 64 - 1) }
    {
        self.count = self.count.saturating_add(1);
    }

    /// The outcome itself, which is counted if it is an error.
    pub fn counted<T, E>(&mut self, outcome: Result<T, E>) -> Result<T, E>
        ensures same { result ≡ outcome }
        ensures rose { HasCause self.old self.new (IsErr outcome) }
        ensures still { ¬ IsErr outcome → self.new ≡ self.old }
    {
        if outcome.is_err() {
            self.rise();
        }
        outcome
    }
}
