ghost use Rattle.std.specs.Prelude.{◌≡◌, ◌==◌, ◌+◌, ◌-◌, ◌^◌, min, find};
ghost use Rattle.pl_base.specs.Calls.{planned};
ghost use Rattle.pl_base.specs.Faults.{HasCause};

use crate::fault_count::FaultCount;
use crate::{Fail, List};
use std::marker::Model;

/// Which calls of an object in memory fail, and the counts of its calls and of its faults. A
/// count stays at its greatest value once it reaches it.
#[derive(Debug, Drop)]
pub struct Schedule {
    fails: List<Fail>,
    made: u64,
    faults: FaultCount,
}

impl Model for Schedule {
    ghost use Rattle.pl_base.specs.Calls.{Calls};

    ghost Value = { Calls };

    ghost view = { λ a. record { fails = a.fails; made = a.made; faults = a.faults } };
}

/// The first failure that names this call.
fn failure_of(fails: &[Fail], call: u64) -> Option<Fail>
    ensures { result ≡ find (λ fail. fail.call == call) fails.now }
{
    fails.iter().copied().find(|fail| fail.call == call)
}

impl Schedule {
    /// The schedule before the first call.
    pub fn new(fails: List<Fail>) -> Schedule
        ensures { result ≡ record { fails = fails; made = 0; faults = 0 } }
    {
        Schedule {
            fails,
            made: 0,
            faults: FaultCount::new(),
        }
    }

    /// Counts a call, and tells how it is to fail, if it is.
    pub fn next_call(&mut self) -> Option<Fail>
        ensures planned { result ≡ planned self.old }
        ensures after { self.new ≡ record self.old { made = min (self.old.made + 1) (2 ^ 64 - 1) } }
    {
        let call = self.made;
        self.made = call.saturating_add(1);
        failure_of(self.fails.as_slice(), call)
    }

    /// Counts a fault.
    pub fn fault(&mut self)
        ensures rose { HasCause self.old.faults self.new.faults (Unit {0}) }
        ensures same { self.new ≡ record self.old { faults = min (self.old.faults + 1) (2 ^ 64 - 1) } }
    {
        self.faults.rise();
    }
}
