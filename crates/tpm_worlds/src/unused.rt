//! A TPM that was never used.
ghost use Rattle.std.specs.Prelude.{◌≡◌, ◌≤◌};
ghost use Rattle.tpm_model.specs.Events.{Clean};
ghost use Rattle.tpm_model.specs.Fresh.{fresh_parts};
ghost use Rattle.tpm_model.specs.Pcrs.{bank_count};
ghost use Rattle.tpm_worlds.specs.EventLists.{Safe};
ghost use Rattle.tpm_worlds.specs.FreshWorld.{fresh_world};
ghost use Rattle.tpm_worlds.specs.WholeEvents.{FullTie};

use hash_bank::Banks;
use std::alloc::Global;
use tpm_model::State;

/// A TPM that was never used: the given banks, at least one, after a start at locality 0. It takes
/// no memory.
///
/// It hangs together in all parts with the world in which nobody has done anything; there no stranger
/// presented a pin, and no two strings have one digest. So there are states and worlds of which
/// [`step_all`](crate::step_all) speaks.
pub fn fresh_state(alloc: Global, banks: Banks) -> State
    requires { 1 ≤ bank_count banks }
    ensures value { result ≡ fresh_parts banks }
    ensures fresh { FullTie result (fresh_world banks) }
    ensures clean { Clean (fresh_world banks) }
    ensures safe { Safe (fresh_world banks) }
{
    State::fresh(alloc, banks)
}
