//! A race on a device, of which the laws speak.
ghost use Rattle.std.specs.Prelude.{◌≡◌, ℕ, Bool, true, List, Some, Err, IfOk, length};
ghost use Rattle.std.specs.FinMap.{get};
ghost use Rattle.std.specs.List.{AllByRecursion};
ghost use Rattle.pl_base.specs.Faults.{HasCause};
ghost use Rattle.race_core.specs.Histories.{IsNew};
ghost use Rattle.race_core.specs.Playing.{GivesAll, stays_ready};
ghost use Rattle.race_core.specs.Racing.{IsEvent, race_outcome};
ghost use Rattle.race_core.specs.declared.outcome.Outcome.TheVariants as outcome;
ghost use Rattle.tpm_device.specs.Running.{IsLive};
ghost use Rattle.tpm_model.specs.Binding.{Index};
ghost use Rattle.tpm_model.specs.Events.{Clean};
ghost use Rattle.tpm_model.specs.Rules.{HasRules};
ghost use Rattle.tpm_model.specs.World.{World};
ghost use Rattle.tpm_model.specs.declared.parts.Parts.{Parts};
ghost use Rattle.tpm_worlds.specs.EventLists.{Safe};
ghost use Rattle.tpm_worlds.specs.WholeEvents.{FullTie};
ghost use Rattle.race_newest.specs.RaceEvents.{world_at};
ghost use Rattle.race_newest.specs.Rightly.{HasKeyRightly};

use race_core::{Event, PlayError, Race, play};
use std::alloc::Global;
use tpm_device::Tpm;

/// Plays the events of a race on a TPM, as `play` of `race_core` does.
///
/// Where all of them were played, of a new race, on a TPM that tells a state with the rules that hangs together with the
/// world: a client that ends with a key of an object that the world binds to the newest policy of an index has it rightly.
///
/// # Errors
///
/// Those of `play`.
pub fn play_rightly<T: Tpm>(
    alloc: Global,
    race: &mut Race,
    events: &[Event],
    tpm: &mut T,
) -> Result<(), PlayError>
    requires readiness { T.ready tpm.old ≡ true }
    requires events { AllByRecursion (IsEvent (length race.old.clients)) events.now }
    ensures cause { HasCause (T.faults tpm.old) (T.faults tpm.new) (result ≡ Err PlayError.Failed) }
    ensures readiness { T.ready tpm.new ≡ stays_ready result }
    ensures clients { length race.new.clients ≡ length race.old.clients }
    ensures told { (s : Parts) (keeps : Bool) → IsLive keeps s (T.live tpm.old) (T.stored tpm.old)
        → GivesAll keeps events.now (record { race = race.old; state = s }) result race.new (T.live tpm.new) (T.stored tpm.new) }
    ensures only { IfOk result (λ _. (s : Parts) (keeps : Bool) (w : World) (client index : ℕ) (pin secret given : List ℕ) → IsLive keeps s (T.live tpm.old) (T.stored tpm.old)
        → IsNew race.old → HasRules s → FullTie s w → Clean (world_at events.now (record { race = race.old; state = s }) w) → Safe (world_at events.now (record { race = race.old; state = s }) w)
        → get w.objects race.old.object ≡ Some (record { secret = secret; binding = Index index pin })
        → race_outcome race.new client ≡ outcome.Key given → HasKeyRightly events.now (record { race = race.old; state = s }) w client index pin secret given) }
{
    play(alloc, race, events, tpm)
}
