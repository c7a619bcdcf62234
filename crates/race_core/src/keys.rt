//! How a client of a race comes to its key.
ghost use Rattle.std.specs.Prelude.{◌≡◌, ℕ, List};
ghost use Rattle.race_core.specs.Histories.{HasUnsealed, IsNew};
ghost use Rattle.race_core.specs.Playing.{Playing, played};
ghost use Rattle.race_core.specs.Racing.{race_outcome};
ghost use Rattle.race_core.specs.declared.event.Event.{Event as Played};
ghost use Rattle.race_core.specs.declared.outcome.Outcome.TheVariants as outcome;

/// In a race that is new, whatever others do between its steps: a client ends with a key only where the TPM accepted,
/// in this order and on one session that the client had started, its first PolicyPCR, its PolicyAuthorizeNV, and its
/// Unseal of the race's object, which gave this key. The call does nothing; it tells the law.
pub fn a_key_has_its_steps()
    ensures steps { (events : List Played) (p : Playing) (client : ℕ) (secret : List ℕ) → IsNew p.race
        → race_outcome (played events p).race client ≡ outcome.Key secret → HasUnsealed events p client secret }
{}
