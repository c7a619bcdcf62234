//! The laws of who opens by which table.
ghost use Rattle.std.specs.Prelude.{◌≡◌, ℕ, true, List, [], ◌∷◌, Some};
ghost use Rattle.std.specs.FinMap.{get};
ghost use Rattle.std.specs.List.{AllByRecursion};
ghost use Rattle.policy_digest.specs.Plain.{plain_table};
ghost use Rattle.policy_digest.specs.PlainTable.{PlainTable};
ghost use Rattle.policy_digest.specs.declared.table.Table.{Table};
ghost use Rattle.tpm_model.specs.Binding.{Index};
ghost use Rattle.tpm_model.specs.Events.{Clean, Event, Other, Update, command_of};
ghost use Rattle.tpm_model.specs.Respond.{respond};
ghost use Rattle.tpm_model.specs.Rules.{HasRules};
ghost use Rattle.tpm_model.specs.World.{World};
ghost use Rattle.tpm_model.specs.declared.command.Command.{Command};
ghost use Rattle.tpm_model.specs.declared.command.Command.TheVariants as command;
ghost use Rattle.tpm_model.specs.declared.parts.Parts.{Parts};
ghost use Rattle.tpm_model.specs.declared.response.Refusal.{Refusal};
ghost use Rattle.tpm_model.specs.declared.response.Response.TheVariants as answer;
ghost use Rattle.tpm_worlds.specs.EventLists.{Safe};
ghost use Rattle.tpm_worlds.specs.WholeEvents.{AreSoundEvents, FullTie};
ghost use Rattle.race_core.specs.Histories.{IsNew};
ghost use Rattle.race_core.specs.Playing.{Playing, played};
ghost use Rattle.race_core.specs.Racing.{IsEvent, race_outcome};
ghost use Rattle.race_core.specs.declared.event.Event.{Event as Played};
ghost use Rattle.race_core.specs.declared.event.Event.TheVariants as played_event;
ghost use Rattle.race_core.specs.declared.outcome.Outcome.TheVariants as outcome;
ghost use Rattle.race_newest.specs.ByNewest.{EachOpensByNewest, IsAuthorisedByNewest, IsOpenedByNewest, WasAuthorised};
ghost use Rattle.race_newest.specs.Moments.{world_behind};
ghost use Rattle.race_newest.specs.RaceEvents.{world_at, world_events};
ghost use Rattle.race_newest.specs.Rightly.{HasKeyRightly};
ghost use Rattle.race_newest.specs.Stillness.{AreStill, moves};

/// Whoever sends which commands, the program's and those of anyone mixed in any order: an Unseal of an object that the
/// world binds to the newest policy of an index answers the object's own bytes, and only to a session whose
/// PolicyAuthorizeNV was accepted at an earlier event, by the table that was the index's newest then, and while that
/// table is open. A session that went through PolicyAuthorizeNV before the first event names no event.
///
/// So it is of the events of a race: clients' steps, updates and strangers' commands.
///
/// This is so from every state with the rules that hangs together with the world, where in the last world no stranger
/// presented a pin of a policy and no two strings that were hashed have one digest.
pub fn each_unseal_names_its_event()
    ensures each { (events : List Event) (s : Parts) (w : World) → HasRules s → FullTie s w → AreSoundEvents events s w
        → Clean (world_behind events s w) → Safe (world_behind events s w) → EachOpensByNewest events s w }
    ensures race { (events : List Played) (p : Playing) (w : World) (clients : ℕ) → AllByRecursion (IsEvent clients) events
        → HasRules p.state → FullTie p.state w → Clean (world_at events p w) → Safe (world_at events p w)
        → EachOpensByNewest (world_events events p) p.state w }
{}

/// In a new race over an object that the world binds to the newest policy of an index, whatever clients, updates and
/// strangers do between a client's steps, and whichever sessions strangers name: a client ends with a key only where
/// the key is the object's bytes, the table that was the index's newest as its session was authorised is open at its
/// Unseal, and no PCR moved from its first PolicyPCR up to its Unseal. That table need not be the one that it read.
pub fn keys_come_rightly()
    ensures only { (events : List Played) (p : Playing) (w : World) (clients client index : ℕ) (pin secret given : List ℕ) → IsNew p.race
        → AllByRecursion (IsEvent clients) events → HasRules p.state → FullTie p.state w → Clean (world_at events p w) → Safe (world_at events p w)
        → get w.objects p.race.object ≡ Some (record { secret = secret; binding = Index index pin })
        → race_outcome (played events p).race client ≡ outcome.Key given → HasKeyRightly events p w client index pin secret given }
{}

/// Which events authorise, and which don't. Among no events none does: who opens then was authorised before them, and no
/// client has a key. One accepted PolicyAuthorizeNV does, by the table that is the newest, and by no other. An accepted
/// extend or restart moves PCRs, and a refused one doesn't. An update is the program's own event, a stranger's command
/// isn't.
pub fn names_are_strict()
    ensures none { (s : Parts) (w : World) (session index : ℕ) (pin : List ℕ) (table : PlainTable) → IsAuthorisedByNewest [] s w session index pin table → ⊥ }
    ensures already { (s : Parts) (w : World) (session index : ℕ) (pin secret answered : List ℕ) → IsOpenedByNewest [] s w session index pin secret answered
        → WasAuthorised s session }
    ensures no_key { (p : Playing) (w : World) (client index : ℕ) (pin secret given : List ℕ) → HasKeyRightly [] p w client index pin secret given → ⊥ }
    ensures one { (at : Event) (s : Parts) (w : World) (session index : ℕ) (pin : List ℕ) (table : PlainTable) → command_of at ≡ command.PolicyAuthorizeNv session index
        → (respond (command_of at) s).0 ≡ answer.Done → get w.live index ≡ Some (record { pin = pin; table = table }) → IsAuthorisedByNewest (at ∷ []) s w session index pin table }
    ensures older { (at : Event) (s : Parts) (w : World) (session index : ℕ) (pin : List ℕ) (table other : PlainTable) → get w.live index ≡ Some (record { pin = pin; table = other })
        → (table ≡ other → ⊥) → IsAuthorisedByNewest (at ∷ []) s w session index pin table → ⊥ }
    ensures moved { (c : Command) (p : Playing) → moves c ≡ true → (respond c p.state).0 ≡ answer.Done → AreStill (played_event.Stranger c ∷ []) p → ⊥ }
    ensures stayed { (c : Command) (why : Refusal) (p : Playing) → (respond c p.state).0 ≡ answer.Refused why → AreStill (played_event.Stranger c ∷ []) p }
    ensures theirs { (c : Command) (p : Playing) → world_events (played_event.Stranger c ∷ []) p ≡ Other c ∷ [] }
    ensures ours { (pin root : List ℕ) (table : Table) (p : Playing) → world_events (played_event.Update pin table root ∷ []) p ≡ Update p.race.index pin (plain_table table) ∷ [] }
{}
