//! The laws of unseals on a TPM that others use too.
ghost use Rattle.std.specs.Prelude.{◌≡◌, ℕ, List, [], ◌∷◌, ◌++◌, Contains, Some};
ghost use Rattle.std.specs.FinMap.{empty};
ghost use Rattle.std.specs.List.{AllByRecursion};
ghost use Rattle.hash_bank.specs.declared.bank.Bank.{Bank};
ghost use Rattle.hash_bank.specs.declared.bank.Bank.TheVariants.{Sha256};
ghost use Rattle.hash_bank.specs.Hash.{digest_in};
ghost use Rattle.nv_index.specs.declared.index.Index.{Index};
ghost use Rattle.nv_index.specs.declared.index.Written.{Written};
ghost use Rattle.policy_digest.specs.PlainTable.{root_of};
ghost use Rattle.tpm_model.specs.Events.{Clean, Event};
ghost use Rattle.tpm_model.specs.Orderly.{Orderly};
ghost use Rattle.tpm_model.specs.Rules.{HasRules};
ghost use Rattle.tpm_model.specs.WholeTie.{TiedIndices};
ghost use Rattle.tpm_model.specs.World.{World};
ghost use Rattle.tpm_model.specs.declared.parts.Parts.{Parts};
ghost use Rattle.tpm_model.specs.declared.trail.TrailEntry.{TrailEntry};
ghost use Rattle.tpm_model.specs.declared.trail.TrailEntry.TheVariants.{Pcr, AuthorizeNv};
ghost use Rattle.tpm_walks.specs.Walks.{ReadsNot};
ghost use Rattle.tpm_worlds.specs.EventLists.{Safe, world_after_all};
ghost use Rattle.tpm_worlds.specs.SteadySessions.{SteadySessions};
ghost use Rattle.tpm_worlds.specs.WholeEvents.{AreSoundEvents, FullTie, OwnTie};
ghost use Rattle.tpm_unseals.specs.ByPolicy.{EachOpens, IsAuthorized, written_name};
ghost use Rattle.tpm_unseals.specs.OneList.{one_list};

/// Whoever sends which commands, the program's and those of anyone mixed in any order: an Unseal of an object that
/// the program bound to the newest policy of an index answers the object's own bytes, and only to a session that
/// walked a table that the program wrote into that index, and then read that very write, while the table is open.
/// One of an object that is bound to a value answers only while the PCR holds the value.
///
/// This is so from every state that hangs together with the world, where in the last world no stranger presented a
/// pin of a policy and no two strings that were hashed have one digest.
pub fn each_unseal_opens()
    ensures each { (events : List Event) (s : Parts) (w : World) → Orderly s → OwnTie s w
        → SteadySessions s w → AreSoundEvents events s w → Clean (world_after_all events s w) → Safe (world_after_all events s w)
        → EachOpens events s w }
    ensures tied { (events : List Event) (s : Parts) (w : World) → HasRules s → FullTie s w → AreSoundEvents events s w
        → Clean (world_after_all events s w) → Safe (world_after_all events s w) → EachOpens events s w }
{}

/// Which sessions are authorized, and which are not. In a world in which the program wrote nothing none is; before
/// the one PolicyAuthorizeNV at the end stands no other; and a session that looked at the PCRs of a table of one
/// list, and read its update, is. A world that noted neither an update nor a stranger's pin hangs together with no
/// state that has a written index.
pub fn authorizations_are_strict()
    ensures unwritten { (w : World) (trail : List TrailEntry) (index : ℕ) (pin : List ℕ) → w.writes ≡ [] → IsAuthorized w trail index pin → ⊥ }
    ensures once { (w : World) (earlier : List TrailEntry) (last : TrailEntry) (index : ℕ) (pin : List ℕ) → IsAuthorized w (earlier ++ last ∷ []) index pin
        → AllByRecursion ReadsNot earlier }
    ensures twice { (w : World) (name digest : List ℕ) (number : ℕ) (last : TrailEntry) (index : ℕ) (pin : List ℕ)
        → IsAuthorized w (AuthorizeNv name digest number ∷ last ∷ []) index pin → ⊥ }
    ensures one_look { (w : World) (number index : ℕ) (pin : List ℕ) (bank : Bank) (pcrs : ℕ) (list : List ℕ)
        → Contains w.writes (record { number = number; handle = index; pin = pin; table = one_list bank pcrs list })
        → IsAuthorized w (Pcr bank pcrs (digest_in Sha256 list) ∷ AuthorizeNv (written_name index pin) (root_of (one_list bank pcrs list)) number ∷ []) index pin }
    ensures forgotten { (s : Parts) (w : World) (index : Index) (written : Written) → Contains s.indices index → index.written ≡ Some written
        → w.live ≡ empty → w.strange ≡ [] → TiedIndices s w → ⊥ }
{}
