//! That `make-policy` comes to its act. The calls do nothing; they tell the laws.
ghost use Rattle.std.specs.Prelude.{◌≡◌, ℕ, List};
ghost use Rattle.policy_file.specs.PolicyText.{IsIndex};
ghost use Rattle.tpm_model.specs.Events.{Clean};
ghost use Rattle.tpm_model.specs.World.{World};
ghost use Rattle.tpm_worlds.specs.EventLists.{Safe};
ghost use Rattle.pcrlock_line.specs.Machine.{Machine};
ghost use Rattle.pcrlock_line.specs.Outcome.{Fine};
ghost use Rattle.pcrlock_deeds.specs.Acts.{HoldsAt, IsAct, IsSoundAct, act_world};
ghost use Rattle.pcrlock_deeds.specs.Kept.{IsOwnKept, LeavesFiled};
ghost use Rattle.pcrlock_policy.specs.Acts.{HasMade, make_policy_act};
ghost use Rattle.pcrlock_policy.specs.Asked.{Asked, Target};
ghost use Rattle.pcrlock_policy.specs.MakePolicy.{make_policy_line};

/// `make-policy` comes to its act. Where what is kept of policy file, state and world was kept before, and no strings
/// clash in the end, each step of it keeps it. Where besides no stranger presented a pin of a policy, and the command
/// does its work, be it that nothing had to be changed, the table that was foreseen is the newest of the index, and what is
/// filed is current, whether or not it was so before.
pub fn policy_is_an_act()
    ensures act { (state : List ℕ) (asked : Asked) (target : Target) → IsAct (make_policy_line state asked target) state (make_policy_act asked target) }
    ensures sound { (asked : Asked) (target : Target) (m : Machine) (w : World) → IsIndex target.index → HoldsAt (IsOwnKept target.path) m w
        → Safe (act_world (make_policy_act asked target m w) m w) → IsSoundAct (LeavesFiled target.path) (make_policy_act asked target m w) m w }
    ensures makes { (state : List ℕ) (asked : Asked) (target : Target) (m : Machine) (w : World) (out : List ℕ) → (make_policy_line state asked target m).ending ≡ Fine out
        → HoldsAt (IsOwnKept target.path) m w → Clean (act_world (make_policy_act asked target m w) m w) → Safe (act_world (make_policy_act asked target m w) m w)
        → HasMade asked target m (act_world (make_policy_act asked target m w) m w) }
{}
