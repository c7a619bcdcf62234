//! That the commands of policies come to their deeds. The calls do nothing; they tell the laws.
ghost use Rattle.std.specs.Prelude.{◌≡◌, ℕ, Bool, true, List, Option, None, Some, Ok};
ghost use Rattle.std.specs.FinMap.{get};
ghost use Rattle.nv_index.specs.declared.index.Index.{Index};
ghost use Rattle.nv_index.specs.declared.index.Written.{Written};
ghost use Rattle.nv_index.specs.Table.{index_at};
ghost use Rattle.policy_digest.specs.declared.table.Table.{Table};
ghost use Rattle.policy_digest.specs.Pin.{pin_policy_of};
ghost use Rattle.policy_digest.specs.Table.{valid_table};
ghost use Rattle.policy_file.specs.declared.policy.Policy.{Policy};
ghost use Rattle.policy_file.specs.PolicyText.{IsIndex};
ghost use Rattle.tpm_model.specs.declared.parts.Parts.{Parts};
ghost use Rattle.tpm_model.specs.Events.{Clean};
ghost use Rattle.tpm_model.specs.World.{World};
ghost use Rattle.tpm_worlds.specs.EventLists.{Safe};
ghost use Rattle.pcrlock_line.specs.Machine.{Live, Machine};
ghost use Rattle.pcrlock_line.specs.Outcome.{Fine};
ghost use Rattle.pcrlock_deeds.specs.Acts.{IsAct, IsDone, IsSoundAct};
ghost use Rattle.pcrlock_deeds.specs.Doings.{ending, outcome, world};
ghost use Rattle.pcrlock_deeds.specs.Filed.{Current};
ghost use Rattle.pcrlock_deeds.specs.Kept.{IsOwnKept, LeavesFiled};
ghost use Rattle.pcrlock_deeds.specs.PolicyAt.{policy_of};
ghost use Rattle.pcrlock_deeds.specs.Sound.{IsSound};
ghost use Rattle.pcrlock_update.specs.Acts.{IsInForce, IsNewest, kept_deed, new_deed, pinned_deed, remove_deed, remove_policy_act, taken_pin};
ghost use Rattle.pcrlock_update.specs.NewPolicy.{new_line};
ghost use Rattle.pcrlock_update.specs.Refusals.{RefusedOnly};
ghost use Rattle.pcrlock_update.specs.RemovePolicy.{has_policy, remove_policy_line};
ghost use Rattle.pcrlock_update.specs.Standing.{is_unchanged};
ghost use Rattle.pcrlock_update.specs.Update.{kept_line, pinned_line};

/// `remove-policy` comes to its act, and each step of it keeps what is kept of the policy file. Where a policy is
/// taken away, none is filed afterwards, and its index isn't live any more.
pub fn removal_is_an_act()
    ensures act { (state path : List ℕ) → IsAct (remove_policy_line state path) state (remove_policy_act path) }
    ensures sound { (path : List ℕ) (m : Machine) (w : World) → IsSoundAct (LeavesFiled path) (remove_policy_act path m w) m w }
    ensures leaves { (path : List ℕ) (policy : Policy) (m : Live) (w : World) → (world (remove_deed path policy) m w).filed ≡ None }
    ensures index { (path : List ℕ) (policy : Policy) (m : Live) (w : World) → has_policy policy.index_policy (index_at policy.handle m.state.indices) ≡ true
        → get (world (remove_deed path policy) m w).live policy.handle ≡ None }
{}

/// On each state a change is refused for the reasons that are named, and for no other one.
pub fn changes_are_refused_only()
    ensures { (s : Parts) → RefusedOnly s }
{}

/// The changes by which a table is put in force come to deeds.
pub fn updates_are_deeds()
    ensures anew { (text path : List ℕ) (old : Option ℕ) (stands : Bool) (index : ℕ) (table : Table) (pin : Option (List ℕ)) (m : Live)
        → IsDone (new_line text path old stands index table pin m) (outcome (new_deed text path old stands index table pin) m) }
    ensures pinned { (text path : List ℕ) (found : Option Policy) (index : ℕ) (pin content : List ℕ) (table : Table) (m : Live)
        → IsDone (pinned_line text path found index pin content table m) (outcome (pinned_deed text path found index pin content table) m) }
    ensures kept { (text path : List ℕ) (policy : Policy) (pin content : List ℕ) (table : Table) (m : Live)
        → IsDone (kept_line text path policy pin content table m) (outcome (kept_deed text path policy pin content table) m) }
{}

/// Each step of these changes keeps what is kept of the policy file: where the table is valid and the handle one of
/// indices; where a pin was given or kept, what was kept before, and the policy file is the one that was read. The
/// pin that is kept has the policy of the index, and no strings clash in the end.
pub fn updates_are_sound()
    ensures anew { (text path : List ℕ) (old : Option ℕ) (stands : Bool) (index : ℕ) (table : Table) (pin : Option (List ℕ)) (m : Live) (w : World)
        → IsIndex index → valid_table table ≡ true → IsSound (LeavesFiled path) (new_deed text path old stands index table pin) m w }
    ensures pinned { (text path : List ℕ) (found : Option Policy) (index : ℕ) (pin content : List ℕ) (table : Table) (m : Live) (w : World)
        → IsIndex index → valid_table table ≡ true → IsOwnKept path m w → policy_of m.files path ≡ Ok found
        → IsSound (LeavesFiled path) (pinned_deed text path found index pin content table) m w }
    ensures kept { (text path : List ℕ) (policy : Policy) (pin content : List ℕ) (table : Table) (m : Live) (w : World)
        → valid_table table ≡ true → IsOwnKept path m w → policy_of m.files path ≡ Ok (Some policy) → pin_policy_of pin ≡ policy.index_policy
        → Safe (world (kept_deed text path policy pin content table) m w) → IsSound (LeavesFiled path) (kept_deed text path policy pin content table) m w }
{}

/// Where they come to a good end, the table is the newest of the index, under the pin, and the policy file states it
/// alone, so what it states is current. A new policy has the pin that was given, or the next random word.
pub fn updates_put_in_force()
    ensures anew { (text path : List ℕ) (old : Option ℕ) (stands : Bool) (index : ℕ) (table : Table) (pin : Option (List ℕ)) (m : Live) (w : World) (out : List ℕ)
        → ending (new_deed text path old stands index table pin) m ≡ Fine out
        → (taken : List ℕ) × (taken_pin pin m.draws ≡ Some taken) × IsInForce index taken table (world (new_deed text path old stands index table pin) m w) }
    ensures pinned { (text path : List ℕ) (found : Option Policy) (index : ℕ) (pin content : List ℕ) (table : Table) (m : Live) (w : World) (out : List ℕ)
        → ending (pinned_deed text path found index pin content table) m ≡ Fine out → IsInForce index pin table (world (pinned_deed text path found index pin content table) m w) }
    ensures kept { (text path : List ℕ) (policy : Policy) (pin content : List ℕ) (table : Table) (m : Live) (w : World) (out : List ℕ)
        → ending (kept_deed text path policy pin content table) m ≡ Fine out → IsInForce policy.handle pin table (world (kept_deed text path policy pin content table) m w) }
    ensures current { (index : ℕ) (pin : List ℕ) (table : Table) (w : World) → IsInForce index pin table w → Current w }
{}

/// Where nothing has to be changed, the table is the newest of the policy's index already: where what is kept of the
/// policy file was kept, no strings clash, and no stranger presented a pin of a policy.
pub fn unchanged_is_in_force()
    ensures { (path : List ℕ) (policy : Policy) (force : Bool) (index : Index) (written : Written) (table : Table) (m : Live) (w : World)
        → IsOwnKept path m w → Clean w → Safe w → policy_of m.files path ≡ Ok (Some policy) → valid_table table ≡ true
        → index_at policy.handle m.state.indices ≡ Some index → index.written ≡ Some written
        → is_unchanged (Some policy) force index.public written.value table ≡ true → IsNewest policy.handle table w }
{}
