//! The laws of `unseal` for keys that are bound to a policy.
ghost use Rattle.std.specs.Prelude.{◌≡◌, ◌↔◌, ℕ, List, ◌++◌, Contains, Some};
ghost use Rattle.std.specs.FinMap.{get};
ghost use Rattle.hash_bank.specs.HashedString.{NoClash};
ghost use Rattle.policy_digest.specs.PlainTable.{PlainTable, root_of};
ghost use Rattle.policy_walk.specs.Choosing.{newest_root};
ghost use Rattle.tpm_model.specs.Events.{Clean};
ghost use Rattle.tpm_model.specs.Opening.{Open};
ghost use Rattle.tpm_model.specs.Orderly.{Orderly};
ghost use Rattle.tpm_model.specs.World.{BoundObject, FiledPolicy, LiveIndex, World};
ghost use Rattle.tpm_worlds.specs.EventLists.{Safe};
ghost use Rattle.tpm_worlds.specs.WholeEvents.{OwnTie};
ghost use Rattle.pcrlock_answer.specs.declared.answer.Answer.TheVariants.{Outdated};
ghost use Rattle.pcrlock_answer.specs.Texts.{key_text};
ghost use Rattle.pcrlock_line.specs.Machine.{Live, Machine, machine};
ghost use Rattle.pcrlock_line.specs.Outcome.{Fine, Refused};
ghost use Rattle.pcrlock_deeds.specs.Acts.{Act, act_world};
ghost use Rattle.pcrlock_deeds.specs.Deed.{Deed};
ghost use Rattle.pcrlock_deeds.specs.Doings.{world};
ghost use Rattle.pcrlock_deeds.specs.Filed.{Current};
ghost use Rattle.pcrlock_deeds.specs.Kept.{IsOwnKept};
ghost use Rattle.pcrlock_open.specs.Unseal.{unseal_line};
ghost use Rattle.pcrlock_headline.specs.Calm.{IsCalm, IsCalmAct, LeavesNewest};
ghost use Rattle.pcrlock_headline.specs.Enrolled.{IsBoundToken, IsEnrolledTo};
ghost use Rattle.pcrlock_headline.specs.Exact.{OpensByPolicy, OpensByValues};
ghost use Rattle.pcrlock_headline.specs.Only.{HasBytes, IsUnlockedKey, NamesObject};

/// The headline: where state, policy file and world are kept, the policy file is current, and no strings clash that
/// were hashed so far, `unseal` of a token as `enroll` wrote it, while its object, its index and a session slot remain,
/// prints the key exactly where the newest table of the index is open. That is, exactly where the table's bank is
/// present, and each of its rows lists the values that the row's PCRs hold. It prints nothing else than the key.
pub fn unseal_is_exact()
    ensures policy { (path : List ℕ) (m : Live) (w : World) (state token : List ℕ) (handle index : ℕ) (pin key : List ℕ)
        → IsOwnKept path m w → Current w → Safe w → IsEnrolledTo m w token handle index pin key
        → OpensByPolicy (unseal_line state token path (machine m)).ending key index pin w }
    ensures values { (path : List ℕ) (m : Live) (w : World) (state token : List ℕ) (handle index : ℕ) (pin key : List ℕ)
        → IsOwnKept path m w → Current w → Safe w → IsEnrolledTo m w token handle index pin key
        → OpensByValues (unseal_line state token path (machine m)).ending key index w }
    ensures key { (path : List ℕ) (m : Live) (w : World) (state token : List ℕ) (handle index : ℕ) (pin key text : List ℕ)
        → IsOwnKept path m w → Current w → Safe w → IsEnrolledTo m w token handle index pin key
        → (unseal_line state token path (machine m)).ending ≡ Fine text → (unseal_line state token path (machine m)).ending ≡ Fine (key_text key) }
{}

/// Where the policy file hasn't the newest table of its index, a bound token opens nothing, whatever the PCRs hold: the
/// answer is that the file is outdated, with the root that the index holds and that of the file's last table. So the
/// headline needs that the file is current, and that its pin is that of the index: else what it states isn't bound to be
/// the index's newest table. An older table that is open doesn't open the object.
pub fn outdated_files_open_nothing()
    ensures outdated { (path : List ℕ) (m : Live) (w : World) (state token : List ℕ) (handle : ℕ) (filed : FiledPolicy) (live : LiveIndex)
        → IsOwnKept path m w → Safe w → w.filed ≡ Some filed → get w.live filed.handle ≡ Some live → IsBoundToken m.files token handle
        → (Contains filed.tables live.table → ⊥)
        → (unseal_line state token path (machine m)).ending ≡ Refused (Outdated (root_of live.table) (newest_root filed.tables)) }
    ensures older { (path : List ℕ) (m : Live) (w : World) (state token : List ℕ) (handle index : ℕ) (pin key : List ℕ) (live : LiveIndex) (older : PlainTable)
        → IsOwnKept path m w → Current w → Safe w → IsEnrolledTo m w token handle index pin key → get w.live index ≡ Some live
        → Open older w.banks w.pcrs → (Open live.table w.banks w.pcrs → ⊥)
        → ((unseal_line state token path (machine m)).ending ≡ Fine (key_text key)) ↔ Open older w.banks w.pcrs → ⊥ }
{}

/// Whatever stands in the token and in the policy file: where the state hangs together with the world, no stranger
/// presented a pin of a policy, and no strings clash of those that were hashed so far and those of the command, an
/// `unseal` whose token names an object of the world prints something only where what that object is bound to is
/// unlocked, and then it is the object's key.
pub fn unseal_is_only_where_unlocked()
    ensures { (m : Live) (w : World) (state token policy : List ℕ) (handle : ℕ) (bound : BoundObject) (text : List ℕ)
        → Orderly m.state → OwnTie m.state w → Clean w → NoClash (Contains (w.hashed ++ (unseal_line state token policy (machine m)).hashed))
        → HasBytes m.files token → HasBytes m.files policy → NamesObject m.files token handle → get w.objects handle ≡ Some bound
        → (unseal_line state token policy (machine m)).ending ≡ Fine text → IsUnlockedKey text bound w }
{}

/// What is current stays so, where an act writes no table into an index, and files none: then no policy is filed and no
/// index is live afterwards that wasn't so before, with the same pin and newest table.
pub fn calm_deeds_keep_current()
    ensures deed { (d : Deed) (m : Live) (w : World) → IsCalm d → Current w → Current (world d m w) }
    ensures act { (act : Act) (m : Machine) (w : World) → IsCalmAct act → Current w → Current (act_world act m w) }
    ensures leaves { (d : Deed) (m : Live) (w : World) → IsCalm d → LeavesNewest w (world d m w) }
    ensures act_leaves { (act : Act) (m : Machine) (w : World) → IsCalmAct act → LeavesNewest w (act_world act m w) }
{}
