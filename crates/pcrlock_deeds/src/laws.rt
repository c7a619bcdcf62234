//! The laws of deeds and of acts. The calls do nothing; they tell the laws.
ghost use Rattle.std.specs.Prelude.{◌≡◌, ℕ, ◌≤◌, List, [], map, Option, None, Some};
ghost use Rattle.std.specs.FinMap.{get};
ghost use Rattle.hash_bank.specs.declared.banks.Banks.{Banks};
ghost use Rattle.pl_base.specs.FileMap.{FileMap};
ghost use Rattle.tpm_device.specs.Stored.{Stored};
ghost use Rattle.tpm_model.specs.Events.{Clean};
ghost use Rattle.tpm_model.specs.Fresh.{fresh_parts};
ghost use Rattle.tpm_model.specs.Pcrs.{bank_count};
ghost use Rattle.tpm_model.specs.World.{AreHashed, LiveIndex, World};
ghost use Rattle.tpm_worlds.specs.EventLists.{Safe};
ghost use Rattle.tpm_worlds.specs.FreshWorld.{fresh_world};
ghost use Rattle.tpm_worlds.specs.Growth.{GrowsAll};
ghost use Rattle.pcrlock_line.specs.Machine.{Live, Machine, machine};
ghost use Rattle.pcrlock_line.specs.Outcome.{Ending, Outcome};
ghost use Rattle.pcrlock_line.specs.Stopped.{StandsAmong, StandsAt};
ghost use Rattle.pcrlock_deeds.specs.Acts.{Act, HoldsAt, IsDone, IsSoundAct, act_outcome, act_stages, act_world};
ghost use Rattle.pcrlock_deeds.specs.Deed.{Deed, ends, keeps, writes};
ghost use Rattle.pcrlock_deeds.specs.Doings.{Stage, after, hashed, stage_machine, stages, stops, world};
ghost use Rattle.pcrlock_deeds.specs.Kept.{IsKept, IsOwnKept, LeavesFiled};
ghost use Rattle.pcrlock_deeds.specs.Resumed.{StandsKept};
ghost use Rattle.pcrlock_deeds.specs.Sound.{AllStages, IsSound, IsTie, StandsTied};

/// In the world after a deed nothing is lost of strings, pins and updates, and the strings that the deed
/// hashed are there.
pub fn deed_grows()
    ensures grows { (d : Deed) (m : Live) (w : World) → GrowsAll w (world d m w) }
    ensures hashed { (d : Deed) (m : Live) (w : World) → AreHashed (world d m w) (hashed d m) }
{}

/// The stops of a deed are the machines of its stages; the machine before the deed stands among them, and
/// the one after it.
pub fn deed_stands()
    ensures stages { (d : Deed) (m : Live) (w : World) → stops d m ≡ map stage_machine (stages d m w) }
    ensures first { (held : Option FileMap) (kept : Option Stored) (d : Deed) (m : Live) → StandsAt held kept (machine m) → StandsAmong held kept (stops d m) }
    ensures last { (held : Option FileMap) (kept : Option Stored) (d : Deed) (m : Live) → StandsAt held kept (machine (after d m)) → StandsAmong held kept (stops d m) }
{}

/// Each step of a deed keeps what is kept of the policy file, the state and the world: with the open
/// sessions, and without them.
pub fn policy_is_tied()
    ensures own { (policy : List ℕ) → IsTie (IsOwnKept policy) (LeavesFiled policy) }
    ensures trails { (policy : List ℕ) → IsTie (IsKept policy) (LeavesFiled policy) }
{}

/// A deed of sound steps keeps it, where in the end no strings clash and no stranger presented a pin of a
/// policy. It holds at each of the deed's stages, so also at what stands after a stop.
pub fn deed_keeps_policy()
    ensures own { (policy : List ℕ) (d : Deed) (m : Live) (w : World) → IsSound (LeavesFiled policy) d m w → Clean (world d m w) → Safe (world d m w)
        → IsOwnKept policy m w → IsOwnKept policy (after d m) (world d m w) }
    ensures trails { (policy : List ℕ) (d : Deed) (m : Live) (w : World) → IsSound (LeavesFiled policy) d m w → Clean (world d m w) → Safe (world d m w)
        → IsKept policy m w → IsKept policy (after d m) (world d m w) }
    ensures staged { (policy : List ℕ) (d : Deed) (m : Live) (w : World) → IsSound (LeavesFiled policy) d m w → Clean (world d m w) → Safe (world d m w)
        → IsOwnKept policy m w → AllStages (IsOwnKept policy) (stages d m w) }
    ensures stopped { (policy : List ℕ) (d : Deed) (m : Live) (w : World) → IsSound (LeavesFiled policy) d m w → Clean (world d m w) → Safe (world d m w)
        → IsOwnKept policy m w → (held : Option FileMap) (kept : Option Stored) → StandsAmong held kept (stops d m)
        → StandsTied (IsOwnKept policy) held kept (stages d m w) }
{}

/// A line that comes to a sound act keeps it likewise; the world has the strings of the act; and the
/// machine before the act stands among its stops, and the one after it.
pub fn line_keeps_policy()
    ensures own { (policy state : List ℕ) (o : Outcome) (act : Act) (m : Machine) (w : World) → IsDone o (act_outcome act state m)
        → IsSoundAct (LeavesFiled policy) act m w → Clean (act_world act m w) → Safe (act_world act m w)
        → HoldsAt (IsOwnKept policy) m w → HoldsAt (IsOwnKept policy) o.after (act_world act m w) }
    ensures trails { (policy state : List ℕ) (o : Outcome) (act : Act) (m : Machine) (w : World) → IsDone o (act_outcome act state m)
        → IsSoundAct (LeavesFiled policy) act m w → Clean (act_world act m w) → Safe (act_world act m w)
        → HoldsAt (IsKept policy) m w → HoldsAt (IsKept policy) o.after (act_world act m w) }
    ensures hashed { (state : List ℕ) (o : Outcome) (act : Act) (m : Machine) (w : World) → IsDone o (act_outcome act state m) → AreHashed (act_world act m w) o.hashed }
    ensures grows { (act : Act) (m : Machine) (w : World) → GrowsAll w (act_world act m w) }
    ensures first { (held : Option FileMap) (kept : Option Stored) (state : List ℕ) (o : Outcome) (act : Act) (m : Machine) → IsDone o (act_outcome act state m)
        → StandsAt held kept m → StandsAmong held kept o.stops }
    ensures last { (held : Option FileMap) (kept : Option Stored) (state : List ℕ) (o : Outcome) (act : Act) (m : Machine) → IsDone o (act_outcome act state m)
        → StandsAt held kept o.after → StandsAmong held kept o.stops }
    ensures stopped { (policy state : List ℕ) (o : Outcome) (act : Act) (m : Machine) (w : World) → IsDone o (act_outcome act state m)
        → IsSoundAct (LeavesFiled policy) act m w → Clean (act_world act m w) → Safe (act_world act m w) → HoldsAt (IsOwnKept policy) m w
        → (held : Option FileMap) (kept : Option Stored) → StandsAmong held kept o.stops → StandsTied (IsOwnKept policy) held kept (act_stages act m w) }
{}

/// What stands after a stop, where a stage is tied, is kept in the stage's world by whatever comes next: with the
/// sessions that a walk left open when it was stopped, and whatever words are drawn.
pub fn stopped_is_kept()
    ensures { (policy : List ℕ) (held : Option FileMap) (kept : Option Stored) (stages : List Stage) → StandsTied (IsOwnKept policy) held kept stages → StandsKept policy held kept stages }
{}

/// It can be met: by a TPM that was never used, where no policy file is there.
pub fn fresh_is_kept()
    ensures { (policy : List ℕ) (banks : Banks) (held : FileMap) (words : List (List ℕ)) → 1 ≤ bank_count banks → get held policy ≡ None
        → IsKept policy (record { files = held; state = fresh_parts banks; draws = words }) (fresh_world banks) }
{}

/// It can be broken: by a deed that writes the policy file and forgets to file it, where no policy was
/// filed; such a deed isn't sound.
pub fn forgotten_file_is_noticed()
    ensures unsound { (policy bytes : List ℕ) (last : Ending) (m : Live) (w : World) → IsSound (LeavesFiled policy) (writes policy bytes keeps (ends last)) m w → ⊥ }
    ensures broken { (policy bytes : List ℕ) (last : Ending) (m : Live) (w : World) → w.filed ≡ None
        → IsOwnKept policy (after (writes policy bytes keeps (ends last)) m) (world (writes policy bytes keeps (ends last)) m w) → ⊥ }
{}

/// And by a state without indices, where the world has a live one.
pub fn lost_index_is_noticed()
    ensures { (policy : List ℕ) (m : Live) (w : World) (handle : ℕ) (live : LiveIndex) → m.state.indices ≡ [] → get w.live handle ≡ Some live → IsOwnKept policy m w → ⊥ }
{}
