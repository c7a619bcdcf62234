//! The laws from the newest table to the choices of variants.
ghost use Rattle.std.specs.Prelude.{◌≡◌, ◌≢◌, ◌↔◌, ℕ, true, List, ◌++◌, Contains, Some, Ok};
ghost use Rattle.std.specs.FinMap.{get};
ghost use Rattle.hash_bank.specs.declared.bank.Bank.TheVariants.{Sha256};
ghost use Rattle.hash_bank.specs.Banks.{has_bank};
ghost use Rattle.hash_bank.specs.Hash.{zeros_in};
ghost use Rattle.policy_file.specs.PolicyText.{IsIndex};
ghost use Rattle.forecasts.specs.Forecast.{Forecast, Holds, IsInRow, IsProtected, TableOf};
ghost use Rattle.tpm_model.specs.Events.{Clean};
ghost use Rattle.tpm_model.specs.World.{FiledPolicy, LiveIndex, World};
ghost use Rattle.tpm_worlds.specs.EventLists.{Safe};
ghost use Rattle.pcrlock_line.specs.Machine.{Live, Machine, machine};
ghost use Rattle.pcrlock_line.specs.Outcome.{Fine, unchanged};
ghost use Rattle.pcrlock_deeds.specs.Acts.{HoldsAt, act_world};
ghost use Rattle.pcrlock_deeds.specs.Filed.{Current};
ghost use Rattle.pcrlock_deeds.specs.Kept.{IsOwnKept};
ghost use Rattle.pcrlock_input.specs.Logs.{PlainLogs, logs_of};
ghost use Rattle.pcrlock_open.specs.Unseal.{unseal_line};
ghost use Rattle.pcrlock_headline.specs.Calm.{LeavesNewest};
ghost use Rattle.pcrlock_headline.specs.Enrolled.{IsBoundToken, IsEnrolledTo};
ghost use Rattle.pcrlock_policy.specs.Acts.{make_policy_act};
ghost use Rattle.pcrlock_policy.specs.Asked.{Asked, Target};
ghost use Rattle.pcrlock_policy.specs.Foreseen.{Foreseen};
ghost use Rattle.pcrlock_policy.specs.MakePolicy.{handle_for, make_policy_line, unchanged_text};
ghost use Rattle.pcrlock_foretold.specs.Examples.{HoldAtTheEnd, HoldEachItsOwn, measured_twice, once, one_of_two, started, stepwise};
ghost use Rattle.pcrlock_foretold.specs.Foretold.{HasForetold, MakesForetold, OpensAsForetold, UnsealsForetold, forecast_of, values_in};
ghost use Rattle.pcrlock_foretold.specs.Scripts.{BootScript, BootsAsForetold, before_boot, before_unseal, lines_machine, lines_world};
ghost use Rattle.pcrlock_foretold.specs.Settled.{IsSettled};

/// Where `make-policy` does its work, be it that nothing had to be changed, the newest table of the policy's index is that
/// of the forecast of the logs, the components and the PCR values that the command found: where state, policy file and
/// world were kept before, no stranger presented a pin of a policy, and no strings clash of those that were hashed up to
/// its end. An asked PCR stands in that table exactly where the replay of its log is the value that it holds, and some
/// choice of variants of all components up to the end of the window explains the log.
///
/// Where the table is the newest one already, under the same pin, nothing is changed, and this is what is said, unless it
/// is to be written anyway.
pub fn policy_is_foretold()
    ensures makes { (state : List ℕ) (asked : Asked) (target : Target) (m : Machine) (w : World) → HoldsAt (IsOwnKept target.path) m w
        → Clean (act_world (make_policy_act asked target m w) m w) → Safe (act_world (make_policy_act asked target m w) m w) → MakesForetold state asked target m w }
    ensures protects { (asked : Asked) (target : Target) (m : Machine) (w : World) (made : HasForetold asked target m w) (p : ℕ)
        → IsInRow made.newest.table p ↔ IsProtected (forecast_of asked made.finds.inputs made.finds.now) p }
    ensures settled { (state : List ℕ) (asked : Asked) (target : Target) (foreseen : Foreseen) (m : Live) (w : World)
        → IsOwnKept target.path m w → Current w → Safe w → IsSettled asked target foreseen m w
        → make_policy_line state asked target (machine m) ≡ unchanged (Fine (foreseen.text ++ unchanged_text)) (machine m) }
{}

/// Where the newest table of the policy's index is that of a forecast, `unseal` of a token as `enroll` wrote it, while its
/// object, its index and a session slot remain, prints the key exactly where each protected PCR holds a value that some
/// choice of variants, at some cut of the window, measures; for a policy whose PCRs are taken together, exactly where one
/// choice at one cut measures the values of them all. State, policy file and world are kept, the policy file is current, and
/// no strings clash of those that were hashed so far.
///
/// So it is of what a `make-policy` has foretold, in each later world in which no table was put in force since.
pub fn unseal_is_foretold()
    ensures foretold { (state token policy : List ℕ) (m : Machine) (w : World) → HoldsAt (IsOwnKept policy) m w → Safe w → UnsealsForetold state token policy m w }
    ensures later { (asked : Asked) (target : Target) (m : Machine) (w : World) (made : HasForetold asked target m w) (state token : List ℕ) (handle : ℕ) (pin key : List ℕ) (live : Live) (v : World)
        → LeavesNewest w v → IsOwnKept target.path live v → Safe v → IsEnrolledTo live v token handle (handle_for target made.finds.found) pin key
        → OpensAsForetold (unseal_line state token target.path (machine live)).ending key (forecast_of asked made.finds.inputs made.finds.now) v }
{}

/// A script of five lines: `make-policy` ends well, a key is enrolled, anyone uses the TPM, the machine boots with logs
/// that can be read, and the key is opened. Where state, policy file and world were kept before, no stranger presented a
/// pin of a policy, and no strings clash in the end, the last line prints the key exactly where the boot was foretold.
pub fn script_is_foretold()
    ensures { (script : BootScript) (m : Machine) (w : World) (out : List ℕ) (logs : PlainLogs) (live : Live)
        → HoldsAt (IsOwnKept script.target.path) m w → IsIndex script.target.index → (script.token ≡ script.target.path → ⊥)
        → Clean (lines_world script.state (before_unseal script) m w) → Safe (lines_world script.state (before_unseal script) m w)
        → (make_policy_line script.state script.asked script.target m).ending ≡ Fine out
        → logs_of (lines_machine script.state (before_boot script) m w).files script.firmware script.user ≡ Ok logs
        → has_bank script.banks script.asked.bank ≡ true
        → lines_machine script.state (before_unseal script) m w ≡ machine live
        → BootsAsForetold script logs m w live }
{}

/// Other readings say something else. In a window with a component, the end alone leaves out the boots before it
/// (`each_cut`); where PCRs are taken together, a choice of each PCR's own lets in what no boot measures (`one_choice`): both
/// unless the hash of the measured string is zeros. Where the policy file hasn't the newest table, nothing opens though the
/// PCRs hold what was foretold (`stale`), and the forecast of an older table doesn't tell when the key comes (`older`).
pub fn other_readings_are_refuted()
    ensures each_cut { (digest : List ℕ) → once digest ≢ zeros_in Sha256
        → IsProtected (stepwise digest) 1 × Holds (stepwise digest) started × (HoldAtTheEnd (stepwise digest) started → ⊥) }
    ensures one_choice { (digest : List ℕ) → once digest ≢ zeros_in Sha256
        → HoldEachItsOwn (one_of_two digest) (measured_twice digest) × (Holds (one_of_two digest) (measured_twice digest) → ⊥) }
    ensures stale { (policy : List ℕ) (m : Live) (w : World) (state token : List ℕ) (handle : ℕ) (filed : FiledPolicy) (newest : LiveIndex) (f : Forecast) (key : List ℕ)
        → IsOwnKept policy m w → Safe w → w.filed ≡ Some filed → get w.live filed.handle ≡ Some newest → IsBoundToken m.files token handle
        → (Contains filed.tables newest.table → ⊥) → Holds f (values_in w f.bank) → OpensAsForetold (unseal_line state token policy (machine m)).ending key f w → ⊥ }
    ensures older { (policy : List ℕ) (m : Live) (w : World) (state token : List ℕ) (handle index : ℕ) (pin key : List ℕ) (newest : LiveIndex) (f older : Forecast)
        → IsOwnKept policy m w → Current w → Safe w → IsEnrolledTo m w token handle index pin key → get w.live index ≡ Some newest → TableOf f newest.table
        → Holds older (values_in w older.bank) → (Holds f (values_in w f.bank) → ⊥) → OpensAsForetold (unseal_line state token policy (machine m)).ending key older w → ⊥ }
{}
