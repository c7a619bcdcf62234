//! `make-policy`, from what was asked to the answer.
ghost use Rattle.std.specs.Prelude.{◌≡◌, true, option_copied, Some, Ok, IfOk, IfErr, IfSome};
ghost use Rattle.std.specs.List.{Contains};
ghost use Rattle.hash_bank.specs.HashedString.{NoClash};
ghost use Rattle.policy_file.specs.PolicyText.{IsIndex, IsPolicy};
ghost use Rattle.pcrlock_line.specs.Causes.{HasCauses};
ghost use Rattle.pcrlock_line.specs.Machine.{Live, Machine, Tells, machine};
ghost use Rattle.pcrlock_line.specs.Outcome.{Gives};
ghost use Rattle.pcrlock_line.specs.Stopped.{StandsAmong};
ghost use Rattle.pcrlock_input.specs.Logs.{AreRead};
ghost use Rattle.pcrlock_predict.specs.Inputs.{plain_inputs};
ghost use Rattle.pcrlock_policy.specs.Asked.{asked_of, target_of};
ghost use Rattle.pcrlock_policy.specs.MakePolicy.{found_line, inputs_line, make_policy_line, policy_on};

use crate::asked::{Asked, Target};
use crate::forcing::put_in_force;
use crate::foreseeing::foresee;
use pcrlock_deeds::policy_at;
use pcrlock_input::InputError;
use pcrlock_line::{Reply, Stop, ready};
use pcrlock_predict::{Inputs, read_inputs};
use pl_base::{Entropy, Files, Name};
use policy_file::Policy;
use std::alloc::Global;
use tpm_device::Tpm;

/// What `make-policy` does on the ready device.
fn make_on<F: Files, T: Tpm, E: Entropy>(
    alloc: Global,
    files: &mut F,
    tpm: &mut T,
    entropy: &mut E,
    asked: &Asked<'_>,
    target: &Target<'_>,
    found: Option<&Policy>,
    inputs: &Inputs,
) -> Result<Reply, Stop>
    requires readiness { T.ready tpm.old ≡ true }
    requires index { IsIndex target.now.index }
    requires found { IfSome (option_copied found) IsPolicy }
    requires read { AreRead inputs.now.logs }
    ensures causes { HasCauses (F.faults files.old, E.faults entropy.old, T.faults tpm.old, 0) (F.faults files.new, E.faults entropy.new, T.faults tpm.new, 0) result }
    ensures told { (m : Live) → Tells (F.held files.old) (T.stored tpm.old) (E.draws entropy.old) (machine m) → T.live tpm.old ≡ Some m.state
        → NoClash (Contains (policy_on (asked_of asked.now) (target_of target.now) (option_copied found.entry) (plain_inputs inputs.now) m).hashed)
        → IfOk result (λ reply. Gives (F.held files.new) (T.stored tpm.new) (E.draws entropy.new) reply (policy_on (asked_of asked.now) (target_of target.now) (option_copied found.entry) (plain_inputs inputs.now) m)) }
    ensures stops { (m : Live) → Tells (F.held files.old) (T.stored tpm.old) (E.draws entropy.old) (machine m) → T.live tpm.old ≡ Some m.state
        → NoClash (Contains (policy_on (asked_of asked.now) (target_of target.now) (option_copied found.entry) (plain_inputs inputs.now) m).hashed)
        → IfErr result (λ _. StandsAmong (F.held files.new) (T.stored tpm.new) (policy_on (asked_of asked.now) (target_of target.now) (option_copied found.entry) (plain_inputs inputs.now) m).stops) }
{
    match foresee(alloc, tpm, asked, inputs) {
        Ok(Ok(foreseen)) => put_in_force(alloc, files, tpm, entropy, target, found, foreseen),
        Ok(Err(answer)) => Ok(Reply::Refused(answer)),
        Err(stop) => Err(stop),
    }
}

/// What `make-policy` does once all files are read: it makes the device ready, whose state stands at the path.
fn make_from<F: Files, T: Tpm, E: Entropy>(
    alloc: Global,
    files: &mut F,
    tpm: &mut T,
    entropy: &mut E,
    state: &Name,
    asked: &Asked<'_>,
    target: &Target<'_>,
    found: Option<&Policy>,
    inputs: &Inputs,
) -> Result<Reply, Stop>
    requires index { IsIndex target.now.index }
    requires found { IfSome (option_copied found) IsPolicy }
    requires read { AreRead inputs.now.logs }
    ensures causes { HasCauses (F.faults files.old, E.faults entropy.old, T.faults tpm.old, 0) (F.faults files.new, E.faults entropy.new, T.faults tpm.new, 0) result }
    ensures told { (m : Machine) → Tells (F.held files.old) (T.stored tpm.old) (E.draws entropy.old) m
        → NoClash (Contains (inputs_line state.now (asked_of asked.now) (target_of target.now) (option_copied found.entry) (Ok (plain_inputs inputs.now)) m).hashed)
        → IfOk result (λ reply. Gives (F.held files.new) (T.stored tpm.new) (E.draws entropy.new) reply (inputs_line state.now (asked_of asked.now) (target_of target.now) (option_copied found.entry) (Ok (plain_inputs inputs.now)) m)) }
    ensures stops { (m : Machine) → Tells (F.held files.old) (T.stored tpm.old) (E.draws entropy.old) m
        → NoClash (Contains (inputs_line state.now (asked_of asked.now) (target_of target.now) (option_copied found.entry) (Ok (plain_inputs inputs.now)) m).hashed)
        → IfErr result (λ _. StandsAmong (F.held files.new) (T.stored tpm.new) (inputs_line state.now (asked_of asked.now) (target_of target.now) (option_copied found.entry) (Ok (plain_inputs inputs.now)) m).stops) }
{
    match ready(alloc, tpm, state) {
        Ok(None) => make_on(alloc, files, tpm, entropy, asked, target, found, inputs),
        Ok(Some(answer)) => Ok(Reply::Refused(answer)),
        Err(stop) => Err(stop),
    }
}

/// What `make-policy` does once the policy file is read.
fn make_found<F: Files, T: Tpm, E: Entropy>(
    alloc: Global,
    files: &mut F,
    tpm: &mut T,
    entropy: &mut E,
    state: &Name,
    asked: &Asked<'_>,
    target: &Target<'_>,
    found: Option<&Policy>,
) -> Result<Reply, Stop>
    requires index { IsIndex target.now.index }
    requires found { IfSome (option_copied found) IsPolicy }
    ensures causes { HasCauses (F.faults files.old, E.faults entropy.old, T.faults tpm.old, 0) (F.faults files.new, E.faults entropy.new, T.faults tpm.new, 0) result }
    ensures told { (m : Machine) → Tells (F.held files.old) (T.stored tpm.old) (E.draws entropy.old) m
        → NoClash (Contains (found_line state.now (asked_of asked.now) (target_of target.now) (Ok (option_copied found.entry)) m).hashed)
        → IfOk result (λ reply. Gives (F.held files.new) (T.stored tpm.new) (E.draws entropy.new) reply (found_line state.now (asked_of asked.now) (target_of target.now) (Ok (option_copied found.entry)) m)) }
    ensures stops { (m : Machine) → Tells (F.held files.old) (T.stored tpm.old) (E.draws entropy.old) m
        → NoClash (Contains (found_line state.now (asked_of asked.now) (target_of target.now) (Ok (option_copied found.entry)) m).hashed)
        → IfErr result (λ _. StandsAmong (F.held files.new) (T.stored tpm.new) (found_line state.now (asked_of asked.now) (target_of target.now) (Ok (option_copied found.entry)) m).stops) }
{
    match read_inputs(alloc, files, asked.firmware, asked.user, asked.folders) {
        Ok(inputs) => make_from(
            alloc, files, tpm, entropy, state, asked, target, found, &inputs,
        ),
        Err(InputError::Refused(answer)) => Ok(Reply::Refused(answer)),
        Err(InputError::Failed) => Err(Stop::ReadFault),
        Err(InputError::Memory) => Err(Stop::Memory),
    }
}

/// Foresees which values the asked PCRs may have while the boot goes on, as `predict` does, and puts the table of them
/// in force: the policy file states it, and the NV index holds its policy, so that what is bound to the index opens by
/// the table. The index is that of the policy file, where one is there, else the target's. The TPM's state stands at
/// `state`.
///
/// Where no index stands under the handle, or one that was never written, the index is defined anew, the pin that
/// writes it, the one given or a drawn one, is sealed under it, the policy file is written, then the index, and then
/// the object that held the pin of an old policy file is taken away. It prints how many values are foreseen of each
/// PCR, or why it is left out; the line of a pin that was drawn; and `made`.
///
/// Where a written index stands there, it has to be the policy file's or the given pin's. Where it is the file's, holds
/// the policy of the same table, and the file has the table, nothing is changed, unless the target's `force` says so:
/// behind the numbers of values it prints `unchanged`. Else the pin is the one given, which is sealed anew, or is
/// unsealed from the object that the file names, as a key is. The file is written with the table that the index holds,
/// where the file has it, and the new one; then the index; then the file with the new table alone; and where the pin
/// was given, the object that held the old one is taken away. It prints `updated` in place of `made`.
///
/// The answers for which it stops, the first whose cause holds. Up to the test of the pin nothing was changed, but for
/// sessions; after it what was done so far stays:
///
/// | Answer | Cause |
/// |---|---|
/// | `Limit`, `policy-bytes`; `Malformed` | the policy file has this many bytes, more than 4,194,304, or spells no policy |
/// | those of `read_inputs` | a log or a component can't be read |
/// | `Limit`, `state-bytes`; `Malformed` | the state file gives no state |
/// | `BankAbsent` | a PCR is asked for, and the state has no such bank |
/// | `NoDigest` | a record of an asked PCR, whose replay is its value, has no digest of the bank in the components inside the window |
/// | `Limit`, `values` 513 | more than 512 values, or with `joint` states, are foreseen of it |
/// | `NothingProtected` | no asked PCR can be protected |
/// | `IndexTaken` | the written index has neither the policy file's digest of a policy nor the given pin's policy |
/// | `PinRefused` | the given pin has another policy than the written index |
/// | those of `open_secret` | the pin isn't unsealed |
/// | `Malformed` at 44 | what the policy file's object holds isn't the pin of the index |
/// | those of `make_new_policy`, `update_with_pin`, `update_policy` | a change is refused |
///
/// Digests of policies are compared: that this is the same is told where the strings that are hashed don't clash. It
/// stops with `ReadFault`, `WriteFault`, `EntropyFault`, `TpmFault` or `Memory`.
#[tactic(auto, unfolding(crate::specs::MakePolicy::make_policy_line))]
pub fn make_policy<F: Files, T: Tpm, E: Entropy>(
    alloc: Global,
    files: &mut F,
    tpm: &mut T,
    entropy: &mut E,
    state: &Name,
    asked: &Asked<'_>,
    target: &Target<'_>,
) -> Result<Reply, Stop>
    requires { IsIndex target.now.index }
    ensures causes { HasCauses (F.faults files.old, E.faults entropy.old, T.faults tpm.old, 0) (F.faults files.new, E.faults entropy.new, T.faults tpm.new, 0) result }
    ensures told { (m : Machine) → Tells (F.held files.old) (T.stored tpm.old) (E.draws entropy.old) m
        → NoClash (Contains (make_policy_line state.now (asked_of asked.now) (target_of target.now) m).hashed)
        → IfOk result (λ reply. Gives (F.held files.new) (T.stored tpm.new) (E.draws entropy.new) reply (make_policy_line state.now (asked_of asked.now) (target_of target.now) m)) }
    ensures stops { (m : Machine) → Tells (F.held files.old) (T.stored tpm.old) (E.draws entropy.old) m
        → NoClash (Contains (make_policy_line state.now (asked_of asked.now) (target_of target.now) m).hashed)
        → IfErr result (λ _. StandsAmong (F.held files.new) (T.stored tpm.new) (make_policy_line state.now (asked_of asked.now) (target_of target.now) m).stops) }
{
    match policy_at(alloc, files, target.path) {
        Ok(Ok(found)) => make_found(
            alloc,
            files,
            tpm,
            entropy,
            state,
            asked,
            target,
            found.as_ref(),
        ),
        Ok(Err(answer)) => Ok(Reply::Refused(answer)),
        Err(stop) => Err(stop),
    }
}
