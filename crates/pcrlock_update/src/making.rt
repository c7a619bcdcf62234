//! A policy is put in force where no index, or an unwritten one, stands under its handle.
ghost use Rattle.std.specs.Prelude.{◌≡◌, ◌++◌, ℕ, true, List as Sequence, option_copied, Option as Maybe, None, Some, IfOk, IfErr};
ghost use Rattle.policy_digest.specs.Table.{valid_table};
ghost use Rattle.policy_file.specs.PolicyText.{IsIndex};
ghost use Rattle.pcrlock_line.specs.Causes.{HasCauses};
ghost use Rattle.pcrlock_line.specs.Machine.{Live, Tells, machine};
ghost use Rattle.pcrlock_line.specs.Outcome.{Gives};
ghost use Rattle.pcrlock_line.specs.Stopped.{StandsAmong};
ghost use Rattle.pcrlock_update.specs.Changes.{Works, CameTo, changes_made};
ghost use Rattle.pcrlock_update.specs.NewPolicy.{define_changes as changes_to_define, new_line, new_made, new_with};

use crate::building::define_changes;
use crate::changing::perform_all;
use crate::given::Given;
use crate::lines::{with_made, with_pin};
use crate::putting::{Before, seal_and_put};
use pcrlock_answer::Answer;
use pcrlock_line::{Reply, Stop, draw};
use pl_base::{Entropy, Files};
use std::alloc::Global;
use tpm_device::Tpm;

/// Defines the index, in place of an unwritten one where that stands.
fn define_index<F: Files, T: Tpm>(
    alloc: Global,
    files: &mut F,
    tpm: &mut T,
    given: &Given<'_>,
    stands: bool,
    pin: &[u8; 32],
) -> Result<Option<Answer>, Stop>
    requires { T.ready tpm.old ≡ true }
    ensures causes { HasCauses (F.faults files.old, 0, T.faults tpm.old, 0) (F.faults files.new, 0, T.faults tpm.new, 0) result }
    ensures readiness { IfOk result (λ _. T.ready tpm.new ≡ true) }
    ensures made { (m : Live) → Works (F.held files.old) (T.live tpm.old) (T.stored tpm.old) m
        → CameTo result (F.held files.new) (T.live tpm.new) (T.stored tpm.new) (changes_made given.now.path.now (changes_to_define stands given.now.index pin.now) m) }
{
    match define_changes(alloc, stands, given.index, pin) {
        Ok(changes) => perform_all(alloc, files, tpm, given.path, changes.as_slice()),
        Err(_) => Err(Stop::Memory),
    }
}

/// Defines the index, seals the pin, and puts the table in force.
fn make_new<F: Files, T: Tpm>(
    alloc: Global,
    files: &mut F,
    tpm: &mut T,
    given: &Given<'_>,
    old: Option<u32>,
    stands: bool,
    pin: &[u8; 32],
) -> Result<Option<Answer>, Stop>
    requires readiness { T.ready tpm.old ≡ true }
    requires index { IsIndex given.now.index }
    requires table { valid_table given.now.table.now ≡ true }
    ensures causes { HasCauses (F.faults files.old, 0, T.faults tpm.old, 0) (F.faults files.new, 0, T.faults tpm.new, 0) result }
    ensures made { (m : Live) → Works (F.held files.old) (T.live tpm.old) (T.stored tpm.old) m
        → CameTo result (F.held files.new) (T.live tpm.new) (T.stored tpm.new) (new_made given.now.path.now old stands given.now.index pin.now given.now.table.now m) }
{
    match define_index(alloc, files, tpm, given, stands, pin) {
        Ok(None) => seal_and_put(alloc, files, tpm, given, pin, old, Before::Unwritten),
        Ok(Some(answer)) => Ok(Some(answer)),
        Err(stop) => Err(stop),
    }
}

/// Puts a new policy in force with the pin, and prints `made` behind the text.
fn make_with<F: Files, T: Tpm>(
    alloc: Global,
    files: &mut F,
    tpm: &mut T,
    given: &Given<'_>,
    old: Option<u32>,
    stands: bool,
    pin: &[u8; 32],
    text: Vec<u8>,
) -> Result<Reply, Stop>
    requires readiness { T.ready tpm.old ≡ true }
    requires index { IsIndex given.now.index }
    requires table { valid_table given.now.table.now ≡ true }
    ensures causes { HasCauses (F.faults files.old, 0, T.faults tpm.old, 0) (F.faults files.new, 0, T.faults tpm.new, 0) result }
    ensures told { (words : Maybe (Sequence (Sequence ℕ))) (m : Live) → Tells (F.held files.old) (T.stored tpm.old) words (machine m) → T.live tpm.old ≡ Some m.state
        → IfOk result (λ reply. Gives (F.held files.new) (T.stored tpm.new) words reply (new_with text.items given.now.path.now old stands given.now.index given.now.table.now pin.now m)) }
    ensures stops { (words : Maybe (Sequence (Sequence ℕ))) (m : Live) → Tells (F.held files.old) (T.stored tpm.old) words (machine m) → T.live tpm.old ≡ Some m.state
        → IfErr result (λ _. StandsAmong (F.held files.new) (T.stored tpm.new) (new_with text.items given.now.path.now old stands given.now.index given.now.table.now pin.now m).stops) }
{
    let Ok(text) = with_made(text) else {
        return Err(Stop::Memory);
    };
    match make_new(alloc, files, tpm, given, old, stands, pin) {
        Ok(None) => Ok(Reply::Fine(text)),
        Ok(Some(answer)) => Ok(Reply::Refused(answer)),
        Err(stop) => Err(stop),
    }
}

/// Puts a new policy in force with a pin that is drawn, and prints the pin.
fn make_drawn<F: Files, T: Tpm, E: Entropy>(
    alloc: Global,
    files: &mut F,
    tpm: &mut T,
    entropy: &mut E,
    given: &Given<'_>,
    old: Option<u32>,
    stands: bool,
    text: Vec<u8>,
) -> Result<Reply, Stop>
    requires readiness { T.ready tpm.old ≡ true }
    requires index { IsIndex given.now.index }
    requires table { valid_table given.now.table.now ≡ true }
    ensures causes { HasCauses (F.faults files.old, E.faults entropy.old, T.faults tpm.old, 0) (F.faults files.new, E.faults entropy.new, T.faults tpm.new, 0) result }
    ensures told { (m : Live) → Tells (F.held files.old) (T.stored tpm.old) (E.draws entropy.old) (machine m) → T.live tpm.old ≡ Some m.state
        → IfOk result (λ reply. Gives (F.held files.new) (T.stored tpm.new) (E.draws entropy.new) reply (new_line text.items given.now.path.now old stands given.now.index given.now.table.now None m)) }
    ensures stops { (m : Live) → Tells (F.held files.old) (T.stored tpm.old) (E.draws entropy.old) (machine m) → T.live tpm.old ≡ Some m.state
        → IfErr result (λ _. StandsAmong (F.held files.new) (T.stored tpm.new) (new_line text.items given.now.path.now old stands given.now.index given.now.table.now None m).stops) }
{
    match draw(entropy) {
        Ok(pin) => match with_pin(alloc, text, &pin) {
            Ok(text) => make_with(alloc, files, tpm, given, old, stands, &pin, text),
            Err(_) => Err(Stop::Memory),
        },
        Err(stop) => Err(stop),
    }
}

/// Puts a new policy by the given table in force under the index, where no index or an unwritten one stands
/// there; `stands` says that an unwritten one does. The index is taken away where it stands, and
/// defined anew; the pin is sealed, bound to the index; the policy file at the path is written; then
/// the index is written, with the table's policy; and then `old`, the object that held the pin of an
/// old policy file, is taken away, where it is there. The pin is the one given, else a drawn one.
/// Behind the text it prints the line of a pin that was drawn, and `made`.
///
/// The answers for which it stops, the first whose cause holds; what it did so far stays:
///
/// | Answer | Cause |
/// |---|---|
/// | `EntropyFault` | no random word is left |
/// | `Limit`, `indices` | the TPM has 16 indices (TPM 2.0 Library Part 3, TPM2_NV_DefineSpace) |
/// | `Limit`, `objects` | it has 64 objects (TPM2_Create) |
/// | `Limit`, `handles` | all numbers of objects, 0x00800000, were used |
/// | `CounterEnd` | the counter of writes is at its end (TPM2_NV_Write) |
///
/// It stops with `WriteFault`, `EntropyFault`, `TpmFault` or `Memory` as well.
pub fn make_new_policy<F: Files, T: Tpm, E: Entropy>(
    alloc: Global,
    files: &mut F,
    tpm: &mut T,
    entropy: &mut E,
    given: &Given<'_>,
    old: Option<u32>,
    stands: bool,
    pin: Option<&[u8; 32]>,
    text: Vec<u8>,
) -> Result<Reply, Stop>
    requires readiness { T.ready tpm.old ≡ true }
    requires index { IsIndex given.now.index }
    requires table { valid_table given.now.table.now ≡ true }
    ensures causes { HasCauses (F.faults files.old, E.faults entropy.old, T.faults tpm.old, 0) (F.faults files.new, E.faults entropy.new, T.faults tpm.new, 0) result }
    ensures told { (m : Live) → Tells (F.held files.old) (T.stored tpm.old) (E.draws entropy.old) (machine m) → T.live tpm.old ≡ Some m.state
        → IfOk result (λ reply. Gives (F.held files.new) (T.stored tpm.new) (E.draws entropy.new) reply (new_line text.items given.now.path.now old stands given.now.index given.now.table.now (option_copied pin.entry) m)) }
    ensures stops { (m : Live) → Tells (F.held files.old) (T.stored tpm.old) (E.draws entropy.old) (machine m) → T.live tpm.old ≡ Some m.state
        → IfErr result (λ _. StandsAmong (F.held files.new) (T.stored tpm.new) (new_line text.items given.now.path.now old stands given.now.index given.now.table.now (option_copied pin.entry) m).stops) }
{
    match pin {
        Some(pin) => make_with(alloc, files, tpm, given, old, stands, pin, text),
        None => make_drawn(alloc, files, tpm, entropy, given, old, stands, text),
    }
}
