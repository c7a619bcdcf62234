//! `tpm-extend`: one PCR is extended by the hashes of some bytes.
ghost use Rattle.std.specs.Prelude.{◌≡◌, ◌≤◌, ℕ, true, Some, Ok, Err, IfOk, IfErr};
ghost use Rattle.pl_base.specs.FileMap.{FileMap};
ghost use Rattle.std.specs.Prelude.{Option, List as Sequence};
ghost use Rattle.tpm_model.specs.declared.parts.Parts.{Parts};
ghost use Rattle.tpm_model.specs.World.{World};
ghost use Rattle.tpm_model.specs.Tied.{Tied};
ghost use Rattle.pcrlock_line.specs.Machine.{Machine, Live, Tells, machine};
ghost use Rattle.pcrlock_line.specs.Outcome.{Gives};
ghost use Rattle.pcrlock_line.specs.Stopped.{StandsAmong};
ghost use Rattle.pcrlock_line.specs.Causes.{HasCauses};
ghost use Rattle.pcrlock_tpm.specs.Extend.{tpm_extend_line, extended_line, state_after, extend_world, is_extended as extends};

use hash_bank::hash_all;
use pcrlock_answer::Answer;
use pcrlock_line::{Reply, Stop, ask, ready};
use pl_base::Name;
use std::alloc::Global;
use tpm_device::Tpm;
use tpm_model::{Command, Response};

/// Whether the extend was accepted.
fn is_done(response: &Response) -> bool
    ensures { result ≡ extends response.now }
{
    matches!(response, Response::Done)
}

/// Extends the PCR on the ready device.
fn extend<T: Tpm>(alloc: Global, tpm: &mut T, pcr: u8, bytes: &[u8]) -> Result<Reply, Stop>
    requires number { pcr ≤ 23 }
    requires readiness { T.ready tpm.old ≡ true }
    ensures causes { HasCauses (0, 0, T.faults tpm.old, 0) (0, 0, T.faults tpm.new, 0) result }
    ensures told { (held : Option FileMap) (words : Option (Sequence (Sequence ℕ))) (m : Live) → Tells held (T.stored tpm.old) words (machine m) → T.live tpm.old ≡ Some m.state
        → IfOk result (λ reply. Gives held (T.stored tpm.new) words reply (extended_line pcr bytes.now m)) }
    ensures stops { (held : Option FileMap) (words : Option (Sequence (Sequence ℕ))) (m : Live) → Tells held (T.stored tpm.old) words (machine m) → T.live tpm.old ≡ Some m.state
        → IfErr result (λ _. StandsAmong held (T.stored tpm.new) (extended_line pcr bytes.now m).stops) }
{
    let command = Command::PcrExtend {
        pcr,
        digests: hash_all(bytes),
    };
    match ask(alloc, tpm, &command) {
        Ok(response) => {
            if is_done(&response) {
                Ok(Reply::Fine(Vec::new(alloc)))
            } else {
                Ok(Reply::Refused(Answer::CounterEnd { writes: false }))
            }
        }
        Err(stop) => Err(stop),
    }
}

/// Extends the PCR, at most 23, in each present bank by that bank's hash of the bytes. The TPM's state
/// stands at the path.
#[tactic(auto, using(crate::proofs::Extends::extend_tied))]
pub fn tpm_extend<T: Tpm>(
    alloc: Global,
    tpm: &mut T,
    path: &Name,
    pcr: u8,
    bytes: &[u8],
) -> Result<Reply, Stop>
    requires { pcr ≤ 23 }
    ensures causes { HasCauses (0, 0, T.faults tpm.old, 0) (0, 0, T.faults tpm.new, 0) result }
    ensures told { (held : Option FileMap) (words : Option (Sequence (Sequence ℕ))) (m : Machine) → Tells held (T.stored tpm.old) words m
        → IfOk result (λ reply. Gives held (T.stored tpm.new) words reply (tpm_extend_line path.now pcr bytes.now m)) }
    ensures stops { (held : Option FileMap) (words : Option (Sequence (Sequence ℕ))) (m : Machine) → Tells held (T.stored tpm.old) words m
        → IfErr result (λ _. StandsAmong held (T.stored tpm.new) (tpm_extend_line path.now pcr bytes.now m).stops) }
    // A world that is tied to the state before follows the state, and stays tied.
    ensures tied { (s : Parts) (w : World) → Tied s w → Tied (state_after pcr bytes.now s) (extend_world pcr bytes.now s w) }
{
    match ready(alloc, tpm, path) {
        Ok(None) => extend(alloc, tpm, pcr, bytes),
        Ok(Some(answer)) => Ok(Reply::Refused(answer)),
        Err(stop) => Err(stop),
    }
}
