//! The present values of PCRs.
ghost use Rattle.std.specs.Prelude.{◌≡◌, ◌≤◌, ℕ, true, Some, length, IfOk, IfErr, IfSome};
ghost use Rattle.hash_bank.specs.Hash.{size_in};
ghost use Rattle.tpm_model.specs.declared.parts.Parts.{Parts};
ghost use Rattle.tpm_device.specs.Stored.{Stored, Holds};
ghost use Rattle.pcrlock_line.specs.Causes.{HasCauses};
ghost use Rattle.pcrlock_predict.specs.Present.{AreValues, asked_value as value_asked, present_of, values_at, values_or_absent};
ghost use Rattle.pcrlock_line.specs.Running.{Runs};

use hash_bank::{Bank, Digest};
use pcrlock_line::{Stop, present_value, ready};
use pcrlock_words::Answer;
use pl_base::{List, Name};
use policy_digest::is_in_mask;
use std::alloc::Global;
use tpm_device::Tpm;

/// The present value of a PCR that the mask asks for, and zeros for another one; None where the bank
/// isn't present. The state stays as it is.
fn asked_value<T: Tpm>(
    alloc: Global,
    tpm: &mut T,
    bank: Bank,
    asked: u32,
    pcr: u8,
) -> Result<Option<Digest>, Stop>
    requires readiness { T.ready tpm.old ≡ true }
    requires number { pcr ≤ 23 }
    ensures causes { HasCauses (0, 0, T.faults tpm.old, 0) (0, 0, T.faults tpm.new, 0) result }
    ensures readiness { IfOk result (λ _. T.ready tpm.new ≡ true) }
    ensures size { IfOk result (λ found. IfSome found (λ value. length value ≡ size_in bank)) }
    ensures told { (s : Parts) → Runs (T.live tpm.old) (T.stored tpm.old) s → IfOk result (λ found. found ≡ value_asked bank asked s pcr) }
    ensures runs { (s : Parts) → Runs (T.live tpm.old) (T.stored tpm.old) s → IfOk result (λ _. Runs (T.live tpm.new) (T.stored tpm.new) s) }
    ensures same { (s : Parts) → Runs (T.live tpm.old) (T.stored tpm.old) s → T.stored tpm.new ≡ Some (Holds s) }
{
    if is_in_mask(asked, pcr) {
        present_value(alloc, tpm, bank, pcr)
    } else {
        Ok(Some(Digest::zeros(bank)))
    }
}

/// The present values of the 24 PCRs, ascending, with zeros for those that the mask doesn't ask for;
/// None where a PCR is asked for and the bank isn't present. The state stays as it is.
fn present_values<T: Tpm>(
    alloc: Global,
    tpm: &mut T,
    bank: Bank,
    asked: u32,
) -> Result<Option<List<Digest>>, Stop>
    requires readiness { T.ready tpm.old ≡ true }
    ensures causes { HasCauses (0, 0, T.faults tpm.old, 0) (0, 0, T.faults tpm.new, 0) result }
    ensures readiness { IfOk result (λ _. T.ready tpm.new ≡ true) }
    ensures sizes { IfOk result (λ found. IfSome found (AreValues bank)) }
    ensures told { (s : Parts) → Runs (T.live tpm.old) (T.stored tpm.old) s → IfOk result (λ found. found ≡ present_of bank asked s) }
    ensures runs { (s : Parts) → Runs (T.live tpm.old) (T.stored tpm.old) s → IfOk result (λ _. Runs (T.live tpm.new) (T.stored tpm.new) s) }
    ensures same { (s : Parts) → Runs (T.live tpm.old) (T.stored tpm.old) s → T.stored tpm.new ≡ Some (Holds s) }
{
    let mut values = List::new(alloc);
    for pcr in 0..24u8 {
        match asked_value(alloc, tpm, bank, asked, pcr) {
            Ok(Some(value)) => match values.push(value) {
                Ok(()) => {}
                Err(_) => return Err(Stop::Memory),
            },
            Ok(None) => return Ok(None),
            Err(stop) => return Err(stop),
        }
    }
    Ok(Some(values))
}

/// The present values in the bank of the 24 PCRs, ascending, on the ready device; zeros stand for the PCRs that the
/// mask doesn't ask for. Or `BankAbsent` where a PCR is asked for and the state has no such bank. The state stays as
/// it is, and the device goes on.
pub fn values_ready<T: Tpm>(
    alloc: Global,
    tpm: &mut T,
    bank: Bank,
    asked: u32,
) -> Result<Result<List<Digest>, Answer>, Stop>
    requires readiness { T.ready tpm.old ≡ true }
    ensures causes { HasCauses (0, 0, T.faults tpm.old, 0) (0, 0, T.faults tpm.new, 0) result }
    ensures readiness { IfOk result (λ _. T.ready tpm.new ≡ true) }
    ensures sizes { IfOk result (λ found. IfOk found (AreValues bank)) }
    ensures told { (s : Parts) → Runs (T.live tpm.old) (T.stored tpm.old) s → IfOk result (λ found. found ≡ values_or_absent bank (present_of bank asked s)) }
    ensures runs { (s : Parts) → Runs (T.live tpm.old) (T.stored tpm.old) s → IfOk result (λ _. Runs (T.live tpm.new) (T.stored tpm.new) s) }
    ensures same { (s : Parts) → Runs (T.live tpm.old) (T.stored tpm.old) s → T.stored tpm.new ≡ Some (Holds s) }
{
    match present_values(alloc, tpm, bank, asked) {
        Ok(Some(values)) => Ok(Ok(values)),
        Ok(None) => Ok(Err(Answer::BankAbsent(bank))),
        Err(stop) => Err(stop),
    }
}

/// The present values in the bank of the 24 PCRs, ascending, over what is stored at the path; zeros
/// stand for the PCRs that the mask doesn't ask for. Or the answer where no state is stored there, and
/// `BankAbsent` where a PCR is asked for and the state has no such bank. What is stored stays.
pub(crate) fn read_values<T: Tpm>(
    alloc: Global,
    tpm: &mut T,
    path: &Name,
    bank: Bank,
    asked: u32,
) -> Result<Result<List<Digest>, Answer>, Stop>
    ensures causes { HasCauses (0, 0, T.faults tpm.old, 0) (0, 0, T.faults tpm.new, 0) result }
    ensures sizes { IfOk result (λ found. IfOk found (AreValues bank)) }
    ensures told { (kept : Stored) → T.stored tpm.old ≡ Some kept → IfOk result (λ found. found ≡ values_at path.now bank asked kept) }
    ensures same { (kept : Stored) → T.stored tpm.old ≡ Some kept → T.stored tpm.new ≡ Some kept }
{
    match ready(alloc, tpm, path) {
        Ok(None) => values_ready(alloc, tpm, bank, asked),
        Ok(Some(answer)) => Ok(Err(answer)),
        Err(stop) => Err(stop),
    }
}
