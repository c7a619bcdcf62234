//! The present value of a PCR.
ghost use Rattle.std.specs.Prelude.{◌≡◌, ◌≤◌, ℕ, true, Some, length, IfOk, IfErr, IfSome};
ghost use Rattle.hash_bank.specs.Hash.{size_in};
ghost use Rattle.tpm_model.specs.declared.parts.Parts.{Parts};
ghost use Rattle.tpm_model.specs.Pcrs.{pcr_of};
ghost use Rattle.tpm_device.specs.Stored.{Holds};
ghost use Rattle.pcrlock_line.specs.Causes.{HasCauses};
ghost use Rattle.pcrlock_line.specs.PcrAnswer.{reading_of};
ghost use Rattle.pcrlock_line.specs.Running.{Runs};

use crate::Stop;
use crate::device::ask;
use hash_bank::{Bank, Digest};
use std::alloc::Global;
use tpm_device::Tpm;
use tpm_model::{Command, Refusal, Response};

/// What an answer to PcrRead tells: a value of the bank's length, or None where the bank isn't present.
/// Every other answer, which no state gives, is taken as want of memory.
fn reading(bank: Bank, response: &Response) -> Result<Option<Digest>, Stop>
    ensures value { result ≡ reading_of bank response.now }
    ensures size { IfOk result (λ found. IfSome found (λ value. length value ≡ size_in bank)) }
    ensures cause { IfErr result (λ stop. stop ≡ Stop.Memory) }
{
    match response {
        Response::Pcr(value) if value.as_slice().len() == bank.size() => Ok(Some(*value)),
        Response::Refused(Refusal::BankAbsent(_)) => Ok(None),
        _ => Err(Stop::Memory),
    }
}

/// The present value of a PCR, or None where its bank isn't present (TPM 2.0 Library Part 3,
/// TPM2_PCR_Read). The state stays as it is, and a device that answered goes on.
pub fn present_value<T: Tpm>(
    alloc: Global,
    tpm: &mut T,
    bank: Bank,
    pcr: u8,
) -> Result<Option<Digest>, Stop>
    requires readiness { T.ready tpm.old ≡ true }
    requires number { pcr ≤ 23 }
    ensures causes { HasCauses (0, 0, T.faults tpm.old, 0) (0, 0, T.faults tpm.new, 0) result }
    ensures readiness { IfOk result (λ _. T.ready tpm.new ≡ true) }
    ensures size { IfOk result (λ found. IfSome found (λ value. length value ≡ size_in bank)) }
    ensures told { (s : Parts) → Runs (T.live tpm.old) (T.stored tpm.old) s → IfOk result (λ found. found ≡ pcr_of s.banks s.pcrs bank pcr) }
    ensures runs { (s : Parts) → Runs (T.live tpm.old) (T.stored tpm.old) s → IfOk result (λ _. Runs (T.live tpm.new) (T.stored tpm.new) s) }
    ensures same { (s : Parts) → Runs (T.live tpm.old) (T.stored tpm.old) s → T.stored tpm.new ≡ Some (Holds s) }
{
    match ask(alloc, tpm, &Command::PcrRead { bank, pcr }) {
        Ok(response) => reading(bank, &response),
        Err(stop) => Err(stop),
    }
}
