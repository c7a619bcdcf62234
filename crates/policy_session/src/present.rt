//! The values of PCRs that a refusal shows.
ghost use Rattle.std.specs.Prelude.{◌≡◌, ℕ, ◌≤◌, Bool, true, List, Some, Ok, Err, IfErr};
ghost use Rattle.pl_base.specs.Faults.{HasCause};
ghost use Rattle.hash_bank.specs.Banks.{has_bank};
ghost use Rattle.tpm_model.specs.declared.parts.Parts.{Parts};
ghost use Rattle.tpm_model.specs.declared.sessions.Session.{Session};
ghost use Rattle.tpm_model.specs.Pcrs.{pcr_of};
ghost use Rattle.policy_session.specs.Answers.{is_answer as answers};
ghost use Rattle.policy_session.specs.BoundUnseal.{IsNeverLiteral, present_values, shown as shown_of};
ghost use Rattle.policy_session.specs.OpenSession.{IsOpen, with_open};
ghost use Rattle.policy_session.specs.Ran.{Gives, Ran};
ghost use Rattle.tpm_device.specs.Running.{IsLive};

use crate::UnsealError;
use crate::responses::pcr_value;
use crate::steps::ask;
use hash_bank::{Bank, Digest};
use policy_digest::values_digest;
use std::alloc::Global;
use tpm_device::Tpm;
use tpm_model::Command;

/// The number of PCRs (TCG PC Client Platform Firmware Profile).
const PCRS: u8 = 24;

/// Reads a PCR's value while a session is open.
fn read_pcr<T: Tpm>(alloc: Global, tpm: &mut T, bank: Bank, pcr: u8) -> Result<Digest, UnsealError>
    requires readiness { T.ready tpm.old ≡ true }
    requires pcr { pcr ≤ 23 }
    ensures cause { HasCause (T.faults tpm.old) (T.faults tpm.new) (result ≡ Err UnsealError.Failed) }
    ensures never { IfErr result IsNeverLiteral }
    ensures readiness { answers result ≡ true → T.ready tpm.new ≡ true }
    ensures ran { (s : Parts) (x : Session) (session : ℕ) (keeps : Bool) (now : List ℕ) → IsLive keeps (with_open x s) (T.live tpm.old) (T.stored tpm.old) → IsOpen session x s
        → pcr_of s.banks s.pcrs bank pcr ≡ Some now
        → Ran s keeps (Gives (Ok now) (with_open x s)) result (T.ready tpm.new) (T.live tpm.new) (T.stored tpm.new) }
{
    match ask(alloc, tpm, &Command::PcrRead { bank, pcr }) {
        Ok(response) => pcr_value(bank, pcr, &response),
        Err(error) => Err(error),
    }
}

/// What a refusal shows of the values: of one PCR its value, of several the digest of their values.
fn shown(values: &[Digest]) -> Digest
    ensures { result ≡ shown_of values.now }
{
    match values {
        [only] => *only,
        several => values_digest(several),
    }
}

/// Reads the values of the mask's PCRs, and gives what a refusal shows of them.
pub(crate) fn read_present<T: Tpm>(
    alloc: Global,
    tpm: &mut T,
    bank: Bank,
    pcrs: u32,
) -> Result<Digest, UnsealError>
    requires { T.ready tpm.old ≡ true }
    ensures cause { HasCause (T.faults tpm.old) (T.faults tpm.new) (result ≡ Err UnsealError.Failed) }
    ensures never { IfErr result IsNeverLiteral }
    ensures readiness { answers result ≡ true → T.ready tpm.new ≡ true }
    ensures ran { (s : Parts) (x : Session) (session : ℕ) (keeps : Bool) → IsLive keeps (with_open x s) (T.live tpm.old) (T.stored tpm.old) → IsOpen session x s
        → has_bank s.banks bank ≡ true
        → Ran s keeps (Gives (Ok (shown_of (present_values bank s pcrs))) (with_open x s)) result (T.ready tpm.new) (T.live tpm.new) (T.stored tpm.new) }
{
    let mut values = [Digest::zeros(Bank::Sha1); PCRS as usize];
    let mut count = 0;
    let mut left = pcrs;
    for pcr in 0..PCRS {
        let is_asked = left % 2 == 1;
        left /= 2;
        if !is_asked {
            continue;
        }
        match read_pcr(alloc, tpm, bank, pcr) {
            Ok(value) => values[count] = value,
            Err(error) => return Err(error),
        }
        count += 1;
    }
    Ok(shown(&values[..count]))
}
