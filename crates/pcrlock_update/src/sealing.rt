//! A pin is sealed, bound to the index that is written with it.
ghost use Rattle.std.specs.Prelude.{◌≡◌, ◌≤◌, length, true, codes, Some, Err, IfOk, IfErr, IfSome};
ghost use Rattle.policy_file.specs.TokenText.{IsObject};
ghost use Rattle.tpm_model.specs.declared.parts.Parts.{Parts};
ghost use Rattle.tpm_model.specs.Binding.{index_policy};
ghost use Rattle.pcrlock_line.specs.Causes.{HasCauses};
ghost use Rattle.pcrlock_line.specs.Running.{Runs};
ghost use Rattle.pcrlock_update.specs.Sealed.{sealed_in as sealed_by, SealedSo};

use hash_bank::Digest;
use nv_index::{CONTENT_SIZE, NvPublic, WRITTEN_ATTRIBUTES, index_name};
use pcrlock_answer::{Answer, limit};
use pcrlock_line::{Stop, ask};
use pl_base::Small;
use policy_digest::{pin_policy, policy_authorize_nv};
use std::alloc::Global;
use tpm_device::Tpm;
use tpm_model::{Command, Refusal, Response};

/// The policy by which an index opens an object: PolicyAuthorizeNV with the Name that the index has
/// once it is written with the pin.
fn policy_of_index(index: u32, pin: &[u8; 32]) -> Digest
    ensures value { result ≡ index_policy index pin.now }
{
    let public = NvPublic {
        handle: index,
        attributes: WRITTEN_ATTRIBUTES,
        policy: pin_policy(pin),
        size: CONTENT_SIZE,
    };
    policy_authorize_nv(&index_name(&public))
}

/// The command that seals the pin.
fn seal_command(index: u32, pin: &[u8; 32]) -> Option<Command>
    ensures value { IfSome result (λ command. command ≡ Command.Seal (index_policy index pin.now) pin.now) }
    ensures short { IfSome result (λ _. length pin.now ≤ 128) }
{
    match Small::from_slice(pin) {
        Some(secret) => Some(Command::Seal {
            policy: policy_of_index(index, pin),
            secret,
        }),
        None => None,
    }
}

/// Why nothing was sealed.
fn refusal(alloc: Global, response: &Response) -> Result<Result<u32, Answer>, Stop>
    ensures told { IfOk result (λ sealed. sealed ≡ sealed_by response.now) }
    ensures none { IfOk result (λ sealed. IfOk sealed IsObject) }
    ensures cause { IfErr result (λ stop. stop ≡ Stop.Memory) }
{
    match response {
        Response::Refused(Refusal::HandlesEnd) => match limit(alloc, "handles", 0x0080_0000) {
            Ok(answer) => Ok(Err(answer)),
            Err(_) => Err(Stop::Memory),
        },
        Response::Refused(Refusal::ObjectsFull) => match limit(alloc, "objects", 65) {
            Ok(answer) => Ok(Err(answer)),
            Err(_) => Err(Stop::Memory),
        },
        _ => Err(Stop::Memory),
    }
}

/// The handle of the sealed object, or why there is none.
fn sealed_in(alloc: Global, response: &Response) -> Result<Result<u32, Answer>, Stop>
    ensures told { IfOk result (λ sealed. sealed ≡ sealed_by response.now) }
    ensures range { IfOk result (λ sealed. IfOk sealed IsObject) }
    ensures cause { IfErr result (λ stop. stop ≡ Stop.Memory) }
{
    match response {
        Response::Object(handle) if *handle >= 0x8100_0000 && *handle <= 0x817F_FFFF => {
            Ok(Ok(*handle))
        }
        _ => refusal(alloc, response),
    }
}

/// Seals the pin to the policy of the index that is written with it (TPM 2.0 Library Part 3,
/// TPM2_Create).
pub(crate) fn seal_pin<T: Tpm>(
    alloc: Global,
    tpm: &mut T,
    index: u32,
    pin: &[u8; 32],
) -> Result<Result<u32, Answer>, Stop>
    requires { T.ready tpm.old ≡ true }
    ensures causes { HasCauses (0, 0, T.faults tpm.old, 0) (0, 0, T.faults tpm.new, 0) result }
    ensures readiness { IfOk result (λ _. T.ready tpm.new ≡ true) }
    ensures range { IfOk result (λ sealed. IfOk sealed IsObject) }
    ensures sealed { (s : Parts) → Runs (T.live tpm.old) (T.stored tpm.old) s → SealedSo result (T.live tpm.new) (T.stored tpm.new) index pin.now s }
{
    let Some(command) = seal_command(index, pin) else {
        return Err(Stop::Memory);
    };
    match ask(alloc, tpm, &command) {
        Ok(response) => sealed_in(alloc, &response),
        Err(stop) => Err(stop),
    }
}
