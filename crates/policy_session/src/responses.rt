//! What a client takes from the TPM's answers, each of which fits its command. A refusal that no
//! state gives at that place of a walk counts as want of memory.
ghost use Rattle.std.specs.Prelude.{◌≡◌, ◌≢◌, true, Err, IfErr};
ghost use Rattle.policy_digest.specs.Policies.{IsPolicyHash};
ghost use Rattle.tpm_model.specs.Fits.{fits};
ghost use Rattle.policy_session.specs.Responses.{started as started_of, bound as bound_of, digest_read, value_read, unsealed as unsealed_of, ended as ended_of};
ghost use Rattle.policy_session.specs.LiteralUnseal.{IsNeverForeseen};

use crate::UnsealError;
use hash_bank::{Bank, Digest};
use pl_base::Small;
use tpm_model::{Command, Refusal, Response};

/// The handle of the session that was started.
pub(crate) fn started(hash: Bank, response: &Response) -> Result<u32, UnsealError>
    requires hash { IsPolicyHash hash }
    requires fitting { fits (Command.StartSession hash) response.now ≡ true }
    ensures value { result ≡ started_of response.now }
    ensures cause { result ≢ Err UnsealError.Failed }
    ensures never { IfErr result IsNeverForeseen }
{
    match response {
        Response::Session(handle) => Ok(*handle),
        Response::Refused(Refusal::SessionsFull) => Err(UnsealError::SessionsFull),
        Response::Refused(Refusal::HandlesEnd) => Err(UnsealError::HandlesEnd),
        _ => unreachable!(),
    }
}

/// Whether PolicyPCR was done.
pub(crate) fn bound(
    session: u32,
    bank: Bank,
    pcrs: u32,
    response: &Response,
) -> Result<(), UnsealError>
    requires { fits (Command.PolicyPcr session bank pcrs) response.now ≡ true }
    ensures value { result ≡ bound_of response.now }
    ensures cause { result ≢ Err UnsealError.Failed }
    ensures never { IfErr result IsNeverForeseen }
{
    match response {
        Response::Done => Ok(()),
        Response::Refused(Refusal::BankAbsent(bank)) => Err(UnsealError::BankAbsent(*bank)),
        Response::Refused(_) => Err(UnsealError::Memory),
        _ => unreachable!(),
    }
}

/// The session's digest.
pub(crate) fn session_digest(session: u32, response: &Response) -> Result<Digest, UnsealError>
    requires { fits (Command.PolicyGetDigest session) response.now ≡ true }
    ensures value { result ≡ digest_read response.now }
    ensures cause { result ≢ Err UnsealError.Failed }
    ensures never { IfErr result IsNeverForeseen }
{
    match response {
        Response::PolicyDigest(digest) => Ok(*digest),
        Response::Refused(_) => Err(UnsealError::Memory),
        _ => unreachable!(),
    }
}

/// The PCR's value.
pub(crate) fn pcr_value(bank: Bank, pcr: u8, response: &Response) -> Result<Digest, UnsealError>
    requires { fits (Command.PcrRead bank pcr) response.now ≡ true }
    ensures value { result ≡ value_read response.now }
    ensures cause { result ≢ Err UnsealError.Failed }
    ensures never { IfErr result IsNeverForeseen }
{
    match response {
        Response::Pcr(value) => Ok(*value),
        Response::Refused(_) => Err(UnsealError::Memory),
        _ => unreachable!(),
    }
}

/// The object's secret.
pub(crate) fn unsealed(session: u32, object: u32, response: &Response) -> Result<Small, UnsealError>
    requires { fits (Command.Unseal session object) response.now ≡ true }
    ensures value { result ≡ unsealed_of object response.now }
    ensures cause { result ≢ Err UnsealError.Failed }
    ensures never { IfErr result IsNeverForeseen }
{
    match response {
        Response::Secret(secret) => Ok(*secret),
        Response::Refused(Refusal::PolicyFail { session, object }) => {
            Err(UnsealError::WrongBinding {
                session: *session,
                object: *object,
            })
        }
        Response::Refused(Refusal::Handle(handle)) => {
            if *handle == object {
                Err(UnsealError::NoObject(object))
            } else {
                Err(UnsealError::Memory)
            }
        }
        Response::Refused(_) => Err(UnsealError::Memory),
        _ => unreachable!(),
    }
}

/// Whether the session was ended.
pub(crate) fn ended(session: u32, response: &Response) -> Result<(), UnsealError>
    requires { fits (Command.FlushSession session) response.now ≡ true }
    ensures value { result ≡ ended_of response.now }
    ensures cause { result ≢ Err UnsealError.Failed }
    ensures never { IfErr result IsNeverForeseen }
{
    match response {
        Response::Done => Ok(()),
        Response::Refused(_) => Err(UnsealError::Memory),
        _ => unreachable!(),
    }
}
