//! The script that a request runs.
ghost use Rattle.std.specs.Prelude.{◌≡◌, IfSome};
ghost use Rattle.pcrlock_words.specs.ProperRequest.{IsIndex, IsProperRequest};
ghost use Rattle.pcrlock_run.specs.Whole.{script_in, scripted};

use crate::setting::Script;
use pcrlock_words::Request;

/// The script that the request runs, if it is a script's.
pub fn script_of(request: &Request) -> Option<Script<'_>>
    requires { IsProperRequest request.now }
    ensures told { scripted result ≡ script_in request.now }
    ensures proper { IfSome result (λ script. IsIndex script.index) }
{
    match request {
        Request::Script {
            file,
            policy,
            index,
        } => Some(Script {
            file,
            policy,
            index: *index,
        }),
        Request::Cel { .. }
        | Request::ListComponents { .. }
        | Request::Predict { .. }
        | Request::Enroll { .. }
        | Request::Unseal { .. }
        | Request::TpmBoot { .. }
        | Request::Log { .. }
        | Request::TpmExec { .. }
        | Request::TpmExtend { .. }
        | Request::MakePolicy { .. }
        | Request::RemovePolicy { .. }
        | Request::Race { .. }
        | Request::Gen { .. }
        | Request::LockFirmwareCode { .. }
        | Request::LockFirmwareConfig { .. }
        | Request::UnlockFirmwareCode { .. }
        | Request::UnlockFirmwareConfig { .. }
        | Request::LockRaw { .. }
        | Request::Broker { .. }
        | Request::Prove { .. }
        | Request::CheckProof { .. } => None,
    }
}
