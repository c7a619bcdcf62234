//! Commands and answers with another handle of the session.
ghost use Rattle.std.specs.Prelude.{◌≡◌};
ghost use Rattle.tpm_broker.specs.Served.{handle_told as handle_told_of, on_session as on_session_of, told as told_of};

use crate::rows::Rows;
use tpm_model::{Command, Refusal, Response};

/// The command with this session in place of the one that it names.
pub(crate) fn on_session(command: &Command, session: u32) -> Command
    ensures { result ≡ on_session_of session command.now }
{
    match *command {
        Command::PolicyPcr { bank, pcrs, .. } => Command::PolicyPcr {
            session,
            bank,
            pcrs,
        },
        Command::PolicyOr { list, .. } => Command::PolicyOr { session, list },
        Command::PolicyAuthorizeNv { index, .. } => Command::PolicyAuthorizeNv { session, index },
        Command::PolicyGetDigest { .. } => Command::PolicyGetDigest { session },
        Command::FlushSession { .. } => Command::FlushSession { session },
        Command::Unseal { handle, .. } => Command::Unseal { session, handle },
        Command::Restart { .. }
        | Command::PcrExtend { .. }
        | Command::PcrRead { .. }
        | Command::StartSession { .. }
        | Command::NvDefine { .. }
        | Command::NvUndefine { .. }
        | Command::NvWrite { .. }
        | Command::NvRead { .. }
        | Command::NvReadPublic { .. }
        | Command::Seal { .. }
        | Command::Evict { .. } => *command,
    }
}

/// A handle that the TPM refused, as the client calls it.
fn handle_told(command: &Command, handle: u32) -> u32
    ensures { result ≡ handle_told_of command.now handle }
{
    match command {
        Command::PolicyPcr { session, .. }
        | Command::PolicyOr { session, .. }
        | Command::PolicyAuthorizeNv { session, .. }
        | Command::PolicyGetDigest { session }
        | Command::FlushSession { session } => *session,
        Command::Unseal { handle: object, .. } if handle == *object => handle,
        Command::Unseal { session, .. } => *session,
        Command::Restart { .. }
        | Command::PcrExtend { .. }
        | Command::PcrRead { .. }
        | Command::StartSession { .. }
        | Command::NvDefine { .. }
        | Command::NvUndefine { .. }
        | Command::NvWrite { .. }
        | Command::NvRead { .. }
        | Command::NvReadPublic { .. }
        | Command::Seal { .. }
        | Command::Evict { .. } => handle,
    }
}

/// The TPM's answer, as the client is told it.
pub(crate) fn told(rows: &Rows, command: &Command, response: &Response) -> Response
    ensures { result ≡ told_of command.now rows.now response.now }
{
    match response {
        Response::Session(_) => Response::Session(rows.next_handle()),
        Response::Refused(Refusal::Handle(handle)) => {
            Response::Refused(Refusal::Handle(handle_told(command, *handle)))
        }
        Response::Refused(why) => Response::Refused(*why),
        accepted => *accepted,
    }
}
