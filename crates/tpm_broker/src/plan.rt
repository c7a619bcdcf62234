//! What the broker does with a command.
ghost use Rattle.std.specs.Prelude.{◌≡◌};
ghost use Rattle.tpm_model.specs.Sessions.{is_session_hash as allowed};
ghost use Rattle.tpm_broker.specs.Clients.{tpm_handle};
ghost use Rattle.tpm_broker.specs.Served.{plan_of, session_plan, start_plan};

use crate::rows::{Rows, SESSIONS};
use hash_bank::Bank;
use tpm_model::Command;

/// What a broker does with a client's command. Definitions speak of it.
#[derive(Clone, Copy, Debug, PartialEq, Eq)]
pub enum Plan {
    /// The TPM gets it as it is.
    Pass,
    /// The TPM gets it with this handle of the session.
    PassOn(u32),
    /// The client has no session of this handle.
    NoSession(u32),
    /// No session may have the hash.
    WrongHash,
    /// The client has four sessions.
    Full,
    /// The client has had all sessions that it may have.
    End,
}

/// The number that no session of a client has any more.
const NUMBERS: u32 = 0x0100_0000;

/// Whether a session may have the hash.
fn is_session_hash(hash: Bank) -> bool
    ensures { result ≡ allowed hash }
{
    match hash {
        Bank::Sha256 | Bank::Sha384 => true,
        Bank::Sha1 | Bank::Sha512 => false,
    }
}

/// What is done with a start.
fn plan_start(rows: &Rows, hash: Bank) -> Plan
    ensures { result ≡ start_plan hash rows.now }
{
    if !is_session_hash(hash) {
        return Plan::WrongHash;
    }
    if rows.count() >= SESSIONS {
        return Plan::Full;
    }
    if rows.had() >= NUMBERS {
        return Plan::End;
    }
    Plan::Pass
}

/// What is done with a command that names a session.
fn plan_session(rows: &Rows, own: u32) -> Plan
    ensures { result ≡ session_plan own (tpm_handle own rows.now) }
{
    match rows.tpm_handle(own) {
        Some(tpm) => Plan::PassOn(tpm),
        None => Plan::NoSession(own),
    }
}

/// What is done with a command of the client.
pub(crate) fn plan_command(rows: &Rows, command: &Command) -> Plan
    ensures { result ≡ plan_of command.now rows.now }
{
    match command {
        Command::StartSession { hash } => plan_start(rows, *hash),
        Command::PolicyPcr { session, .. }
        | Command::PolicyOr { session, .. }
        | Command::PolicyAuthorizeNv { session, .. }
        | Command::PolicyGetDigest { session }
        | Command::FlushSession { session }
        | Command::Unseal { session, .. } => plan_session(rows, *session),
        Command::Restart { .. }
        | Command::PcrExtend { .. }
        | Command::PcrRead { .. }
        | Command::NvDefine { .. }
        | Command::NvUndefine { .. }
        | Command::NvWrite { .. }
        | Command::NvRead { .. }
        | Command::NvReadPublic { .. }
        | Command::Seal { .. }
        | Command::Evict { .. } => Plan::Pass,
    }
}
