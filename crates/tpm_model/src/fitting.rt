//! Which answers fit a command.
ghost use Rattle.std.specs.Prelude.{◌≡◌, ◌||◌, not};
ghost use Rattle.tpm_model.specs.Fits.{fits as fits_of, has_wrong_policy as wrong_policy_of, has_wrong_value as wrong_value_of, is_done as done_of, is_policy as policy_of, is_same_bank, looks_into as looks_of, may_refuse as refuses_of, minds_extends as minds_of, names_handle as names_of, needs_index as needs_of, needs_written_index as needs_written_of, raises as raises_of};
ghost use Rattle.tpm_model.specs.PcrCommands.{is_start_locality as start_locality_of};

use crate::object::is_policy_size;
use crate::pcrs::{bank_count, is_start_locality};
use crate::sessions::is_session_hash;
use crate::{Command, Counter, Refusal, Response};
use hash_bank::Bank;
use nv_index::{CONTENT_SIZE, DEFINED_ATTRIBUTES, NvPublic, is_index_handle};

/// Whether an accepted command is answered Done.
fn is_done(command: &Command) -> bool
    ensures { result ≡ done_of command.now }
{
    matches!(
        command,
        Command::Restart { .. }
            | Command::PcrExtend { .. }
            | Command::PolicyPcr { .. }
            | Command::PolicyOr { .. }
            | Command::PolicyAuthorizeNv { .. }
            | Command::FlushSession { .. }
            | Command::NvDefine { .. }
            | Command::NvUndefine { .. }
            | Command::NvWrite { .. }
            | Command::Evict { .. }
    )
}

/// Whether a command is refused where PCRs were extended since its session looked at some.
fn minds_extends(command: &Command) -> bool
    ensures { result ≡ minds_of command.now }
{
    matches!(command, Command::PolicyPcr { .. } | Command::Unseal { .. })
}

/// Whether a command puts an entry into a trail.
fn is_policy(command: &Command) -> bool
    ensures { result ≡ policy_of command.now }
{
    matches!(
        command,
        Command::PolicyPcr { .. } | Command::PolicyOr { .. } | Command::PolicyAuthorizeNv { .. }
    )
}

/// Whether a command raises the counter.
fn raises(counter: Counter, command: &Command) -> bool
    ensures { result ≡ raises_of counter command.now }
{
    match counter {
        Counter::Update => matches!(command, Command::PcrExtend { .. }),
        Counter::Writes => matches!(command, Command::NvWrite { .. }),
    }
}

/// Whether a command looks into the bank.
fn looks_into(bank: Bank, command: &Command) -> bool
    ensures { result ≡ looks_of bank command.now }
{
    match command {
        Command::PcrRead { bank: asked, .. } | Command::PolicyPcr { bank: asked, .. } => {
            bank == *asked
        }
        _ => false,
    }
}

/// Whether a command needs an index that is there.
fn needs_index(command: &Command) -> bool
    ensures { result ≡ needs_of command.now }
{
    matches!(
        command,
        Command::PolicyAuthorizeNv { .. }
            | Command::NvUndefine { .. }
            | Command::NvWrite { .. }
            | Command::NvRead { .. }
            | Command::NvReadPublic { .. }
    )
}

/// Whether a command needs an index that was written.
fn needs_written_index(command: &Command) -> bool
    ensures { result ≡ needs_written_of command.now }
{
    matches!(
        command,
        Command::PolicyAuthorizeNv { .. } | Command::NvRead { .. }
    )
}

/// Whether a command can be refused with this handle, which it names.
fn names_handle(handle: u32, command: &Command) -> bool
    ensures { result ≡ names_of handle command.now }
{
    match command {
        Command::PolicyPcr { session, .. }
        | Command::PolicyOr { session, .. }
        | Command::PolicyAuthorizeNv { session, .. }
        | Command::PolicyGetDigest { session }
        | Command::FlushSession { session } => handle == *session,
        Command::NvDefine { public } => handle == public.handle,
        Command::Evict { handle: object } => handle == *object,
        Command::Unseal {
            session,
            handle: object,
        } => handle == *session || handle == *object,
        _ => false,
    }
}

/// Whether an index may be defined but for its policy, whose size is wrong.
fn has_wrong_policy(public: &NvPublic) -> bool
    ensures { result ≡ wrong_policy_of public.now }
{
    is_index_handle(public.handle)
        && public.attributes == DEFINED_ATTRIBUTES
        && public.size == CONTENT_SIZE
        && public.policy.as_slice().len() != 32
}

/// Whether a command can be refused with Value: PolicyOR and PolicyAuthorizeNV always, another
/// exactly where its fields give that refusal.
fn has_wrong_value(command: &Command) -> bool
    ensures { result ≡ wrong_value_of command.now }
{
    match command {
        Command::Restart { locality, banks } => !is_start_locality(*locality)
            || bank_count(*banks) == 0,
        Command::PcrExtend { pcr, .. } | Command::PcrRead { pcr, .. } => *pcr > 23,
        Command::StartSession { hash } => !is_session_hash(*hash),
        Command::PolicyPcr { pcrs, .. } => *pcrs >= 1 << 24,
        Command::PolicyOr { .. } | Command::PolicyAuthorizeNv { .. } => true,
        Command::NvDefine { public } => has_wrong_policy(public),
        Command::Seal { policy, secret } => {
            !secret.as_slice().is_empty() && !is_policy_size(policy.as_slice().len())
        }
        _ => false,
    }
}

/// Whether a refusal is one of the command's.
fn may_refuse(command: &Command, why: &Refusal) -> bool
    ensures { result ≡ refuses_of command.now why.now }
{
    match why {
        Refusal::Value => has_wrong_value(command),
        Refusal::PcrChanged { .. } => minds_extends(command),
        Refusal::Handle(handle) => names_handle(*handle, command),
        Refusal::TrailFull => is_policy(command),
        Refusal::CounterEnd(counter) => raises(*counter, command),
        Refusal::BankAbsent(bank) => looks_into(*bank, command),
        Refusal::NotDefined => needs_index(command),
        Refusal::Uninitialized => needs_written_index(command),
        Refusal::SessionsFull => matches!(command, Command::StartSession { .. }),
        Refusal::PolicyFail { .. } => matches!(command, Command::Unseal { .. }),
        Refusal::HandlesEnd => {
            matches!(command, Command::StartSession { .. } | Command::Seal { .. })
        }
        Refusal::ObjectsFull | Refusal::SealSize => matches!(command, Command::Seal { .. }),
        Refusal::Attributes | Refusal::Defined | Refusal::TableFull => {
            matches!(command, Command::NvDefine { .. })
        }
        Refusal::Size => { matches!(command, Command::NvDefine { .. } | Command::NvWrite { .. }) }
        Refusal::PinRefused { .. } => matches!(command, Command::NvWrite { .. }),
    }
}

/// Whether an answer fits a command, whatever the state: it is the one that the command gives where
/// it is accepted, or one of its refusals. A session's handle is in the range of sessions; a
/// refusal's handle and bank are those of the command, and its counter is the one that the command
/// raises. Value fits PolicyOR and PolicyAuthorizeNV always, and another command exactly where its
/// fields give that refusal.
pub fn fits(command: &Command, response: &Response) -> bool
    ensures { result ≡ fits_of command.now response.now }
{
    match response {
        Response::Done => is_done(command),
        Response::Pcr(_) => matches!(command, Command::PcrRead { .. }),
        Response::Session(handle) => {
            matches!(command, Command::StartSession { .. })
                && (0x0300_0000..=0x03FF_FFFF).contains(handle)
        }
        Response::PolicyDigest(_) => matches!(command, Command::PolicyGetDigest { .. }),
        Response::Content(_) => matches!(command, Command::NvRead { .. }),
        Response::Public(_) => matches!(command, Command::NvReadPublic { .. }),
        Response::Object(_) => matches!(command, Command::Seal { .. }),
        Response::Secret(_) => matches!(command, Command::Unseal { .. }),
        Response::Refused(why) => may_refuse(command, why),
    }
}
