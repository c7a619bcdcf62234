//! The command that a line spells.
ghost use Rattle.std.specs.Prelude.{◌≡◌};
ghost use Rattle.tpm_commands.specs.CommandLine.{command_of, command_with, nv_define_of, nv_write_of, one_handle, pcr_extend_of, pcr_read_of, policy_or_of, policy_pcr_of, restart_of, seal_of, start_session_of, two_handles};
ghost use Rattle.pl_text.specs.Parts.{parts_behind};

use crate::digests::read_digests;
use crate::group::read_group;
use crate::values::{read_pcrs, read_policy, read_small};
use crate::verb::{Verb, read_verb};
use hash_bank::Bank;
use nv_index::NvPublic;
use pl_text::{
    cut, four_parts, one_part, read_bank, read_banks, read_digest, read_handle, read_number,
    read_pin, three_parts, two_parts,
};
use tpm_model::Command;

// A handle.
fn handle(words: Option<&[u8]>) -> Option<u32>
    ensures { result ≡ one_handle (parts_behind 32 words.entry) }
{
    read_handle(one_part(words, b' ')?)
}

// Two handles.
fn handles(words: Option<&[u8]>) -> Option<(u32, u32)>
    ensures { result ≡ two_handles (parts_behind 32 words.entry) }
{
    let (first, second) = two_parts(words, b' ')?;
    let first = read_handle(first)?;
    let second = read_handle(second)?;
    Some((first, second))
}

// `restart LOCALITY BANKS`.
fn restart(words: Option<&[u8]>) -> Option<Command>
    ensures { result ≡ restart_of (parts_behind 32 words.entry) }
{
    let (locality, banks) = two_parts(words, b' ')?;
    let locality = read_number(locality, 255)? as u8;
    let banks = read_banks(banks)?;
    Some(Command::Restart { locality, banks })
}

// `pcr-extend PCR BANK:HEX,..`.
fn pcr_extend(words: Option<&[u8]>) -> Option<Command>
    ensures { result ≡ pcr_extend_of (parts_behind 32 words.entry) }
{
    let (pcr, digests) = two_parts(words, b' ')?;
    let pcr = read_number(pcr, 255)? as u8;
    let digests = read_digests(digests)?;
    Some(Command::PcrExtend { pcr, digests })
}

// `pcr-read BANK PCR`.
fn pcr_read(words: Option<&[u8]>) -> Option<Command>
    ensures { result ≡ pcr_read_of (parts_behind 32 words.entry) }
{
    let (bank, pcr) = two_parts(words, b' ')?;
    let bank = read_bank(bank)?;
    let pcr = read_number(pcr, 255)? as u8;
    Some(Command::PcrRead { bank, pcr })
}

// `start-session`, which is of SHA-256, and `start-session sha384`.
fn start_session(words: Option<&[u8]>) -> Option<Command>
    ensures { result ≡ start_session_of (parts_behind 32 words.entry) }
{
    if words.is_none() {
        return Some(Command::StartSession { hash: Bank::Sha256 });
    }
    if one_part(words, b' ')? == b"sha384".as_slice() {
        Some(Command::StartSession { hash: Bank::Sha384 })
    } else {
        None
    }
}

// `policy-pcr SESSION BANK PCRS`.
fn policy_pcr(words: Option<&[u8]>) -> Option<Command>
    ensures { result ≡ policy_pcr_of (parts_behind 32 words.entry) }
{
    let (session, bank, pcrs) = three_parts(words, b' ')?;
    let session = read_handle(session)?;
    let bank = read_bank(bank)?;
    let pcrs = read_pcrs(pcrs)?;
    Some(Command::PolicyPcr {
        session,
        bank,
        pcrs,
    })
}

// `policy-or SESSION HEX,..`.
fn policy_or(words: Option<&[u8]>) -> Option<Command>
    ensures { result ≡ policy_or_of (parts_behind 32 words.entry) }
{
    let (session, list) = two_parts(words, b' ')?;
    let session = read_handle(session)?;
    let list = read_group(list)?;
    Some(Command::PolicyOr { session, list })
}

// `nv-define INDEX ATTRIBUTES POLICY SIZE`.
fn nv_define(words: Option<&[u8]>) -> Option<Command>
    ensures { result ≡ nv_define_of (parts_behind 32 words.entry) }
{
    let (index, attributes, policy, size) = four_parts(words, b' ')?;
    let public = NvPublic {
        handle: read_handle(index)?,
        attributes: read_handle(attributes)?,
        policy: read_digest(Bank::Sha256, policy)?,
        size: read_number(size, 65535)? as u16,
    };
    Some(Command::NvDefine { public })
}

// `nv-write INDEX PIN HEX`.
fn nv_write(words: Option<&[u8]>) -> Option<Command>
    ensures { result ≡ nv_write_of (parts_behind 32 words.entry) }
{
    let (index, pin, value) = three_parts(words, b' ')?;
    let index = read_handle(index)?;
    let pin = read_pin(pin)?;
    let value = read_small(value)?;
    Some(Command::NvWrite { index, pin, value })
}

// `seal POLICY HEX`.
fn seal(words: Option<&[u8]>) -> Option<Command>
    ensures { result ≡ seal_of (parts_behind 32 words.entry) }
{
    let (policy, secret) = two_parts(words, b' ')?;
    let policy = read_policy(policy)?;
    let secret = read_small(secret)?;
    Some(Command::Seal { policy, secret })
}

// The command of a verb and the words behind it.
fn command_with(verb: Verb, words: Option<&[u8]>) -> Option<Command>
    ensures { result ≡ command_with verb (parts_behind 32 words.entry) }
{
    match verb {
        Verb::Restart => restart(words),
        Verb::PcrExtend => pcr_extend(words),
        Verb::PcrRead => pcr_read(words),
        Verb::StartSession => start_session(words),
        Verb::PolicyPcr => policy_pcr(words),
        Verb::PolicyOr => policy_or(words),
        Verb::PolicyAuthorizeNv => {
            let (session, index) = handles(words)?;
            Some(Command::PolicyAuthorizeNv { session, index })
        }
        Verb::PolicyGetDigest => {
            let session = handle(words)?;
            Some(Command::PolicyGetDigest { session })
        }
        Verb::FlushSession => {
            let session = handle(words)?;
            Some(Command::FlushSession { session })
        }
        Verb::NvDefine => nv_define(words),
        Verb::NvUndefine => {
            let index = handle(words)?;
            Some(Command::NvUndefine { index })
        }
        Verb::NvWrite => nv_write(words),
        Verb::NvRead => {
            let index = handle(words)?;
            Some(Command::NvRead { index })
        }
        Verb::NvReadPublic => {
            let index = handle(words)?;
            Some(Command::NvReadPublic { index })
        }
        Verb::Seal => seal(words),
        Verb::Evict => {
            let handle = handle(words)?;
            Some(Command::Evict { handle })
        }
        Verb::Unseal => {
            let (session, handle) = handles(words)?;
            Some(Command::Unseal { session, handle })
        }
    }
}

/// The command that a line spells: a verb and its arguments, parted by single spaces. Handles and
/// attributes are eight hexadecimal digits of either case, numbers are decimal, and commas part a list.
///
/// | Line | Command |
/// |---|---|
/// | `restart LOCALITY BANKS` | `Restart` |
/// | `pcr-extend PCR BANK:HEX,..`, each bank once | `PcrExtend` |
/// | `pcr-read BANK PCR` | `PcrRead` |
/// | `start-session` | `StartSession` of SHA-256 |
/// | `start-session sha384` | `StartSession` of SHA-384 |
/// | `policy-pcr SESSION BANK PCRS`, `-` for no PCR | `PolicyPcr` |
/// | `policy-or SESSION HEX,..`, 1 to 8 digests of 32 or 48 bytes | `PolicyOr` |
/// | `policy-authorize-nv SESSION INDEX` | `PolicyAuthorizeNv` |
/// | `policy-get-digest SESSION` | `PolicyGetDigest` |
/// | `flush-session SESSION` | `FlushSession` |
/// | `nv-define INDEX ATTRIBUTES POLICY SIZE`, a policy of 32 bytes | `NvDefine` |
/// | `nv-undefine INDEX` | `NvUndefine` |
/// | `nv-write INDEX PIN HEX`, a pin of 32 bytes, and 1 to 128 bytes | `NvWrite` |
/// | `nv-read INDEX` | `NvRead` |
/// | `nv-read-public INDEX` | `NvReadPublic` |
/// | `seal POLICY HEX`, a policy of 32 or 48 bytes, and 1 to 128 bytes | `Seal` |
/// | `evict HANDLE` | `Evict` |
/// | `unseal SESSION HANDLE` | `Unseal` |
///
/// A locality and a PCR are at most 255, those of a list of PCRs at most 23, and a size is at most
/// 65,535. No list has anything twice.
#[tactic(auto, unfolding(crate::specs::CommandLine::command_of))]
pub fn read_command(line: &[u8]) -> Option<Command>
    ensures { result ≡ command_of line.now }
{
    let (first, words) = cut(line, b' ');
    let verb = read_verb(first)?;
    command_with(verb, words)
}
