//! The lines that tell the TPM's answers.
ghost use Rattle.std.specs.Prelude.{◌≡◌, ◌≤◌, ◌++◌, length, codes, IfOk, OnOk};
ghost use Rattle.tpm_commands.specs.Responses.{bank_absent_text, bytes_text, pcr_changed_text, public_text, refusal_text, response_text, two_bytes_text};

use hash_bank::Bank;
use nv_index::NvPublic;
use pl_base::Memory;
use pl_text::{push, push_handle, push_hex, push_number};
use std::alloc::Global;
use tpm_model::{Counter, Refusal, Response};

// Puts a word and bytes at the end of a text, as a line.
fn push_bytes_line(text: &mut Vec<u8>, word: &[u8], bytes: &[u8]) -> Result<(), Memory>
    requires { length bytes.now ≤ 128 }
    ensures { OnOk result (text.new.items ≡ text.old.items ++ bytes_text word.now bytes.now) }
{
    push(text, word)?;
    push(text, b" ")?;
    push_hex(text, bytes)?;
    push(text, b"\n")
}

// Puts a word and twice bytes at the end of a text, as a line.
fn push_two_bytes_line(
    text: &mut Vec<u8>,
    word: &[u8],
    first: &[u8],
    second: &[u8],
) -> Result<(), Memory>
    requires first { length first.now ≤ 128 }
    requires second { length second.now ≤ 128 }
    ensures { OnOk result (text.new.items ≡ text.old.items ++ two_bytes_text word.now first.now second.now) }
{
    push(text, word)?;
    push(text, b" ")?;
    push_hex(text, first)?;
    push(text, b" ")?;
    push_hex(text, second)?;
    push(text, b"\n")
}

// Puts the public area of an index at the end of a text, as a line.
fn push_public(alloc: Global, text: &mut Vec<u8>, public: &NvPublic) -> Result<(), Memory>
    ensures { OnOk result (text.new.items ≡ text.old.items ++ public_text public.now) }
{
    push(text, b"public ")?;
    push_handle(text, public.handle)?;
    push(text, b" ")?;
    push_handle(text, public.attributes)?;
    push(text, b" ")?;
    push_hex(text, public.policy.as_slice())?;
    push(text, b" ")?;
    push_number(alloc, text, u32::from(public.size))?;
    push(text, b"\n")
}

// Puts the two counts of a changed PCR at the end of a text, as a line.
fn push_pcr_changed(alloc: Global, text: &mut Vec<u8>, noted: u32, now: u32) -> Result<(), Memory>
    ensures { OnOk result (text.new.items ≡ text.old.items ++ pcr_changed_text noted now) }
{
    push(text, b"refused pcr-changed ")?;
    push_number(alloc, text, noted)?;
    push(text, b" ")?;
    push_number(alloc, text, now)?;
    push(text, b"\n")
}

// Puts the name of a bank that is absent at the end of a text, as a line.
fn push_bank_absent(text: &mut Vec<u8>, bank: Bank) -> Result<(), Memory>
    ensures { OnOk result (text.new.items ≡ text.old.items ++ bank_absent_text bank) }
{
    push(text, b"refused bank-absent ")?;
    push(text, bank.name().as_bytes())?;
    push(text, b"\n")
}

// Puts the line of a refusal at the end of a text.
fn write_refusal(alloc: Global, text: &mut Vec<u8>, refusal: &Refusal) -> Result<(), Memory>
    ensures { OnOk result (text.new.items ≡ text.old.items ++ refusal_text refusal.now) }
{
    match refusal {
        Refusal::Value => push(text, b"refused value\n"),
        Refusal::PolicyFail { session, object } => push_two_bytes_line(
            text,
            b"refused policy-fail",
            session.as_slice(),
            object.as_slice(),
        ),
        Refusal::PcrChanged { noted, now } => push_pcr_changed(alloc, text, *noted, *now),
        Refusal::Handle(handle) => {
            push_bytes_line(text, b"refused handle", &handle.to_be_bytes())
        }
        Refusal::SessionsFull => push(text, b"refused sessions-full\n"),
        Refusal::TrailFull => push(text, b"refused trail-full\n"),
        Refusal::CounterEnd(Counter::Update) => push(text, b"refused counter-end update\n"),
        Refusal::CounterEnd(Counter::Writes) => push(text, b"refused counter-end writes\n"),
        Refusal::BankAbsent(bank) => push_bank_absent(text, *bank),
        Refusal::ObjectsFull => push(text, b"refused objects-full\n"),
        Refusal::HandlesEnd => push(text, b"refused handles-end\n"),
        Refusal::SealSize => push(text, b"refused seal-size\n"),
        Refusal::Attributes => push(text, b"refused attributes\n"),
        Refusal::Size => push(text, b"refused size\n"),
        Refusal::Defined => push(text, b"refused defined\n"),
        Refusal::TableFull => push(text, b"refused table-full\n"),
        Refusal::NotDefined => push(text, b"refused not-defined\n"),
        Refusal::PinRefused { given, index } => push_two_bytes_line(
            text,
            b"refused pin-refused",
            given.as_slice(),
            index.as_slice(),
        ),
        Refusal::Uninitialized => push(text, b"refused uninitialized\n"),
    }
}

/// Puts the line of an answer at the end of a text: its name and what it tells, or `refused` and the
/// name of the refusal and what that tells. Handles and attributes are eight hexadecimal digits, counts
/// and sizes decimal, and all else is in hexadecimal digits of lower case.
///
/// For want of memory the text may end with a part of the line.
#[tactic(auto, unfolding(crate::specs::Responses::response_text))]
pub fn write_response(alloc: Global, text: &mut Vec<u8>, response: &Response) -> Result<(), Memory>
    ensures { OnOk result (text.new.items ≡ text.old.items ++ response_text response.now) }
{
    match response {
        Response::Done => push(text, b"done\n"),
        Response::Pcr(value) => push_bytes_line(text, b"pcr", value.as_slice()),
        Response::Session(handle) => push_bytes_line(text, b"session", &handle.to_be_bytes()),
        Response::PolicyDigest(digest) => push_bytes_line(text, b"digest", digest.as_slice()),
        Response::Content(content) => push_bytes_line(text, b"content", content.as_slice()),
        Response::Public(public) => push_public(alloc, text, public),
        Response::Object(handle) => push_bytes_line(text, b"object", &handle.to_be_bytes()),
        Response::Secret(secret) => push_bytes_line(text, b"secret", secret.as_slice()),
        Response::Refused(refusal) => write_refusal(alloc, text, refusal),
    }
}

/// The line of an answer, with its line feed.
pub fn response_line(alloc: Global, response: &Response) -> Result<Vec<u8>, Memory>
    ensures { IfOk result (λ line. line.items ≡ response_text response.now) }
{
    let mut line = Vec::new(alloc);
    write_response(alloc, &mut line, response)?;
    Ok(line)
}
