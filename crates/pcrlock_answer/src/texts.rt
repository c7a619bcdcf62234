ghost use Rattle.std.specs.Prelude.{◌≡◌, IfOk, string_bytes};
ghost use Rattle.pl_text.specs.Texts.{handle_text};
ghost use Rattle.pcrlock_answer.specs.Texts.{answer_text, answer_words, checked_text, enrolled_text, key_text, locked_text, pin_text, proved_text, records_text, shown, status_text, unlocked_text, unmet_text};

use crate::answer::Answer;
use hash_bank::Digest;
use pl_base::{Memory, Small};
use pl_text::write_numbers;
use policy_digest::pcrs_in;
use std::alloc::Global;
use std::fmt::Write;

/// The line that names the handle of the object that `enroll` sealed.
#[tactic(auto, unfolding(crate::specs::Texts::enrolled_text))]
pub fn enrolled_line(alloc: Global, handle: u32) -> Result<Vec<u8>, Memory>
    ensures { IfOk result (λ line. line.items ≡ enrolled_text handle) }
{
    let handle = handle_digits(alloc, handle)?;
    Ok(format!(in alloc; "enrolled {handle}\n")?.into_bytes())
}

/// The line of the key that `unseal` opened.
#[tactic(auto, unfolding(crate::specs::Texts::key_text))]
pub fn key_line(alloc: Global, key: &Small) -> Result<Vec<u8>, Memory>
    ensures { IfOk result (λ line. line.items ≡ key_text key.now) }
{
    let key = hex::encode(alloc, key.as_slice())?;
    Ok(format!(in alloc; "key {key}\n")?.into_bytes())
}

/// The line that says how many records `tpm-boot` extended the PCRs by.
#[tactic(auto, unfolding(crate::specs::Texts::records_text))]
pub fn records_line(alloc: Global, count: u32) -> Result<Vec<u8>, Memory>
    ensures { IfOk result (λ line. line.items ≡ records_text count) }
{
    Ok(format!(in alloc; "records {count}\n")?.into_bytes())
}

/// The mark that follows each line of a script, with the line's status.
#[tactic(auto, unfolding(crate::specs::Texts::status_text))]
pub fn status_line(alloc: Global, status: u8) -> Result<Vec<u8>, Memory>
    ensures { IfOk result (λ line. line.items ≡ status_text status) }
{
    Ok(format!(in alloc; "= {status}\n")?.into_bytes())
}

/// The line of a pin that `make-policy` drew.
#[tactic(auto, unfolding(crate::specs::Texts::pin_text))]
pub fn pin_line(alloc: Global, pin: &[u8; 32]) -> Result<Vec<u8>, Memory>
    ensures { IfOk result (λ line. line.items ≡ pin_text pin.now) }
{
    let pin = hex::encode(alloc, pin)?;
    Ok(format!(in alloc; "pin {pin}\n")?.into_bytes())
}

/// The line that says how many records before and behind the separators of their PCRs a lock of the firmware wrote,
/// or, with one number, how many a lock of some bytes did.
#[tactic(auto, unfolding(crate::specs::Texts::locked_text))]
pub fn locked_line(alloc: Global, early: u32, late: Option<u32>) -> Result<Vec<u8>, Memory>
    ensures { IfOk result (λ line. line.items ≡ locked_text early late) }
{
    match late {
        Some(late) => Ok(format!(in alloc; "locked {early} {late}\n")?.into_bytes()),
        None => Ok(format!(in alloc; "locked {early}\n")?.into_bytes()),
    }
}

/// The line that says how many files an unlock removed.
#[tactic(auto, unfolding(crate::specs::Texts::unlocked_text))]
pub fn unlocked_line(alloc: Global, count: u32) -> Result<Vec<u8>, Memory>
    ensures { IfOk result (λ line. line.items ≡ unlocked_text count) }
{
    Ok(format!(in alloc; "unlocked {count}\n")?.into_bytes())
}

/// The line that says how many proofs `prove` wrote.
#[tactic(auto, unfolding(crate::specs::Texts::proved_text))]
pub fn proved_line(alloc: Global, count: u32) -> Result<Vec<u8>, Memory>
    ensures { IfOk result (λ line. line.items ≡ proved_text count) }
{
    Ok(format!(in alloc; "proved {count}\n")?.into_bytes())
}

/// The line that says how many proofs `check-proof` found right.
#[tactic(auto, unfolding(crate::specs::Texts::checked_text))]
pub fn checked_line(alloc: Global, count: u32) -> Result<Vec<u8>, Memory>
    ensures { IfOk result (λ line. line.items ≡ checked_text count) }
{
    Ok(format!(in alloc; "checked {count}\n")?.into_bytes())
}

/// The line on standard error that tells an answer, with `?` in place of each control byte.
#[tactic(auto, unfolding(crate::specs::Texts::answer_text))]
pub fn answer_line(alloc: Global, answer: &Answer) -> Result<Vec<u8>, Memory>
    ensures { IfOk result (λ line. line.items ≡ answer_text answer.now) }
{
    let words = answer_words(alloc, answer)?;
    let mut line = shown(alloc, words.as_str().as_bytes())?;
    line.push(b'\n')?;
    Ok(line)
}

// A text with `?` in place of each control byte.
fn shown(alloc: Global, text: &[u8]) -> Result<Vec<u8>, Memory>
    ensures { IfOk result (λ bytes. bytes.items ≡ shown text.now) }
{
    let mut bytes = Vec::new(alloc);
    for byte in text {
        bytes.push(if byte.is_ascii_control() { b'?' } else { *byte })?;
    }
    Ok(bytes)
}

// What an answer says, in words.
#[tactic(auto, unfolding(crate::specs::Texts::answer_words))]
fn answer_words(alloc: Global, answer: &Answer) -> Result<String, Memory>
    ensures { IfOk result (λ words. string_bytes words ≡ answer_words answer.now) }
{
    match answer {
        Answer::NotForeseen { pcrs, now } => unmet_words(alloc, *pcrs, now),
        Answer::NotLiteral { pcr, now, sealed } => {
            Ok(format!(in alloc; "not literal: pcr {pcr} holds {now}, sealed to {sealed}")?)
        }
        Answer::BadWords => Ok(format!(in alloc; "bad words")?),
        Answer::Malformed { path, place } => {
            let path = path.text();
            Ok(format!(in alloc; "malformed: {path}: {place}")?)
        }
        Answer::NoSuchFile(path) => {
            let path = path.text();
            Ok(format!(in alloc; "no such file: {path}")?)
        }
        Answer::Limit { kind, number } => {
            let kind = kind.text();
            Ok(format!(in alloc; "limit: {kind} {number}")?)
        }
        Answer::CounterEnd { writes: true } => Ok(format!(in alloc; "counter at its end: writes")?),
        Answer::CounterEnd { writes: false } => Ok(format!(in alloc;
            "counter at its end: update"
        )?),
        Answer::ReadFault => Ok(format!(in alloc; "read fault")?),
        Answer::WriteFault => Ok(format!(in alloc; "write fault")?),
        Answer::EntropyFault => Ok(format!(in alloc; "entropy fault")?),
        Answer::TpmFault => Ok(format!(in alloc; "tpm fault")?),
        Answer::Memory => Ok(format!(in alloc; "no memory")?),
        Answer::NoToken(path) => {
            let path = path.text();
            Ok(format!(in alloc; "no token: {path}")?)
        }
        Answer::NoObject(handle) => {
            let handle = handle_digits(alloc, *handle)?;
            Ok(format!(in alloc; "no object: {handle}")?)
        }
        Answer::WrongBinding { session, object } => {
            Ok(format!(in alloc; "wrong binding: session {session}, object {object}")?)
        }
        Answer::SessionsFull => Ok(format!(in alloc; "sessions full: 64")?),
        Answer::BankAbsent(bank) => {
            let bank = bank.name();
            Ok(format!(in alloc; "bank absent: {bank}")?)
        }
        Answer::NoDigest {
            component,
            variant,
            place,
        } => {
            let component = component.text();
            let variant = variant.text();
            Ok(format!(in alloc; "no digest: {component} {variant} {place}")?)
        }
        Answer::NothingProtected => Ok(format!(in alloc; "nothing protected")?),
        Answer::NoPolicy(path) => {
            let path = path.text();
            Ok(format!(in alloc; "no policy: {path}")?)
        }
        Answer::NoIndex(handle) => {
            let handle = handle_digits(alloc, *handle)?;
            Ok(format!(in alloc; "no index: {handle}")?)
        }
        Answer::UnwrittenIndex(handle) => {
            let handle = handle_digits(alloc, *handle)?;
            Ok(format!(in alloc; "unwritten index: {handle}")?)
        }
        Answer::IndexTaken { handle, name } => {
            let handle = handle_digits(alloc, *handle)?;
            Ok(format!(in alloc; "index taken: {handle} {name}")?)
        }
        Answer::Outdated { index, file } => {
            Ok(format!(in alloc; "outdated: index {index}, file {file}")?)
        }
        Answer::PinRefused { given, index } => {
            Ok(format!(in alloc; "pin refused: given {given}, index {index}")?)
        }
        Answer::NoSeparator(pcr) => Ok(format!(in alloc; "no separator: pcr {pcr}")?),
        Answer::NotProved(line) => Ok(format!(in alloc; "not proved: line {line}")?),
    }
}

// The line of a row that isn't met.
fn unmet_words(alloc: Global, mask: u32, now: &Digest) -> Result<String, Memory>
    ensures { IfOk result (λ line. string_bytes line ≡ unmet_text mask now.now) }
{
    let pcrs = pcrs_in(alloc, mask)?;
    let mut line = String::new(alloc);
    match pcrs.as_slice() {
        [pcr] => write!(line, "not foreseen: pcr {pcr} holds {now}")?,
        several => {
            write!(line, "not foreseen: pcrs ")?;
            write_numbers(&mut line, several)?;
            write!(line, " hold {now}")?
        }
    }
    Ok(line)
}

// A handle as eight hexadecimal digits.
fn handle_digits(alloc: Global, handle: u32) -> Result<String, Memory>
    ensures { IfOk result (λ digits. string_bytes digits ≡ handle_text handle) }
{
    Ok(hex::encode(alloc, handle.to_be_bytes())?)
}
