//! The line of a client's outcome.
ghost use Rattle.std.specs.Prelude.{◌≡◌, ◌≤◌, ◌++◌, length, codes, IfOk, OnOk};
ghost use Rattle.std.specs.Fmt.{decimal};
ghost use Rattle.hex.specs.Hex.{encode_lower};
ghost use Rattle.hash_bank.specs.Hash.{name_in};
ghost use Rattle.pl_text.specs.Texts.{handle_text, mask_text};
ghost use Rattle.race_core.specs.OutcomeText.{client_line, outcome_text, two_texts, why_text};

use crate::outcome::Outcome;
use hash_bank::{Bank, Digest};
use pl_base::Memory;
use pl_text::{push, push_handle, push_hex, push_mask, push_number};
use policy_walk::Why;
use std::alloc::Global;

// Puts the PCRs of a row that isn't met at the end of a text.
fn push_unmet(alloc: Global, text: &mut Vec<u8>, mask: u32) -> Result<(), Memory>
    ensures { OnOk result (text.new.items ≡ text.old.items ++ (codes "not-foreseen " ++ mask_text mask)) }
{
    push(text, b"not-foreseen ")?;
    push_mask(alloc, text, mask)
}

// Puts two counts at the end of a text.
fn push_changed(alloc: Global, text: &mut Vec<u8>, noted: u32, now: u32) -> Result<(), Memory>
    ensures { OnOk result (text.new.items ≡ text.old.items ++ two_texts (codes "changed ") (decimal noted) (decimal now)) }
{
    push(text, b"changed ")?;
    push_number(alloc, text, noted)?;
    push(text, b" ")?;
    push_number(alloc, text, now)
}

// Puts two digests at the end of a text.
fn push_binding(text: &mut Vec<u8>, session: &Digest, object: &Digest) -> Result<(), Memory>
    ensures { OnOk result (text.new.items ≡ text.old.items ++ two_texts (codes "wrong-binding ") (encode_lower session.now) (encode_lower object.now)) }
{
    push(text, b"wrong-binding ")?;
    push_hex(text, session.as_slice())?;
    push(text, b" ")?;
    push_hex(text, object.as_slice())
}

// Puts a word and a handle at the end of a text.
fn push_word_handle(text: &mut Vec<u8>, word: &[u8], handle: u32) -> Result<(), Memory>
    ensures { OnOk result (text.new.items ≡ text.old.items ++ (word.now ++ handle_text handle)) }
{
    push(text, word)?;
    push_handle(text, handle)
}

// Puts a bank's name at the end of a text.
fn push_name(text: &mut Vec<u8>, bank: Bank) -> Result<(), Memory>
    ensures { OnOk result (text.new.items ≡ text.old.items ++ name_in bank) }
{
    push(text, bank.name().as_bytes())
}

// Puts a bank that isn't present at the end of a text.
fn push_bank(text: &mut Vec<u8>, bank: Bank) -> Result<(), Memory>
    ensures { OnOk result (text.new.items ≡ text.old.items ++ (codes "bank-absent " ++ name_in bank)) }
{
    push(text, b"bank-absent ")?;
    push_name(text, bank)
}

// Puts why a client stopped at the end of a text.
fn push_why(alloc: Global, text: &mut Vec<u8>, why: &Why) -> Result<(), Memory>
    ensures { OnOk result (text.new.items ≡ text.old.items ++ why_text why.now) }
{
    match why {
        Why::NotForeseen(pcrs) => push_unmet(alloc, text, *pcrs),
        Why::PcrChanged { noted, now } => push_changed(alloc, text, *noted, *now),
        Why::BankAbsent(bank) => push_bank(text, *bank),
        Why::SessionGone(session) => push_word_handle(text, b"session-gone ", *session),
        Why::Interfered => push(text, b"interfered"),
        Why::NotNewest => push(text, b"not-newest"),
        Why::NoIndex => push(text, b"no-index"),
        Why::Unwritten => push(text, b"unwritten"),
        Why::NoObject(object) => push_word_handle(text, b"no-object ", *object),
        Why::WrongBinding { session, object } => push_binding(text, session, object),
    }
}

// Puts a key at the end of a text.
fn push_key(text: &mut Vec<u8>, key: &[u8]) -> Result<(), Memory>
    requires { length key.now ≤ 128 }
    ensures { OnOk result (text.new.items ≡ text.old.items ++ (codes "key " ++ encode_lower key.now)) }
{
    push(text, b"key ")?;
    push_hex(text, key)
}

// Puts an outcome at the end of a text.
#[tactic(auto, unfolding(crate::specs::OutcomeText::outcome_text))]
fn push_outcome(alloc: Global, text: &mut Vec<u8>, outcome: &Outcome) -> Result<(), Memory>
    ensures { OnOk result (text.new.items ≡ text.old.items ++ outcome_text outcome.now) }
{
    match outcome {
        Outcome::Unfinished => push(text, b"unfinished"),
        Outcome::Key(secret) => push_key(text, secret.as_slice()),
        Outcome::Stopped(why) => push_why(alloc, text, why),
        Outcome::Outdated => push(text, b"outdated"),
        Outcome::SessionsFull => push(text, b"sessions-full"),
        Outcome::HandlesEnd => push(text, b"handles-end"),
    }
}

/// The line of a client's outcome, with its line feed: its number, and `key` with the key, `unfinished`, or one
/// word for the reason, with what it tells. Handles are eight hexadecimal digits, numbers decimal, and keys and
/// digests hexadecimal digits of lower case.
pub fn outcome_line(alloc: Global, client: u32, outcome: &Outcome) -> Result<Vec<u8>, Memory>
    ensures { IfOk result (λ line. line.items ≡ client_line client outcome.now) }
{
    let mut line = Vec::new(alloc);
    push(&mut line, b"client ")?;
    push_number(alloc, &mut line, client)?;
    push(&mut line, b" ")?;
    push_outcome(alloc, &mut line, outcome)?;
    push(&mut line, b"\n")?;
    Ok(line)
}
