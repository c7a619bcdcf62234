//! A policy that is made, updated and removed with ample memory; what stands after a fault.
use crate::fixtures::{BANKS, FIRST_FILE, FIRST_HELD, INDEX, PIN, SECOND_HELD, small};
use hash_bank::{Bank, Digest};
use nv_index::NvPublic;
use pcrlock_answer::Answer;
use pcrlock_deeds::policy_at;
use pcrlock_line::{Reply, Stop};
use pcrlock_update::{
    Given, make_new_policy, remove_policy, test_standing, update_policy, update_with_pin,
};
use pl_base::{Entropy, Fail as Planned, Files, List, ListEntropy, MemFiles, Name, Small};
use policy_digest::{Row, Table, Values, pin_policy};
use policy_file::read_policy;
use std::alloc::Global;
use std::test::Fail;
use tpm_device::{SoftTpm, Tpm};
use tpm_model::{Command, Response, State};

const OTHER: [u8; 32] = [2; 32];

// PCR 11 in SHA-256 after one and after two extends with the digest of `abc`.
const FIRST: &str = "589f9ffed4c477966bfb8d41f37895b08c69047df8f911d6f3b57fbe08faee8d";

const SECOND: &str = "bdeb6c6dc63852834c89f67066194207ce7d3806ea40ca58dc079246ef58a926";

/// The table of one value of PCR 11.
fn table(alloc: Global, value: &str) -> Result<Table, Fail> {
    let mut list = Vec::new(alloc);
    list.push(Digest::from_hex(Bank::Sha256, value)?)?;
    let mut choices = List::new(alloc);
    choices.push(Values::from_vec(list).ok_or("no values")?)?;
    let mut rows = List::new(alloc);
    rows.push(Row {
        pcrs: 1 << 11,
        choices,
    })?;
    Ok(Table {
        bank: Bank::Sha256,
        rows,
    })
}

/// What a command replied, in a word.
fn word(reply: &Result<Reply, Stop>) -> &'static str {
    match reply {
        Ok(Reply::Fine(text)) if text.as_slice() == &b"made\n"[..] => "made",
        Ok(Reply::Fine(text)) if text.as_slice() == &b"updated\n"[..] => "updated",
        Ok(Reply::Fine(text)) if text.as_slice() == &b"removed\n"[..] => "removed",
        Ok(Reply::Fine(_)) => "another text",
        Ok(Reply::Refused(Answer::NoPolicy(_))) => "no policy",
        Ok(Reply::Refused(_)) => "refused",
        Err(Stop::WriteFault) => "write fault",
        Err(_) => "stopped",
    }
}

/// Makes a policy of the value with the given pin, over a device that is made ready for it.
fn make(
    alloc: Global,
    files: &mut MemFiles,
    tpm: &mut SoftTpm,
    value: &str,
) -> Result<&'static str, Fail> {
    let table = table(alloc, value)?;
    let path = Name::from_text(alloc, "p")?;
    let mut entropy = ListEntropy::new(List::new(alloc), List::new(alloc));
    if tpm.begin(alloc).is_err() || !tpm.is_ready() || !table.is_valid() {
        return Err("not ready")?;
    }
    let given = Given {
        path: &path,
        index: INDEX,
        table: &table,
    };
    Ok(word(&make_new_policy(
        alloc,
        files,
        tpm,
        &mut entropy,
        &given,
        None,
        false,
        Some(&PIN),
        Vec::new(alloc),
    )))
}

/// The content in an answer.
fn content_in(response: &Response) -> Option<Small> {
    match response {
        Response::Content(content) => Some(*content),
        _ => None,
    }
}

/// Whether the index holds this, which is given in hexadecimal.
fn holds(alloc: Global, tpm: &mut SoftTpm, expected: &str) -> Result<bool, Fail> {
    let expected = hex::decode(alloc, expected)?;
    if tpm.begin(alloc).is_err() || !tpm.is_ready() {
        return Err("not ready")?;
    }
    let Ok(response) = tpm.execute(alloc, &Command::NvRead { index: INDEX }) else {
        return Err("no answer")?;
    };
    match content_in(&response) {
        Some(content) => Ok(content.as_slice() == expected.as_slice()),
        None => Ok(false),
    }
}

/// Whether the file at `p` has these bytes, which are given in hexadecimal.
fn has_bytes(alloc: Global, files: &mut MemFiles, expected: &str) -> Result<bool, Fail> {
    let expected = hex::decode(alloc, expected)?;
    match files.read(alloc, "p", 4096) {
        Ok(bytes) => Ok(bytes.as_slice() == expected.as_slice()),
        Err(_) => Ok(false),
    }
}

/// What removing the policy replies.
fn remove(alloc: Global, files: &mut MemFiles, tpm: &mut SoftTpm) -> Result<&'static str, Fail> {
    let path = Name::from_text(alloc, "p")?;
    let state = Name::from_text(alloc, "s")?;
    Ok(word(&remove_policy(alloc, files, tpm, &state, &path)))
}

#[test]
fn a_policy_is_made_and_removed_once(rt: HostRuntime) -> Result<(), Fail> {
    let alloc = rt.alloc();
    let mut files = MemFiles::new(alloc, List::new(alloc));
    let mut tpm = SoftTpm::new(State::fresh(alloc, BANKS), List::new(alloc));
    assert_eq!(rt; remove(alloc, &mut files, &mut tpm)?, "no policy");
    assert_eq!(rt; make(alloc, &mut files, &mut tpm, FIRST)?, "made");
    assert!(rt; has_bytes(alloc, &mut files, FIRST_FILE)?);
    assert!(rt; holds(alloc, &mut tpm, FIRST_HELD)?);
    assert_eq!(rt; remove(alloc, &mut files, &mut tpm)?, "removed");
    assert_eq!(rt; remove(alloc, &mut files, &mut tpm)?, "no policy");
    Ok(())
}

/// Puts the table of the value in force under the index that stands, with the pin anew or with the one of
/// the policy's object.
fn update(
    alloc: Global,
    files: &mut MemFiles,
    tpm: &mut SoftTpm,
    value: &str,
    anew: bool,
) -> Result<&'static str, Fail> {
    let table = table(alloc, value)?;
    let path = Name::from_text(alloc, "p")?;
    let content = small(alloc, FIRST_HELD)?;
    let Ok(Ok(Some(policy))) = policy_at(alloc, files, &path) else {
        return Err("no policy")?;
    };
    if tpm.begin(alloc).is_err() || !tpm.is_ready() || !table.is_valid() {
        return Err("not ready")?;
    }
    let text = Vec::new(alloc);
    if anew {
        let given = Given {
            path: &path,
            index: INDEX,
            table: &table,
        };
        Ok(word(&update_with_pin(
            alloc,
            files,
            tpm,
            &given,
            Some(&policy),
            &PIN,
            &content,
            text,
        )))
    } else {
        Ok(word(&update_policy(
            alloc, files, tpm, &path, &policy, &PIN, &content, &table, text,
        )))
    }
}

/// How many tables the policy file has.
fn tables_left(alloc: Global, files: &mut MemFiles) -> Result<usize, Fail> {
    let path = Name::from_text(alloc, "p")?;
    match policy_at(alloc, files, &path) {
        Ok(Ok(Some(policy))) => Ok(policy.tables.len()),
        _ => Ok(0),
    }
}

#[test]
fn a_policy_is_updated_with_a_given_pin(rt: HostRuntime) -> Result<(), Fail> {
    let alloc = rt.alloc();
    let mut files = MemFiles::new(alloc, List::new(alloc));
    let mut tpm = SoftTpm::new(State::fresh(alloc, BANKS), List::new(alloc));
    assert_eq!(rt; make(alloc, &mut files, &mut tpm, FIRST)?, "made");
    assert_eq!(rt;
        update(alloc, &mut files, &mut tpm, SECOND, true)?,
        "updated"
    );
    assert!(rt; holds(alloc, &mut tpm, SECOND_HELD)?);
    assert_eq!(rt; tables_left(alloc, &mut files)?, 1);
    Ok(())
}

#[test]
fn a_second_write_that_fails_leaves_the_new_table_in_force(rt: HostRuntime) -> Result<(), Fail> {
    let alloc = rt.alloc();
    // The file is written as the policy is made, and read; then one write is done, and the next one fails.
    let mut fails = List::new(alloc);
    fails.push(Planned {
        call: 3,
        done: false,
    })?;
    let mut files = MemFiles::new(alloc, fails);
    let mut tpm = SoftTpm::new(State::fresh(alloc, BANKS), List::new(alloc));
    assert_eq!(rt; make(alloc, &mut files, &mut tpm, FIRST)?, "made");
    assert_eq!(rt;
        update(alloc, &mut files, &mut tpm, SECOND, false)?,
        "write fault"
    );
    assert!(rt; holds(alloc, &mut tpm, SECOND_HELD)?);
    assert_eq!(rt; tables_left(alloc, &mut files)?, 2);
    Ok(())
}

/// What the test of an index says that was written with the pin, by the policy file of the first table.
fn tested(alloc: Global, given: Option<&[u8; 32]>, value: &str) -> Result<&'static str, Fail> {
    let new = table(alloc, value)?;
    let file = hex::decode(alloc, FIRST_FILE)?;
    let policy = read_policy(alloc, file.as_slice()).or(Err("no policy"))?;
    let public = NvPublic {
        handle: INDEX,
        attributes: 0x2206_0008,
        policy: pin_policy(&PIN),
        size: 34,
    };
    let content = small(alloc, FIRST_HELD)?;
    if !new.is_valid() {
        return Err("no valid table")?;
    }
    match test_standing(alloc, Some(&policy), given, false, &public, &content, &new) {
        Ok(Ok(true)) => Ok("unchanged"),
        Ok(Ok(false)) => Ok("to be changed"),
        Ok(Err(Answer::PinRefused { .. })) => Ok("pin refused"),
        _ => Ok("another answer"),
    }
}

#[test]
fn a_standing_index_is_tested(rt: HostRuntime) -> Result<(), Fail> {
    let alloc = rt.alloc();
    assert_eq!(rt; tested(alloc, None, FIRST)?, "unchanged");
    assert_eq!(rt; tested(alloc, None, SECOND)?, "to be changed");
    assert_eq!(rt; tested(alloc, Some(&OTHER), FIRST)?, "pin refused");
    Ok(())
}
