//! That an object that is bound to an index is opened with ample memory, by which commands, and what is answered where
//! it isn't.
ghost use Rattle.std.specs.Prelude.{IfOk};
ghost use Rattle.policy_file.specs.PolicyText.{IsPolicy};

use crate::fixtures::{BANKS, FIRST_FILE, FIRST_HELD, INDEX, PIN, SECOND_HELD, said, small};
use crate::noting::NotingTpm;
use hash_bank::{Digest, hash_all};
use nv_index::{NvPublic, index_name};
use pcrlock_open::{open_bound, unseal};
use pl_base::{List, MemFiles, Name, Small};
use policy_digest::{pin_policy, policy_authorize_nv};
use policy_file::{Policy, read_policy};
use std::alloc::Global;
use std::test::Fail;
use tpm_device::SoftTpm;
use tpm_model::{Command, Response, State, step};

/// The policy of a table whose one row has the value of PCR 11 after one extend with the digest of `abc`.
fn policy(alloc: Global) -> Result<Policy, Fail>
    ensures { IfOk result IsPolicy }
{
    let text = hex::decode(alloc, FIRST_FILE)?;
    match read_policy(alloc, text.as_slice()) {
        Ok(policy) => Ok(policy),
        Err(_) => Err("no policy".into()),
    }
}

/// Whether a command was done.
fn is_done(alloc: Global, state: &mut State, command: &Command) -> bool {
    matches!(
        step(alloc, state, command),
        Ok(Response::Done | Response::Object(_))
    )
}

/// The public area of the index before it is written.
fn public() -> NvPublic {
    NvPublic {
        handle: INDEX,
        attributes: 0x0206_0008,
        policy: pin_policy(&PIN),
        size: 34,
    }
}

/// The policy of objects that are bound to the index, once it is written.
fn bound() -> Digest {
    policy_authorize_nv(&index_name(&NvPublic {
        attributes: 0x2206_0008,
        ..public()
    }))
}

/// How far the TPM of a test is made.
#[derive(Clone, Copy, Debug, PartialEq, Eq)]
enum Made {
    Fresh,
    Defined,
    Written,
    Extended,
}

/// A TPM whose PCR 11 was extended once, with a key that is bound to the index, and the index as far as it is made.
fn machine(alloc: Global, content: &Small, made: Made) -> Result<State, Fail> {
    let mut state = State::fresh(alloc, BANKS);
    let extend = Command::PcrExtend {
        pcr: 11,
        digests: hash_all(b"abc"),
    };
    let seal = Command::Seal {
        policy: bound(),
        secret: Small::from_slice(&[0x00, 0xff]).ok_or("two bytes")?,
    };
    let define = Command::NvDefine { public: public() };
    let write = Command::NvWrite {
        index: INDEX,
        pin: PIN,
        value: *content,
    };
    let commands = [extend, seal, define, write, extend];
    let count = match made {
        Made::Fresh => 2,
        Made::Defined => 3,
        Made::Written => 4,
        Made::Extended => 5,
    };
    for command in commands.iter().take(count) {
        if !is_done(alloc, &mut state, command) {
            return Err("not done".into());
        }
    }
    Ok(state)
}

/// What the opening of an object by the policy prints.
fn prints(alloc: Global, state: State, object: u32) -> Result<Vec<u8>, Fail> {
    let policy = policy(alloc)?;
    let path = Name::from_text(alloc, "tpm")?;
    let mut tpm = SoftTpm::new(state, List::new(alloc));
    if !(0x8100_0000..=0x817F_FFFF).contains(&object) {
        return Err("no object's handle".into());
    }
    said(alloc, open_bound(alloc, &mut tpm, &path, &policy, object))
}

/// How far the TPM is made, the object, and what is printed.
const CASES: [(Made, u32, &str); 5] = [
    (Made::Written, 0x8100_0000, "key 00ff\n"),
    (Made::Written, 0x8100_0001, "no object: 81000001\n"),
    (Made::Fresh, 0x8100_0000, "no index: 01800100\n"),
    (Made::Defined, 0x8100_0000, "unwritten index: 01800100\n"),
    (
        Made::Extended,
        0x8100_0000,
        "not foreseen: pcr 11 holds bdeb6c6dc63852834c89f67066194207ce7d3806ea40ca58dc079246ef58a926\n",
    ),
];

#[test]
fn a_bound_object_is_opened_or_refused(rt: HostRuntime) -> Result<(), Fail> {
    let alloc = rt.alloc();
    let held = small(alloc, FIRST_HELD)?;
    for (made, object, expected) in CASES {
        let state = machine(alloc, &held, made)?;
        let printed = prints(alloc, state, object)?;
        assert_eq!(rt; printed.as_slice(), expected.as_bytes());
    }
    Ok(())
}

#[test]
fn an_index_of_another_table_is_outdated(rt: HostRuntime) -> Result<(), Fail> {
    let alloc = rt.alloc();
    let held = small(alloc, SECOND_HELD)?;
    let state = machine(alloc, &held, Made::Written)?;
    let printed = prints(alloc, state, 0x8100_0000)?;
    assert!(rt; printed.as_slice().starts_with(b"outdated: index "));
    Ok(())
}

/// The token of the first object, bound to an index: `PLTOK`, version 1, the handle 0x81000000, and kind 0.
const TOKEN: &str = "504c544f4b0000018100000000";

/// The files of a bound key: its token, and the policy file.
fn key_files(alloc: Global) -> Result<MemFiles, Fail> {
    let mut files = MemFiles::new(alloc, List::new(alloc));
    let token = hex::decode(alloc, TOKEN)?;
    files.put("token", token.as_slice())?;
    let policy = hex::decode(alloc, FIRST_FILE)?;
    files.put("policy", policy.as_slice())?;
    Ok(files)
}

/// What `unseal` of the bound key prints.
fn unsealed(alloc: Global, tpm: &mut NotingTpm) -> Result<Vec<u8>, Fail> {
    let mut files = key_files(alloc)?;
    let state = Name::from_text(alloc, "tpm")?;
    let token = Name::from_text(alloc, "token")?;
    let policy = Name::from_text(alloc, "policy")?;
    said(
        alloc,
        unseal(alloc, &mut files, tpm, &state, &token, &policy),
    )
}

/// Whether these commands end with those that open the key, and none of them reads a PCR.
fn opens_without_reading(noted: &[&'static str]) -> bool {
    !noted.contains(&"PCR_Read") && noted.ends_with(&["Unseal", "FlushContext"])
}

#[test]
fn a_bound_key_is_opened_without_reading_a_pcr(rt: HostRuntime) -> Result<(), Fail> {
    let alloc = rt.alloc();
    let held = small(alloc, FIRST_HELD)?;
    let state = machine(alloc, &held, Made::Written)?;
    let mut tpm = NotingTpm::new(alloc, SoftTpm::new(state, List::new(alloc)));
    let printed = unsealed(alloc, &mut tpm)?;
    assert_eq!(rt; printed.as_slice(), b"key 00ff\n".as_slice());
    assert!(rt; opens_without_reading(tpm.noted()));
    Ok(())
}
