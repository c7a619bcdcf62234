//! That an object that is sealed to one value is opened, and some refusals.
use crate::fixtures::{KEY, OBJECT, SHA256_ALONE, VALUE, digest, extend, is_done};
use hash_bank::{Bank, Digest};
use pl_base::{List, Small};
use policy_digest::{policy_pcr, values_digest};
use policy_session::{Literal, UnsealError, unseal_literal};
use std::alloc::Global;
use std::test::Fail;
use tpm_device::{SoftTpm, Tpm};
use tpm_model::{Command, State};

/// An answer in a word.
fn word(answer: &Result<Small, UnsealError>) -> &'static str {
    match answer {
        Ok(key) if key.as_slice() == KEY.as_slice() => "key",
        Err(UnsealError::NotLiteral { .. }) => "not literal",
        Err(UnsealError::WrongBinding { .. }) => "wrong binding",
        _ => "another answer",
    }
}

/// What the opening of the object answers, on a TPM with this state, where it is said to be sealed to the value.
fn opened(alloc: Global, state: State, value: &Digest) -> &'static str {
    let mut tpm = SoftTpm::new(state, List::new(alloc));
    if tpm.begin(alloc).is_err() || !tpm.is_ready() || value.as_slice().len() != 32 {
        return "not ready";
    }
    let literal = Literal {
        hash: Bank::Sha256,
        bank: Bank::Sha256,
        pcr: 11,
        value: *value,
    };
    word(&unseal_literal(alloc, &mut tpm, &literal, OBJECT))
}

/// A TPM whose PCR 11 was extended once, with the key sealed to this policy.
fn sealed(alloc: Global, policy: Digest) -> Result<State, Fail> {
    let mut state = State::fresh(alloc, SHA256_ALONE);
    let secret = Small::from_slice(&KEY).ok_or("two bytes")?;
    if is_done(alloc, &mut state, &extend())
        && is_done(alloc, &mut state, &Command::Seal { policy, secret })
    {
        Ok(state)
    } else {
        Err("no object")?
    }
}

/// The policy of PCR 11's value.
fn policy_of(value: &Digest) -> Digest {
    let zeros = Digest::zeros(Bank::Sha256);
    policy_pcr(&zeros, Bank::Sha256, 1 << 11, &values_digest(&[*value]))
}

#[test]
fn an_object_is_opened_at_its_value(rt: HostRuntime) -> Result<(), Fail> {
    let alloc = rt.alloc();
    let value = digest(VALUE)?;
    let state = sealed(alloc, policy_of(&value))?;
    assert_eq!(rt; opened(alloc, state, &value), "key");
    Ok(())
}

#[test]
fn another_value_and_another_policy_are_refused(rt: HostRuntime) -> Result<(), Fail> {
    let alloc = rt.alloc();
    let zeros = Digest::zeros(Bank::Sha256);
    let state = sealed(alloc, policy_of(&zeros))?;
    assert_eq!(rt; opened(alloc, state, &zeros), "not literal");
    let state = sealed(alloc, zeros)?;
    assert_eq!(rt; opened(alloc, state, &digest(VALUE)?), "wrong binding");
    Ok(())
}
