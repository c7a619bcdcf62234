//! That the calls of a TPM in memory succeed, and that its planned failures come.
use hash_bank::{Bank, Banks};
use pl_base::{Fail as Planned, List};
use std::alloc::Global;
use std::test::Fail;
use tpm_device::{BeginError, SoftTpm, Tpm};
use tpm_model::{Command, Response, State};

const BANKS: Banks = Banks {
    sha1: false,
    sha256: true,
    sha384: false,
    sha512: false,
};

const START: Command = Command::StartSession { hash: Bank::Sha256 };

/// A TPM in memory that fails at this call.
fn failing_at(alloc: Global, call: u64, done: bool) -> Result<SoftTpm, Fail> {
    let mut fails = List::new(alloc);
    fails.push(Planned { call, done })?;
    Ok(SoftTpm::new(State::fresh(alloc, BANKS), fails))
}

/// Whether the next session is the one of this handle, on a TPM that is made ready for it.
fn starts(alloc: Global, tpm: &mut SoftTpm, handle: u32) -> bool {
    if tpm.begin(alloc).is_err() || !tpm.is_ready() {
        return false;
    }
    matches!(tpm.execute(alloc, &START), Ok(Response::Session(started)) if started == handle)
}

#[test]
fn a_tpm_that_never_fails_executes(rt: HostRuntime) {
    let alloc = rt.alloc();
    let mut tpm = SoftTpm::new(State::fresh(alloc, BANKS), List::new(alloc));
    assert!(rt; !tpm.is_ready());
    assert!(rt; starts(alloc, &mut tpm, 0x0300_0000));
    assert!(rt; starts(alloc, &mut tpm, 0x0300_0001));
    assert!(rt; tpm.is_ready());
}

#[test]
fn a_planned_failure_ends_readiness(rt: HostRuntime) -> Result<(), Fail> {
    let alloc = rt.alloc();
    let mut tpm = failing_at(alloc, 0, false)?;
    assert_eq!(rt; tpm.begin(alloc), Err(BeginError::Failed));
    assert!(rt; !tpm.is_ready());
    assert!(rt; starts(alloc, &mut tpm, 0x0300_0000));
    Ok(())
}

// A call that fails after it took effect leaves the next state.
#[test]
fn a_failed_command_may_have_taken_effect(rt: HostRuntime) -> Result<(), Fail> {
    let alloc = rt.alloc();
    let mut tpm = failing_at(alloc, 1, true)?;
    assert!(rt; !starts(alloc, &mut tpm, 0x0300_0000));
    assert!(rt; !tpm.is_ready());
    assert!(rt; starts(alloc, &mut tpm, 0x0300_0001));
    Ok(())
}
