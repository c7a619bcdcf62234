//! What clients are told on a TPM in memory, and which calls they make on it.
use hash_bank::{Bank, Banks, Digest};
use pl_base::List;
use std::alloc::Global;
use std::test::Fail;
use tpm_broker::{Broker, serve};
use tpm_device::{SoftTpm, Tpm};
use tpm_model::{Command, Refusal, Response, State};

const BANKS: Banks = Banks {
    sha1: false,
    sha256: true,
    sha384: false,
    sha512: false,
};

const FIRST: u32 = 0x0300_0000;

const START: Command = Command::StartSession { hash: Bank::Sha256 };

/// A TPM that was never used, and a broker for two clients.
fn two_clients(alloc: Global) -> Result<(Broker, SoftTpm), Fail> {
    let mut tpm = SoftTpm::new(State::fresh(alloc, BANKS), List::new(alloc));
    if tpm.begin(alloc).is_err() {
        return Err("not ready".into());
    }
    Ok((Broker::new(alloc, 2)?, tpm))
}

/// An answer in a word, with the handle in it.
fn word(response: &Response) -> (&'static str, u32) {
    match response {
        Response::Done => ("done", 0),
        Response::Session(handle) => ("session", *handle),
        Response::PolicyDigest(digest) => {
            if digest.as_slice() == Digest::zeros(Bank::Sha256).as_slice() {
                ("zeros", 0)
            } else {
                ("digest", 0)
            }
        }
        Response::Refused(Refusal::Handle(handle)) => ("handle", *handle),
        _ => ("other", 0),
    }
}

/// What a client is told.
fn asks(
    alloc: Global,
    broker: &mut Broker,
    tpm: &mut SoftTpm,
    client: u32,
    command: &Command,
) -> (&'static str, u32) {
    if client >= broker.clients() || !tpm.is_ready() {
        return ("not ready", 0);
    }
    match broker.execute(alloc, client, command, tpm) {
        Ok(response) => word(&response),
        Err(_) => ("no answer", 0),
    }
}

/// How many sessions a client that leaves had.
fn leaves(alloc: Global, broker: &mut Broker, tpm: &mut SoftTpm, client: u32) -> Option<u32> {
    if client >= broker.clients() || !tpm.is_ready() {
        return None;
    }
    broker.leave(alloc, client, tpm).ok()
}

/// How many sessions a client has open.
fn open_sessions(broker: &Broker, client: u32) -> Option<u32> {
    if client >= broker.clients() {
        return None;
    }
    Some(broker.sessions(client))
}

fn digest_of(session: u32) -> Command {
    Command::PolicyGetDigest { session }
}

fn flush(session: u32) -> Command {
    Command::FlushSession { session }
}

fn look(session: u32) -> Command {
    Command::PolicyPcr {
        session,
        bank: Bank::Sha256,
        pcrs: 1 << 11,
    }
}

#[test]
fn each_client_has_handles_of_its_own(rt: HostRuntime) -> Result<(), Fail> {
    let alloc = rt.alloc();
    let (mut broker, mut tpm) = two_clients(alloc)?;
    let rows = [
        (0, START, ("session", FIRST)),
        (1, START, ("session", FIRST)),
        (1, look(FIRST), ("done", 0)),
        (0, digest_of(FIRST), ("zeros", 0)),
        (1, digest_of(FIRST), ("digest", 0)),
        (0, flush(FIRST + 1), ("handle", FIRST + 1)),
    ];
    for (client, command, answer) in &rows {
        assert_eq!(rt;
            asks(alloc, &mut broker, &mut tpm, *client, command),
            *answer
        );
    }
    Ok(())
}

#[test]
fn a_client_that_leaves_takes_its_own_sessions(rt: HostRuntime) -> Result<(), Fail> {
    let alloc = rt.alloc();
    let (mut broker, mut tpm) = two_clients(alloc)?;
    for client in [0, 1, 0] {
        let _started = asks(alloc, &mut broker, &mut tpm, client, &START);
    }
    assert_eq!(rt; leaves(alloc, &mut broker, &mut tpm, 0), Some(2));
    assert_eq!(rt; open_sessions(&broker, 0), Some(0));
    assert_eq!(rt; leaves(alloc, &mut broker, &mut tpm, 0), Some(0));
    assert_eq!(rt;
        asks(alloc, &mut broker, &mut tpm, 1, &digest_of(FIRST)),
        ("zeros", 0)
    );
    assert_eq!(rt;
        asks(alloc, &mut broker, &mut tpm, 0, &START),
        ("session", FIRST + 2)
    );
    Ok(())
}

#[test]
fn a_list_is_served_in_order(rt: HostRuntime) -> Result<(), Fail> {
    let alloc = rt.alloc();
    let (mut broker, mut tpm) = two_clients(alloc)?;
    let asked = [
        (0, START),
        (1, START),
        (1, look(FIRST)),
        (0, flush(FIRST + 1)),
    ];
    let expected = [
        ("session", FIRST),
        ("session", FIRST),
        ("done", 0),
        ("handle", FIRST + 1),
    ];
    if broker.clients() != 2 || !tpm.is_ready() {
        return Err("not ready".into());
    }
    match serve(alloc, &mut broker, &asked, &mut tpm) {
        Ok(responses) => {
            assert_eq!(rt; responses.len(), 4);
            for (response, answer) in responses.as_slice().iter().zip(expected.iter()) {
                assert_eq!(rt; word(response), *answer);
            }
        }
        Err(_) => assert!(rt; false, "no answers"),
    }
    Ok(())
}
