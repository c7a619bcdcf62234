//! Races on the modelled TPM: what its clients come to, and the lines of their outcomes.
ghost use Rattle.std.specs.Prelude.{◌≡◌, ◌<◌, ◌≤◌, true, length, IfOk};
ghost use Rattle.std.specs.List.{AllByRecursion};
ghost use Rattle.policy_digest.specs.Plain.{plain_table};
ghost use Rattle.policy_digest.specs.PlainTable.{root_of};
ghost use Rattle.policy_digest.specs.Table.{valid_table};
ghost use Rattle.race_core.specs.Racing.{IsEvent};

use crate::fixtures::{
    INDEX, OBJECT, PIN, VALUE, content, digest, extend, machine, other, root, table,
};
use hash_bank::{Bank, Digest};
use or_tree::build;
use pl_base::{List, Small};
use policy_digest::Table;
use policy_walk::Why;
use race_core::{Event, Outcome, Race, outcome_line, play};
use std::alloc::Global;
use std::test::Fail;
use tpm_device::{SoftTpm, Tpm};
use tpm_model::{Command, State, step};

/// An update of the index to a table.
fn update(alloc: Global, table: Table) -> Result<Event, Fail> {
    let root = root(alloc, &table)?;
    Ok(Event::Update {
        pin: PIN,
        table,
        root,
    })
}

/// An event, by a letter: a client's step by the client's number, an update to a table that allows the present value
/// and another, or a stranger's extend.
fn event(alloc: Global, letter: u8) -> Result<Event, Fail> {
    match letter {
        b'0' => Ok(Event::Step(0)),
        b'1' => Ok(Event::Step(1)),
        b'U' => update(alloc, table(alloc, &[digest(VALUE)?, other()])?),
        _ => Ok(Event::Stranger(extend())),
    }
}

/// The events of letters.
fn events(alloc: Global, letters: &[u8]) -> Result<Vec<Event>, Fail> {
    let mut list = Vec::new(alloc);
    for letter in letters {
        list.push(event(alloc, *letter)?)?;
    }
    Ok(list)
}

/// Whether the root is the table's.
fn is_root(alloc: Global, table: &Table, root: &Digest) -> bool
    ensures { result ≡ true → (valid_table table.now ≡ true) × (root.now ≡ root_of (plain_table table.now)) }
{
    table.is_valid()
        && match build(alloc, table) {
            Ok(plan) => plan.root().as_slice() == root.as_slice(),
            Err(_) => false,
        }
}

/// Whether an event is one of a race of so many clients.
fn is_event(alloc: Global, clients: u32, event: &Event) -> bool
    ensures { result ≡ true → IsEvent clients event.now }
{
    match event {
        Event::Step(client) => *client < clients,
        Event::Stranger(_) => true,
        Event::Update { table, root, .. } => is_root(alloc, table, root),
    }
}

/// Whether each event is one of a race of so many clients.
fn are_events(alloc: Global, clients: u32, events: &[Event]) -> bool
    ensures { result ≡ true → AllByRecursion (IsEvent clients) events.now }
{
    match events {
        [] => true,
        [first, others @ ..] => {
            is_event(alloc, clients, first) && are_events(alloc, clients, others)
        }
    }
}

/// A race of so many clients for the key, by the table of one value.
fn race(alloc: Global, clients: u32) -> Result<Race, Fail>
    ensures { IfOk result (λ race. length race.clients ≡ clients) }
{
    let table = table(alloc, &[digest(VALUE)?])?;
    if !table.is_valid() {
        return Err("no valid table")?;
    }
    Ok(Race::new(alloc, clients, INDEX, OBJECT, &[table])?)
}

/// The lines of the clients.
fn lines(alloc: Global, race: &Race, clients: u32) -> Result<Vec<u8>, Fail>
    requires { clients ≤ length race.now.clients }
{
    let mut text = Vec::new(alloc);
    for client in 0..clients {
        text.extend_from_slice(&outcome_line(alloc, client, &race.outcome(client))?)?;
    }
    Ok(text)
}

/// A TPM in memory for the race, which is ready.
fn device(alloc: Global) -> Result<SoftTpm, Fail>
    ensures { IfOk result (λ tpm. tpm.ready ≡ true) }
{
    let held = content(alloc, &table(alloc, &[digest(VALUE)?])?)?;
    let mut tpm = SoftTpm::new(machine(alloc, &held)?, List::new(alloc));
    if tpm.begin(alloc).is_err() || !tpm.is_ready() {
        return Err("not ready")?;
    }
    Ok(tpm)
}

/// What the clients of a race come to by the events of letters.
fn played(alloc: Global, clients: u32, letters: &[u8]) -> Result<Vec<u8>, Fail> {
    let mut race = race(alloc, clients)?;
    let mut tpm = device(alloc)?;
    let events = events(alloc, letters)?;
    if !are_events(alloc, clients, &events) {
        return Err("no events")?;
    }
    if play(alloc, &mut race, &events, &mut tpm).is_err() {
        return Err("not played")?;
    }
    lines(alloc, &race, clients)
}

#[test]
fn a_client_comes_to_the_key(rt: HostRuntime) -> Result<(), Fail> {
    let text = played(rt.alloc(), 1, b"0000000")?;
    assert_eq!(rt; text.as_slice(), b"client 0 key 00ff\n".as_slice());
    Ok(())
}

/// A PCR is extended before PolicyAuthorizeNV.
#[test]
fn an_extend_stops_a_client(rt: HostRuntime) -> Result<(), Fail> {
    let text = played(rt.alloc(), 1, b"0000E000")?;
    assert_eq!(rt; text.as_slice(), b"client 0 changed 1 2\n".as_slice());
    Ok(())
}

/// The table of the first client isn't the newest any more, and the second one takes the new table.
#[test]
fn an_update_stands_between_two_clients(rt: HostRuntime) -> Result<(), Fail> {
    let text = played(rt.alloc(), 2, b"0000U0011111111")?;
    assert_eq!(rt;
        text.as_slice(),
        b"client 0 not-newest\nclient 1 key 00ff\n".as_slice()
    );
    Ok(())
}

/// One step of the first client: whether its command was answered, and the answer taken.
fn takes_step(alloc: Global, race: &mut Race, state: &mut State) -> bool
    requires { 0 < length race.old.clients }
    ensures { length race.new.clients ≡ length race.old.clients }
{
    let event = Event::Step(0);
    match race.command(&event) {
        Some(command) => match step(alloc, state, &command) {
            Ok(response) => race.take(alloc, &event, &response).is_ok(),
            Err(_) => false,
        },
        None => false,
    }
}

/// A client's first command reads the index, and its second one starts a session.
#[test]
fn a_client_reads_the_index_first(rt: HostRuntime) -> Result<(), Fail> {
    let alloc = rt.alloc();
    let mut race = race(alloc, 1)?;
    let held = content(alloc, &table(alloc, &[digest(VALUE)?])?)?;
    let mut state = machine(alloc, &held)?;
    let event = Event::Step(0);
    assert!(rt; matches!(race.command(&event), Some(Command::NvRead { .. })));
    assert!(rt; takes_step(alloc, &mut race, &mut state));
    assert!(rt; matches!(race.command(&event), Some(Command::StartSession { .. })));
    Ok(())
}

/// Whether an outcome of a client has this line.
fn has_line(alloc: Global, client: u32, outcome: &Outcome, expected: &str) -> bool {
    match outcome_line(alloc, client, outcome) {
        Ok(line) => line.as_slice() == expected.as_bytes(),
        Err(_) => false,
    }
}

/// Whether a reason of client 1 has this line.
fn has_reason(alloc: Global, why: Why, expected: &str) -> bool {
    has_line(alloc, 1, &Outcome::Stopped(why), expected)
}

#[test]
fn outcomes_have_their_lines(rt: HostRuntime) -> Result<(), Fail> {
    let alloc = rt.alloc();
    let key = Small::from_slice(&[0x0a, 0xbc]).ok_or("two bytes")?;
    assert!(rt; has_line(alloc, 0, &Outcome::Key(key), "client 0 key 0abc\n"));
    assert!(rt; has_line(alloc, 9, &Outcome::Unfinished, "client 9 unfinished\n"));
    assert!(rt; has_line(alloc, 10, &Outcome::Outdated, "client 10 outdated\n"));
    assert!(rt; has_line(alloc, 0, &Outcome::SessionsFull, "client 0 sessions-full\n"));
    assert!(rt; has_line(alloc, 15, &Outcome::HandlesEnd, "client 15 handles-end\n"));
    Ok(())
}

#[test]
fn reasons_have_their_lines(rt: HostRuntime) {
    let alloc = rt.alloc();
    let mask = 1 << 4 | 1 << 11 | 1 << 23;
    let changed = Why::PcrChanged { noted: 1, now: 10 };
    assert!(rt;
        has_reason(
            alloc,
            Why::NotForeseen(1 << 11),
            "client 1 not-foreseen 11\n"
        )
    );
    assert!(rt;
        has_reason(
            alloc,
            Why::NotForeseen(mask),
            "client 1 not-foreseen 4,11,23\n"
        )
    );
    assert!(rt; has_reason(alloc, changed, "client 1 changed 1 10\n"));
    assert!(rt; has_reason(alloc, Why::Interfered, "client 1 interfered\n"));
    assert!(rt; has_reason(alloc, Why::NotNewest, "client 1 not-newest\n"));
}

#[test]
fn what_is_absent_has_its_line(rt: HostRuntime) {
    let alloc = rt.alloc();
    let absent = Why::BankAbsent(Bank::Sha384);
    assert!(rt; has_reason(alloc, absent, "client 1 bank-absent sha384\n"));
    let gone = Why::SessionGone(0x0300_000a);
    assert!(rt; has_reason(alloc, gone, "client 1 session-gone 0300000a\n"));
    assert!(rt; has_reason(alloc, Why::NoIndex, "client 1 no-index\n"));
    assert!(rt; has_reason(alloc, Why::Unwritten, "client 1 unwritten\n"));
    let object = Why::NoObject(0x8100_0001);
    assert!(rt; has_reason(alloc, object, "client 1 no-object 81000001\n"));
}

// The digest of an index's policy, and that of the hash of `abc`.
const SESSION: &str = "5e0726450ac9e15c3f077dd0e65fe17c69fda0a88ccb709d675213cd1a18ea39";

const HELD: &str = "ba7816bf8f01cfea414140de5dae2223b00361a396177a9cb410ff61f20015ad";

#[test]
fn a_wrong_binding_has_both_digests(rt: HostRuntime) -> Result<(), Fail> {
    let alloc = rt.alloc();
    let why = Why::WrongBinding {
        session: digest(SESSION)?,
        object: digest(HELD)?,
    };
    let expected = format!(in alloc; "client 2 wrong-binding {SESSION} {HELD}\n")?;
    assert!(rt; has_line(alloc, 2, &Outcome::Stopped(why), &expected));
    Ok(())
}
