//! Walks against the modelled TPM: that one comes to the key, and what stops it.
use crate::fixtures::{
    INDEX, KEY, OBJECT, VALUE, content, digest, machine, other, prepared, root, table,
};
use hash_bank::Digest;
use pl_base::{Memory, Small};
use policy_walk::{
    Authorised, Branched, Finished, PrepareError, Prepared, Started, Stopped, Walk, Why, prepare,
};
use std::alloc::Global;
use std::test::Fail;
use tpm_model::{Command, Response, State, step};

/// What a walk came to.
#[derive(Clone, Copy, Debug, PartialEq, Eq)]
enum Outcome {
    Key,
    NotForeseen(u32),
    NotNewest,
    Other,
}

fn outcome_of(why: &Option<Why>) -> Outcome {
    match why {
        Some(Why::NotForeseen(pcrs)) => Outcome::NotForeseen(*pcrs),
        Some(Why::NotNewest) => Outcome::NotNewest,
        _ => Outcome::Other,
    }
}

/// Ends a walk's session, and tells why it is at its end.
fn close(alloc: Global, state: &mut State, stopped: Stopped) -> Result<Outcome, Memory> {
    let end = outcome_of(&stopped.why());
    match step(alloc, state, &stopped.command()) {
        Ok(response) => {
            stopped.flush(&response);
            Ok(end)
        }
        Err(memory) => {
            stopped.give_up();
            Err(memory)
        }
    }
}

fn is_key(secret: &Option<Small>) -> bool {
    matches!(secret, Some(secret) if secret.as_slice() == KEY.as_slice())
}

/// Ends a walk that came to the object.
fn ended(alloc: Global, state: &mut State, finished: Finished) -> Result<Outcome, Memory> {
    let Finished { secret, stopped } = finished;
    let end = close(alloc, state, stopped)?;
    if is_key(&secret) {
        Ok(Outcome::Key)
    } else {
        Ok(end)
    }
}

/// Unseal, and the end of the session.
fn unseal(alloc: Global, state: &mut State, authorised: Authorised) -> Result<Outcome, Memory> {
    match step(alloc, state, &authorised.command(OBJECT)) {
        Ok(response) => ended(alloc, state, authorised.take(OBJECT, &response)),
        Err(memory) => Err(memory),
    }
}

/// The way from the rows to the object's secret.
fn finish(alloc: Global, state: &mut State, branched: Branched) -> Result<Outcome, Memory> {
    match step(alloc, state, &branched.command()) {
        Ok(response) => match branched.take(&response) {
            Ok(authorised) => unseal(alloc, state, authorised),
            Err(stopped) => close(alloc, state, stopped),
        },
        Err(memory) => Err(memory),
    }
}

/// One command on the rows.
fn one_step(
    alloc: Global,
    state: &mut State,
    started: Started,
) -> Result<Result<Walk, Stopped>, Memory> {
    match step(alloc, state, &started.command()) {
        Ok(response) => Ok(started.take(&response)),
        Err(memory) => Err(memory),
    }
}

/// A walk over the rows, of at most eight commands.
fn walk_rows(alloc: Global, state: &mut State, started: Started) -> Result<Outcome, Memory> {
    let mut place = Walk::Started(started);
    for _ in 0..8 {
        match place {
            Walk::Started(started) => match one_step(alloc, state, started) {
                Ok(Ok(next)) => place = next,
                Ok(Err(stopped)) => return close(alloc, state, stopped),
                Err(memory) => return Err(memory),
            },
            Walk::Branched(branched) => return finish(alloc, state, branched),
        }
    }
    Ok(Outcome::Other)
}

/// A whole walk.
fn walk(alloc: Global, state: &mut State, prepared: Prepared) -> Result<Outcome, Memory> {
    match step(alloc, state, &prepared.command()) {
        Ok(response) => match prepared.take(&response) {
            Ok(started) => walk_rows(alloc, state, started),
            Err(_) => Ok(Outcome::Other),
        },
        Err(memory) => Err(memory),
    }
}

/// The row's second value is another, so the walk joins the two.
#[test]
fn a_walk_comes_to_the_key(rt: HostRuntime) -> Result<(), Fail> {
    let alloc = rt.alloc();
    let table = table(alloc, &[digest(VALUE)?, other()])?;
    let held = content(alloc, &table)?;
    let mut state = machine(alloc, &held)?;
    let outcome = walk(alloc, &mut state, prepared(alloc, table, &held)?)?;
    assert_eq!(rt; outcome, Outcome::Key);
    assert!(rt; state.sessions().is_empty());
    Ok(())
}

/// No list has the present value.
#[test]
fn a_row_that_is_not_met_stops_a_walk(rt: HostRuntime) -> Result<(), Fail> {
    let alloc = rt.alloc();
    let table = table(alloc, &[other()])?;
    let held = content(alloc, &table)?;
    let mut state = machine(alloc, &held)?;
    let outcome = walk(alloc, &mut state, prepared(alloc, table, &held)?)?;
    assert_eq!(rt; outcome, Outcome::NotForeseen(1 << 11));
    assert!(rt; state.sessions().is_empty());
    Ok(())
}

/// The index was written with another table since.
#[test]
fn another_table_stops_a_walk(rt: HostRuntime) -> Result<(), Fail> {
    let alloc = rt.alloc();
    let older = table(alloc, &[digest(VALUE)?])?;
    let older_held = content(alloc, &older)?;
    let newer_held = content(alloc, &table(alloc, &[other()])?)?;
    let mut state = machine(alloc, &newer_held)?;
    let outcome = walk(alloc, &mut state, prepared(alloc, older, &older_held)?)?;
    assert_eq!(rt; outcome, Outcome::NotNewest);
    Ok(())
}

/// Whether it is told that the content is that of no table, and which root the newest one has.
fn is_outdated(answer: &Result<Prepared, PrepareError>, held: &Small, root: &Digest) -> bool {
    match answer {
        Err(PrepareError::Outdated { content, newest }) => {
            content.as_slice() == held.as_slice() && newest.as_slice() == root.as_slice()
        }
        _ => false,
    }
}

#[test]
fn a_content_of_no_table_is_outdated(rt: HostRuntime) -> Result<(), Fail> {
    let alloc = rt.alloc();
    let older = table(alloc, &[digest(VALUE)?])?;
    let newer = table(alloc, &[digest(VALUE)?, other()])?;
    let held = content(alloc, &table(alloc, &[other()])?)?;
    let newest = root(alloc, &newer)?;
    if !older.is_valid() || !newer.is_valid() {
        return Err("no valid table")?;
    }
    let answer = prepare(alloc, &[older, newer], INDEX, &held);
    assert!(rt; is_outdated(&answer, &held, &newest));
    Ok(())
}
