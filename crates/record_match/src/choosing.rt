//! The first choice whose digests, joined, are a list.

ghost use Rattle.std.specs.Prelude.{◌≡◌, ◌+◌, ◌-◌, ◌<◌, ◌≤◌, false, [], length, drop, slice_index_or, is_some, IfOk, IfSome, ℕ};
ghost use Rattle.std.specs.List.{All, position_from};
ghost use Rattle.record_match.specs.Walk.{begins, first_choice, Noted, LeadBack, AllNoted, leads_on};

use hash_bank::Digest;
use pl_base::{List, Memory};
use std::alloc::Global;

/// Whether the list begins with the digests.
fn begins_with(list: &[Digest], digests: &[Digest]) -> bool
    ensures { result ≡ begins digests.now list.now }
{
    if digests.len() > list.len() {
        return false;
    }
    for (place, digest) in digests.iter().enumerate() {
        if !digest.is_same(&list[place]) {
            return false;
        }
    }
    true
}

/// Whether the place is there and is noted.
fn is_noted(noted: &[bool], place: usize) -> bool
    ensures { result ≡ slice_index_or noted.now place false }
{
    place < noted.len() && noted[place]
}

/// Whether the list begins with the digests, and the place behind them is noted. The place is asked
/// for first, as that is quick and few are noted.
fn leads(digests: &[Digest], list: &[Digest], noted: &[bool]) -> bool
    ensures { result ≡ leads_on list.now noted.now digests.now }
{
    is_noted(noted, digests.len()) && begins_with(list, digests)
}

/// The first of the alternatives with which the list begins so that the place behind it is noted.
fn first_leading(alternatives: &[List<Digest>], list: &[Digest], noted: &[bool]) -> Option<usize>
    ensures value { result ≡ position_from (leads_on list.now noted.now) 0 alternatives.now }
    ensures bound { IfSome result (λ v. v < length alternatives.now) }
{
    alternatives
        .iter()
        .position(|digests| leads(digests.as_slice(), list, noted))
}

/// The places of the list from which its end is reached by no digests: the end alone.
fn note_end(alloc: Global, list: &[Digest]) -> Result<List<bool>, Memory>
    ensures { IfOk result (λ noted. Noted [] list.now noted) }
{
    let mut noted = List::new(alloc);
    for _ in list {
        noted.push(false)?;
    }
    noted.push(true)?;
    Ok(noted)
}

/// The places of the list from which one of the alternatives leads to a noted place.
fn note_before(
    alloc: Global,
    alternatives: &[List<Digest>],
    list: &[Digest],
    noted: &[bool],
) -> Result<List<bool>, Memory>
    requires { length noted.now ≡ length list.now + 1 }
    ensures { IfOk result (λ before. LeadBack alternatives.now list.now noted.now before) }
{
    let mut before = List::new(alloc);
    for place in 0..noted.len() {
        let found = first_leading(alternatives, &list[place..], &noted[place..]);
        before.push(found.is_some())?;
    }
    Ok(before)
}

/// For each number of steps, counted from the last one back, the places of the list from which a
/// choice of these steps' alternatives explains the rest of it.
fn note_all(
    alloc: Global,
    steps: &[List<List<Digest>>],
    list: &[Digest],
) -> Result<List<List<bool>>, Memory>
    ensures { IfOk result (λ sets. AllNoted steps.now list.now (length steps.now) sets) }
{
    let mut sets = List::new(alloc);
    sets.push(note_end(alloc, list)?)?;
    for done in 0..steps.len() {
        let alternatives = steps[steps.len() - 1 - done].as_slice();
        let before = note_before(alloc, alternatives, list, sets.as_slice()[done].as_slice())?;
        sets.push(before)?;
    }
    Ok(sets)
}

/// The first choice whose digests are the list, by the places that lead to its end.
fn walk(
    alloc: Global,
    steps: &[List<List<Digest>>],
    list: &[Digest],
    sets: &[List<bool>],
) -> Result<Option<List<u32>>, Memory>
    requires few { All (λ alternatives. length alternatives ≤ 64) steps.now }
    requires noted { AllNoted steps.now list.now (length steps.now) sets.now }
    ensures { IfOk result (λ choice. choice ≡ first_choice steps.now list.now) }
{
    let mut choice = List::new(alloc);
    let mut place = 0;
    for (number, alternatives) in steps.iter().enumerate() {
        let noted = sets[steps.len() - 1 - number].as_slice();
        let alternatives = alternatives.as_slice();
        match first_leading(alternatives, &list[place..], &noted[place..]) {
            Some(variant) => {
                choice.push(variant as u32)?;
                place += alternatives[variant].len();
            }
            None => return Ok(None),
        }
    }
    if place < list.len() {
        return Ok(None);
    }
    Ok(Some(choice))
}

/// The first choice, in lexicographic order, of one alternative at each step whose digests, joined in
/// order, are the list.
pub(crate) fn choice_of(
    alloc: Global,
    steps: &[List<List<Digest>>],
    list: &[Digest],
) -> Result<Option<List<u32>>, Memory>
    requires { All (λ alternatives. length alternatives ≤ 64) steps.now }
    ensures { IfOk result (λ choice. choice ≡ first_choice steps.now list.now) }
{
    let sets = note_all(alloc, steps, list)?;
    walk(alloc, steps, list, sets.as_slice())
}
