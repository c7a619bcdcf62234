//! The first component that a list of digests lacks.

ghost use Rattle.std.specs.Prelude.{◌≡◌, ◌≤◌, ◌<◌, length, IfSome};
ghost use Rattle.std.specs.List.{position_from};
ghost use Rattle.std.specs.Str.{bytes_eq};
ghost use Rattle.record_match.specs.Follow.{found_from, followed_from, sooner, earliest_from, missing_from};

use hash_bank::Digest;
use pl_base::List;

/// The place of the first digest of the list that is this one.
fn place_of(list: &[Digest], digest: &Digest) -> Option<usize>
    ensures value { result ≡ position_from (bytes_eq digest.now) 0 list.now }
    ensures bound { IfSome result (λ k. k < length list.now) }
{
    list.iter().position(|held| digest.is_same(held))
}

/// The place behind the first digest from the place on that is this one.
#[tactic(auto, using(std::proofs::lemmas::List::take_rest))]
fn find_from(list: &[Digest], place: usize, digest: &Digest) -> Option<usize>
    requires { place ≤ length list.now }
    ensures value { result ≡ found_from list.now place digest.now }
    ensures bound { IfSome result (λ next. next ≤ length list.now) }
{
    match place_of(&list[place..], digest) {
        Some(found) => Some(place + found + 1),
        None => None,
    }
}

/// The place behind the last of the digests, where each is taken from the place on as early as it can
/// be.
fn follow_from(list: &[Digest], place: usize, digests: &[Digest]) -> Option<usize>
    requires { place ≤ length list.now }
    ensures value { result ≡ followed_from list.now place digests.now }
    ensures bound { IfSome result (λ next. next ≤ length list.now) }
{
    let mut next = place;
    for digest in digests {
        next = find_from(list, next, digest)?;
    }
    Some(next)
}

/// The earlier of the two places, if one is there.
fn sooner_of(a: Option<usize>, b: Option<usize>) -> Option<usize>
    ensures { result ≡ sooner a b }
{
    match (a, b) {
        (Some(x), Some(y)) => Some(if y < x { y } else { x }),
        (Some(x), None) => Some(x),
        (None, other) => other,
    }
}

/// The earliest place that one of the alternatives leads to from the place on.
fn earliest(list: &[Digest], place: usize, alternatives: &[List<Digest>]) -> Option<usize>
    requires { place ≤ length list.now }
    ensures value { result ≡ earliest_from list.now place alternatives.now }
    ensures bound { IfSome result (λ next. next ≤ length list.now) }
{
    let mut least = None;
    for digests in alternatives {
        least = sooner_of(least, follow_from(list, place, digests.as_slice()));
    }
    least
}

/// The number of the first step that no choice of alternatives reaches, where other digests may stand
/// between those of the choice.
pub(crate) fn first_missing(list: &[Digest], steps: &[List<List<Digest>>]) -> Option<u32>
    requires { length steps.now ≤ 256 }
    ensures { result ≡ missing_from list.now 0 0 steps.now }
{
    let mut place = 0;
    for (number, alternatives) in steps.iter().enumerate() {
        match earliest(list, place, alternatives.as_slice()) {
            Some(next) => place = next,
            None => return Some(number as u32),
        }
    }
    None
}
