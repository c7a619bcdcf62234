//! The answers that many commands make.
ghost use Rattle.std.specs.Prelude.{◌≡◌, IfOk};

use crate::answer::Answer;
use crate::place::Place;
use pl_base::{Memory, Name};
use std::alloc::Global;

/// What is counted under the kind passes its limit with this number.
pub fn limit(alloc: Global, kind: &str, number: u64) -> Result<Answer, Memory>
    ensures { IfOk result (λ answer. answer ≡ Answer.Limit kind.now number) }
{
    let kind = Name::from_text(alloc, kind)?;
    Ok(Answer::Limit { kind, number })
}

/// The file at the path has no reading by its format, from the place on.
pub fn malformed(alloc: Global, path: &str, place: Place) -> Result<Answer, Memory>
    ensures { IfOk result (λ answer. answer ≡ Answer.Malformed path.now place) }
{
    let path = Name::from_text(alloc, path)?;
    Ok(Answer::Malformed { path, place })
}

/// The file at the path has no reading by its format, from the byte, line or record of this number on.
pub fn malformed_at(alloc: Global, path: &str, number: u32) -> Result<Answer, Memory>
    ensures { IfOk result (λ answer. answer ≡ Answer.Malformed path.now (Place.At number)) }
{
    malformed(alloc, path, Place::At(u64::from(number)))
}

/// No file stands at the path.
pub fn no_such_file(alloc: Global, path: &str) -> Result<Answer, Memory>
    ensures { IfOk result (λ answer. answer ≡ Answer.NoSuchFile path.now) }
{
    Ok(Answer::NoSuchFile(Name::from_text(alloc, path)?))
}

/// No policy file stands at the path.
pub fn no_policy(alloc: Global, path: &str) -> Result<Answer, Memory>
    ensures { IfOk result (λ answer. answer ≡ Answer.NoPolicy path.now) }
{
    Ok(Answer::NoPolicy(Name::from_text(alloc, path)?))
}
