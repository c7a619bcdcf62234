//! Which choice of variants explains what was measured into a PCR.

ghost use Rattle.std.specs.Prelude.{◌≤◌, length};
ghost use Rattle.component_tree.specs.PlainTree.{plain};
ghost use Rattle.record_match.specs.Recognition.{Answers, recognised};

use crate::choosing::choice_of;
use crate::error::MatchError;
use crate::extending::steps;
use crate::following::first_missing;
use crate::lacking::first_lacking;
use component_tree::Component;
use hash_bank::{Bank, Digest};
use pl_base::List;
use std::alloc::Global;

/// The first choice of one variant for each component, in lexicographic order, whose digests of the
/// bank and the PCR, joined in order, are the list. The answer has the variants' numbers, from 0 on.
/// At most 256 components may be given.
///
/// # Errors
///
/// `NoDigest` names the first record of the PCR, in the order of components, variants and records,
/// that lacks the bank; it comes first. Where no choice explains the list, `MissingComponent` gives
/// the least number such that no choice of the components up to it has its digests, in order, among
/// the list's, and `Unrecognised` comes where there is no such number. `Memory` may come at any step.
pub fn explain(
    alloc: Global,
    components: &[Component],
    pcr: u8,
    bank: Bank,
    list: &[Digest],
) -> Result<List<u32>, MatchError>
    requires { length components.now ≤ 256 }
    ensures { Answers result (recognised bank pcr (plain components.now) list.now) }
{
    if let Some(at) = first_lacking(components, pcr, bank) {
        return Err(MatchError::NoDigest {
            component: at.component,
            variant: at.variant,
            place: at.place,
        });
    }
    let steps = steps(alloc, components, pcr, bank)?;
    let steps = steps.as_slice();
    if let Some(choice) = choice_of(alloc, steps, list)? {
        return Ok(choice);
    }
    match first_missing(list, steps) {
        Some(component) => Err(MatchError::MissingComponent(component)),
        None => Err(MatchError::Unrecognised),
    }
}
