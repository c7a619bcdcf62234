//! Reading a state file.
ghost use Rattle.std.specs.Prelude.{◌≡◌, Ok, IfOk};
ghost use Rattle.tpm_model.specs.declared.parts.Parts.{Parts};
ghost use Rattle.tpm_model.specs.Rules.{HasRules};
ghost use Rattle.tpm_state.specs.Field.{Gives};
ghost use Rattle.tpm_state.specs.Decoding.{state_of};
ghost use Rattle.tpm_state.specs.Spelling.{IsSpelled};

use crate::DecodeError;
use crate::layout::read_layout;
use std::alloc::Global;
use tpm_model::{State, StateRule};

/// The bits of all banks.
const ALL_BANKS: u8 = 15;

/// The state that the bytes spell, or the first fault or broken rule.
#[tactic(auto, unfolding(crate::specs::Decoding::state_of))]
fn read_state(alloc: Global, bytes: &[u8]) -> Result<State, DecodeError>
    ensures { Gives (λ x. x) result (state_of bytes.now) }
{
    let (byte, parts) = read_layout(alloc, bytes)?;
    if byte < 1 || ALL_BANKS < byte {
        return Err(DecodeError::BadRule(StateRule::Banks));
    }
    match State::from_parts(parts) {
        Ok(state) => Ok(state),
        Err(rule) => Err(DecodeError::BadRule(rule)),
    }
}

/// The state that the bytes spell, in version 1 or 2 of the layout.
///
/// # Errors
///
/// `Malformed` names the offset at which the first field begins that ends after the bytes or has no
/// allowed value, or at which bytes are left over. `BadRule` names the first rule that the state
/// breaks.
pub fn decode(alloc: Global, bytes: &[u8]) -> Result<State, DecodeError>
    // What is read is spelled so.
    ensures found { IfOk result (λ state. IsSpelled bytes.now state) }
    // What is spelled so is read, unless memory runs out.
    ensures only { (s : Parts) → HasRules s → IsSpelled bytes.now s → Gives (λ x. x) result (Ok s) }
    // Which fault or rule it is.
    ensures exact { Gives (λ x. x) result (state_of bytes.now) }
{
    read_state(alloc, bytes)
}
