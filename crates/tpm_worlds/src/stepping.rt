//! Commands that come one after the other.
ghost use Rattle.std.specs.Prelude.{◌≡◌, ◌⊎◌, ℕ, ◌≤◌, List as Sequence, [], ◌∷◌, ◌++◌, length, map, take, IfOk, IfErr, OnErr};
ghost use Rattle.tpm_model.specs.Events.{Clean, Event, command_of};
ghost use Rattle.tpm_model.specs.Respond.{respond};
ghost use Rattle.tpm_model.specs.Rules.{HasRules};
ghost use Rattle.tpm_model.specs.World.{World};
ghost use Rattle.tpm_worlds.specs.CommandLists.{responses_to, state_after};
ghost use Rattle.tpm_worlds.specs.EventLists.{AreFair, EachOpensByValue, Safe, world_after_all};
ghost use Rattle.tpm_worlds.specs.SealedTie.{SealedTie};
ghost use Rattle.tpm_worlds.specs.WholeEvents.{AreSoundEvents, FullTie, OwnTie};

use pl_base::{List, Memory};
use std::alloc::Global;
use tpm_model::{Command, Response, State, step};

/// Puts an answer behind the others.
fn push_answer(responses: &mut List<Response>, response: &Response) -> Result<(), Memory>
    ensures { IfOk result (λ _. responses.new ≡ responses.old ++ response.now ∷ []) }
{
    match response {
        Response::Refused(why) => responses.push(Response::Refused(*why)),
        accepted => responses.push(*accepted),
    }
}

/// Executes one more command, whose answer stands behind the others.
fn step_next(
    alloc: Global,
    state: &mut State,
    command: &Command,
    responses: &mut List<Response>,
) -> Result<(), Memory>
    ensures answered { IfOk result (λ _. responses.new ≡ responses.old ++ (respond command.now state.old).0 ∷ []) }
    ensures left { IfOk result (λ _. state.new ≡ (respond command.now state.old).1) }
    ensures stopped { OnErr result ((state.new ≡ state.old) ⊎ (state.new ≡ (respond command.now state.old).1)) }
    ensures rules { HasRules state.old × HasRules state.new }
{
    match step(alloc, state, command) {
        Ok(response) => push_answer(responses, &response),
        Err(stop) => Err(stop),
    }
}

/// Executes the commands in order, and gives the answer to each.
///
/// Whoever sent them, the program or anyone (each list of events that has these commands, on a world that
/// hangs together with the state, in which no two strings that were hashed have one digest, where the program
/// seals to pins of policies and to policies' hashes, and writes roots of valid tables): each Unseal of
/// an object that the program bound to one value of one PCR answers the object's own bytes, and only where
/// the PCR holds that value at that very step. The world afterwards hangs together with the state that is
/// left; with its indices and the program's updates too, whatever the sessions are, and with what sessions
/// read of them, where no stranger presented a pin of a policy.
///
/// # Errors
///
/// Want of memory. The state is then that after some of the first commands.
pub fn step_all(
    alloc: Global,
    state: &mut State,
    commands: &[Command],
) -> Result<List<Response>, Memory>
    ensures told { IfOk result (λ responses. responses ≡ responses_to commands.now state.old) }
    ensures left { IfOk result (λ _. state.new ≡ state_after commands.now state.old) }
    ensures stopped { IfErr result (λ _. (n : ℕ) × (n ≤ length commands.now) × (state.new ≡ state_after (take n commands.now) state.old)) }
    ensures rules { HasRules state.old × HasRules state.new }
    ensures unseals { (events : Sequence Event) (w : World) → map command_of events ≡ commands.now → SealedTie state.old w
        → AreFair events state.old w → Safe (world_after_all events state.old w) → EachOpensByValue events state.old w }
    ensures kept { IfOk result (λ _. (events : Sequence Event) (w : World) → map command_of events ≡ commands.now → SealedTie state.old w
        → AreFair events state.old w → SealedTie state.new (world_after_all events state.old w)) }
    ensures own { IfOk result (λ _. (events : Sequence Event) (w : World) → map command_of events ≡ commands.now → OwnTie state.old w
        → AreSoundEvents events state.old w → Clean (world_after_all events state.old w) → Safe (world_after_all events state.old w)
        → OwnTie state.new (world_after_all events state.old w)) }
    ensures whole { IfOk result (λ _. (events : Sequence Event) (w : World) → map command_of events ≡ commands.now → FullTie state.old w
        → AreSoundEvents events state.old w → Clean (world_after_all events state.old w) → Safe (world_after_all events state.old w)
        → FullTie state.new (world_after_all events state.old w)) }
{
    // A method of the state tells its rules.
    let _pcrs = state.pcrs();
    let mut responses = List::new(alloc);
    for command in commands {
        match step_next(alloc, state, command, &mut responses) {
            Ok(()) => {}
            Err(stop) => return Err(stop),
        }
    }
    Ok(responses)
}
