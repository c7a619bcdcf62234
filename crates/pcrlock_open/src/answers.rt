//! What the command says for the client's result.
ghost use Rattle.std.specs.Prelude.{◌≡◌, true, option_copied, Some, IfOk, IfErr};
ghost use Rattle.policy_session.specs.Answers.{is_answer, is_refusal};
ghost use Rattle.pcrlock_line.specs.Outcome.{ending_of};
ghost use Rattle.pcrlock_open.specs.Bound.{secret_ending};
ghost use Rattle.pcrlock_open.specs.Endings.{result_ending, IsStopFor, IsStopAfter};
ghost use Rattle.pcrlock_open.specs.UnsealAnswers.{IsFor, IsResultFor, error_answer, result_answer};

use pcrlock_answer::{Answer, key_line, limit};
use pcrlock_line::{Reply, Stop};
use pl_base::Small;
use policy_file::Literal;
use policy_session::UnsealError;
use std::alloc::Global;

/// The answer for a refusal of an object, with the literal that it is sealed to, if to one.
fn answer_to(alloc: Global, literal: Option<&Literal>, error: &UnsealError) -> Result<Answer, Stop>
    requires { IsFor (option_copied literal) error.now }
    ensures told { IfOk result (λ answer. (answer ≡ error_answer (option_copied literal.entry) error.now) × (is_refusal error.now ≡ true)) }
    ensures cause { IfErr result (λ stop. IsStopFor error.now stop) }
{
    match error {
        UnsealError::SessionsFull => Ok(Answer::SessionsFull),
        UnsealError::HandlesEnd => match limit(alloc, "handles", 0x0100_0000) {
            Ok(answer) => Ok(answer),
            Err(_) => Err(Stop::Memory),
        },
        UnsealError::BankAbsent(bank) => Ok(Answer::BankAbsent(*bank)),
        UnsealError::NotForeseen { pcrs, now } => Ok(Answer::NotForeseen {
            pcrs: *pcrs,
            now: *now,
        }),
        UnsealError::NotLiteral { now } => match literal {
            Some(literal) => Ok(Answer::NotLiteral {
                pcr: literal.pcr,
                now: *now,
                sealed: literal.value,
            }),
            None => unreachable!(),
        },
        UnsealError::NoObject(object) => Ok(Answer::NoObject(*object)),
        UnsealError::WrongBinding { session, object } => Ok(Answer::WrongBinding {
            session: *session,
            object: *object,
        }),
        UnsealError::Failed => Err(Stop::TpmFault),
        UnsealError::Memory => Err(Stop::Memory),
    }
}

/// The secret that the client was given, or the answer for its refusal.
pub(crate) fn secret_or_answer(
    alloc: Global,
    literal: Option<&Literal>,
    opened: &Result<Small, UnsealError>,
) -> Result<Result<Small, Answer>, Stop>
    requires { IsResultFor (option_copied literal) opened.now }
    ensures told { IfOk result (λ secret. (secret ≡ result_answer (option_copied literal.entry) opened.now) × (is_answer opened.now ≡ true)) }
    ensures cause { IfErr result (λ stop. IsStopAfter opened.now stop) }
{
    match opened {
        Ok(secret) => Ok(Ok(*secret)),
        Err(error) => match answer_to(alloc, literal, error) {
            Ok(answer) => Ok(Err(answer)),
            Err(stop) => Err(stop),
        },
    }
}

/// The line of the secret, or the answer.
pub(crate) fn secret_reply(alloc: Global, opened: Result<Small, Answer>) -> Result<Reply, Stop>
    ensures told { IfOk result (λ reply. ending_of reply ≡ secret_ending opened) }
    ensures cause { IfErr result (λ stop. stop ≡ Stop.Memory) }
{
    match opened {
        Ok(secret) => match key_line(alloc, &secret) {
            Ok(line) => Ok(Reply::Fine(line)),
            Err(_) => Err(Stop::Memory),
        },
        Err(answer) => Ok(Reply::Refused(answer)),
    }
}

/// The reply for the client's result, by the literal.
pub(crate) fn reply_to(
    alloc: Global,
    literal: &Literal,
    opened: &Result<Small, UnsealError>,
) -> Result<Reply, Stop>
    ensures told { IfOk result (λ reply. (ending_of reply ≡ result_ending literal.now opened.now) × (is_answer opened.now ≡ true)) }
    ensures cause { IfErr result (λ stop. IsStopAfter opened.now stop) }
{
    match secret_or_answer(alloc, Some(literal), opened) {
        Ok(opened) => secret_reply(alloc, opened),
        Err(stop) => Err(stop),
    }
}
