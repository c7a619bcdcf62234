//! How a command ended.
ghost use Rattle.std.specs.Prelude.{◌≡◌, ◌≤◌};
ghost use Rattle.pcrlock_line.specs.Outcome.{ending_of};
ghost use Rattle.pcrlock_run.specs.Status.{number_of, stop_number, refusal_status, status_of};

use pcrlock_line::{Reply, Stop};
use pcrlock_words::Answer;

/// How a command ended that ran to its end.
#[derive(Clone, Copy, Debug, PartialEq, Eq)]
pub enum Status {
    /// It did its work.
    Fine,
    /// What is asked isn't met: a PCR doesn't hold what opens the key, or a proof fails.
    Unmet,
    /// The words are no command line.
    BadWords,
    /// A file is missing or malformed.
    BadFile,
    /// A limit is passed, or a counter of the TPM is at its end.
    Limit,
    /// Any other answer.
    Other,
}

impl Status {
    /// The status of an answer. Faults and want of memory stop a command and are no answers of one.
    pub fn of_answer(answer: &Answer) -> Status
        ensures { number_of result ≡ refusal_status answer.now }
    {
        match answer {
            Answer::NotForeseen { .. } | Answer::NotLiteral { .. } | Answer::NotProved(_) => {
                Status::Unmet
            }
            Answer::BadWords => Status::BadWords,
            Answer::Malformed { .. } | Answer::NoSuchFile(_) => Status::BadFile,
            Answer::Limit { .. } | Answer::CounterEnd { .. } => Status::Limit,
            Answer::ReadFault
            | Answer::WriteFault
            | Answer::EntropyFault
            | Answer::TpmFault
            | Answer::Memory
            | Answer::NoToken(_)
            | Answer::NoObject(_)
            | Answer::WrongBinding { .. }
            | Answer::SessionsFull
            | Answer::BankAbsent(_)
            | Answer::NoDigest { .. }
            | Answer::NothingProtected
            | Answer::NoPolicy(_)
            | Answer::NoIndex(_)
            | Answer::UnwrittenIndex(_)
            | Answer::IndexTaken { .. }
            | Answer::Outdated { .. }
            | Answer::PinRefused { .. }
            | Answer::NoSeparator(_) => Status::Other,
        }
    }

    /// The status of a reply.
    pub fn of_reply(reply: &Reply) -> Status
        ensures { number_of result ≡ status_of (ending_of reply.now) }
    {
        match reply {
            Reply::Fine(_) => Status::Fine,
            Reply::Refused(answer) => Status::of_answer(answer),
        }
    }

    /// The exit status of the process.
    pub fn number(self) -> u8
        ensures { result ≡ number_of self }
    {
        match self {
            Status::Fine => 0,
            Status::Unmet => 1,
            Status::BadWords => 2,
            Status::BadFile => 3,
            Status::Limit => 4,
            Status::Other => 7,
        }
    }
}

/// The exit status of a process that stopped: 5 for a fault, 6 for want of memory.
pub fn stop_number(stop: Stop) -> u8
    ensures { result ≡ stop_number stop }
{
    match stop {
        Stop::ReadFault | Stop::WriteFault | Stop::EntropyFault | Stop::TpmFault => 5,
        Stop::Memory => 6,
    }
}
