ghost use Rattle.std.specs.Prelude.{◌≡◌};
ghost use Rattle.pcrlock_words.specs.Parser.{refusal_of};
ghost use Rattle.pcrlock_words.specs.declared.error.WordsError.TheVariants.{Memory as OutOfMemory};

use clap::error::ErrorKind;
use pl_base::Memory;
use std::alloc::AllocError;

/// Why words gave no request.
#[derive(Clone, Copy, Debug, PartialEq, Eq)]
pub enum WordsError {
    /// The words are outside the set of command lines.
    BadWords,
    /// Memory ran out.
    Memory,
}

impl From<Memory> for WordsError {
    ghost from_gives = { λ _ error. error ≡ OutOfMemory };

    fn from(_error: Memory) -> WordsError {
        WordsError::Memory
    }
}

impl From<AllocError> for WordsError {
    ghost from_gives = { λ _ error. error ≡ OutOfMemory };

    fn from(_error: AllocError) -> WordsError {
        WordsError::Memory
    }
}

impl From<clap::Error> for WordsError {
    ghost use Rattle.clap.specs.Words.{kind_of};

    ghost from_gives = { λ refused error. error ≡ refusal_of (kind_of refused) };

    // The words are outside the set, but where the parser found no memory.
    fn from(error: clap::Error) -> WordsError {
        match error.kind() {
            ErrorKind::OutOfMemory => WordsError::Memory,
            _ => WordsError::BadWords,
        }
    }
}
