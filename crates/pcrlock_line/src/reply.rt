//! What a command has to say.
use pcrlock_answer::Answer;

/// The end of a command that ran to its end: the text that it prints, or the answer for which it
/// didn't do its work.
#[derive(Debug, Drop)]
pub enum Reply {
    /// All bytes for standard output.
    Fine(Vec<u8>),
    /// Nothing for standard output, and one line for standard error.
    Refused(Answer),
}
