//! The answers of `pcrlock`, and the lines that tell them and what was done.
//!
//! Each command either does its work or answers why it didn't. This crate has all those answers, the line on
//! standard error that tells each of them, and the one-line texts of the commands that did their work. It stands
//! below all that reads words, predicts or asks a TPM, so that whatever may refuse can stand right above it.
#![tactic(auto)]

mod answer;
mod place;
mod refusals;
mod texts;

pub use answer::Answer;
pub use place::Place;
pub use refusals::{limit, malformed, malformed_at, no_policy, no_such_file};
pub use texts::{
    answer_line, checked_line, enrolled_line, key_line, locked_line, pin_line, proved_line,
    records_line, status_line, unlocked_line,
};
