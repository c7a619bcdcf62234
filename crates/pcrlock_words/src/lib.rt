//! The words of `pcrlock` and its texts.
//!
//! A command line, and each line of a script, is a list of words. This crate says which lists of words
//! the program takes and which request each of them spells, and it gives the texts that the program
//! prints: what a command writes on standard output, and the one line on standard error by which an
//! answer other than success is told.
#![tactic(auto)]

mod command;
mod components;
mod counts;
mod error;
mod fields;
mod generated;
mod lines;
mod log;
mod options;
mod predict;
mod read;
mod request;
mod requests;
mod values;

pub use components::components_text;
pub use counts::counts_text;
pub use error::WordsError;
pub use generated::gen_text;
pub use lines::split_line;
pub use log::log_text;
pub use pcrlock_answer::{
    Answer, Place, answer_line, checked_line, enrolled_line, key_line, locked_line, pin_line,
    proved_line, records_line, status_line, unlocked_line,
};
pub use predict::predict_text;
pub use read::read_words;
pub use request::Request;
