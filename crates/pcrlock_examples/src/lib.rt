//! Whole runs of the program over what only objects in memory can be: random words that are told, files at the usual
//! paths, calls that fail. Runs that the built program can do as well are cases of the repository's examples.
#![tactic(auto)]

#[cfg(test)]
mod booting;
#[cfg(test)]
mod commands;
#[cfg(test)]
mod faults;
#[cfg(test)]
mod harness;
#[cfg(test)]
mod keys;
#[cfg(test)]
mod sealing;
