//! Tests of the words of the program and of its texts.
#![tactic(auto)]

#[cfg(test)]
mod printing;
#[cfg(test)]
mod reading;
