//! Tests of the answers and commands of the program.
#![tactic(auto)]

#[cfg(test)]
mod answers;
#[cfg(test)]
mod fixtures;
#[cfg(test)]
mod making;
#[cfg(test)]
mod noting;
#[cfg(test)]
mod opening;
#[cfg(test)]
mod reading;
#[cfg(test)]
mod updating;
