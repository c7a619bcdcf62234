//! Tests of policies: their digests and tables, the walks by them, and races.
#![tactic(auto)]

#[cfg(test)]
mod bound;
#[cfg(test)]
mod fixtures;
#[cfg(test)]
mod literal;
#[cfg(test)]
mod plans;
#[cfg(test)]
mod policies;
#[cfg(test)]
mod policy_files;
#[cfg(test)]
mod races;
#[cfg(test)]
mod tables;
#[cfg(test)]
mod tokens;
#[cfg(test)]
mod walks;
