//! Tests of what is told from components: what explains a log, and what is foreseen.
#![tactic(auto)]

#[cfg(test)]
mod choices;
#[cfg(test)]
mod explaining;
#[cfg(test)]
mod fixtures;
#[cfg(test)]
mod foreseeing;
#[cfg(test)]
mod trees;
