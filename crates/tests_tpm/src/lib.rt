//! Tests of the TPM: its indices, its state file and the broker in front of it.
#![tactic(auto)]

#[cfg(test)]
mod command_lines;
#[cfg(test)]
mod device;
#[cfg(test)]
mod events;
#[cfg(test)]
mod indices;
#[cfg(test)]
mod race_files;
#[cfg(test)]
mod sharing;
#[cfg(test)]
mod stored;
