//! What commands do to files and TPM, as values of steps: from such a value come the outcome of the
//! command, the world after it, what stands between its changes, and the strings that it hashes. What
//! is kept at each step is kept by every command. And the policy in force, as commands read it from its
//! file.
#![tactic(auto)]

mod laws;
mod policy;

pub use crate::laws::{
    deed_grows, deed_keeps_policy, deed_stands, forgotten_file_is_noticed, fresh_is_kept,
    line_keeps_policy, lost_index_is_noticed, policy_is_tied, stopped_is_kept,
};
pub use crate::policy::{needed_policy, policy_at};
