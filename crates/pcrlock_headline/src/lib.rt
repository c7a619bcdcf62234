//! The headline for keys that are bound to a policy: `unseal` prints the key exactly where each row of the newest table
//! lists what its PCRs hold. The calls do nothing; they tell the laws.
#![tactic(auto)]

mod laws;

pub use crate::laws::{
    calm_deeds_keep_current, outdated_files_open_nothing, unseal_is_exact,
    unseal_is_only_where_unlocked,
};
