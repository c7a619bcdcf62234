//! The digests of TPM 2.0 policies: PolicyPCR, PolicyOR, PolicyAuthorizeNV and the policy by which
//! a pin writes an index; tables of the PCR values that a policy allows; and, as definitions alone,
//! the tree of policies that a table of lists of PCR values makes, with all strings that are hashed
//! on the way to its root.
#![tactic(auto)]

mod formulas;
mod group;
mod mask;
mod table;
mod values;

pub use crate::formulas::{
    pin_policy, policy_authorize_nv, policy_authorize_nv_in, policy_or, policy_or_in, policy_pcr,
    policy_pcr_in, values_digest, values_digest_in,
};
pub use crate::group::Group;
pub use crate::mask::{is_in_mask, mask_of_pcr, pcr_count, pcrs_in};
pub use crate::table::{Row, Table};
pub use crate::values::Values;
