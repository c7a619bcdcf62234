//! A foreseen state with what leads to it.
use pl_base::List;
use policy_digest::Values;

/// The values that some PCRs may have at once, and the cut and the choice of variants that lead to them.
#[derive(Debug, Drop)]
pub struct Reached {
    /// How many components have been measured.
    pub cut: u32,
    /// For each of these components the number of its variant, from 0 on.
    pub choice: List<u32>,
    /// The values of the PCRs, ascending by PCR.
    pub values: Values,
}
