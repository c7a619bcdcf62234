//! The versions of the policy file.

/// A version of the policy file. Each policy has a text in one of them alone.
#[derive(Clone, Copy, Debug, PartialEq, Eq)]
pub(crate) enum Version {
    /// Each row names its one PCR.
    One,
    /// Each row has a mask of PCRs, and some row has several.
    Two,
}
