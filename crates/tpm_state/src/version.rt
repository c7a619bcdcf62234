//! The versions of the state file.

/// A version of the state file's layout.
#[derive(Clone, Copy, Debug, PartialEq, Eq)]
pub enum Version {
    /// All sessions and objects are of SHA-256, and their hash isn't written.
    One,
    /// Sessions and objects are of SHA-256 or SHA-384. This is the version that is written.
    Two,
}
