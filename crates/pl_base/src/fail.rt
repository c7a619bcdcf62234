/// A call that an object in memory is told to fail.
#[derive(Clone, Copy, Debug, PartialEq, Eq)]
pub struct Fail {
    /// The number of the call, counted from 0.
    pub call: u64,
    /// Whether it fails after it took effect, and not before.
    pub done: bool,
}
