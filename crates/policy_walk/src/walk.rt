//! What stands behind a row's command.
use crate::ending::Branched;
use crate::started::Started;

/// What the answer to a walk's command leads to: more of the table's rows, or what stands behind the last.
#[derive(Debug, Drop)]
pub enum Walk {
    /// The walk goes on.
    Started(Started),
    /// The walk is past all rows.
    Branched(Branched),
}
