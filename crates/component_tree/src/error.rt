ghost use Rattle.std.specs.Prelude.{◌≡◌};
ghost use Rattle.component_tree.specs.declared.error.TreeError.TheVariants as errors;

use cel_record::RecordsError;
use pl_base::{Memory, Name};

/// What there is too much of.
#[derive(Clone, Copy, Debug, PartialEq, Eq)]
pub enum TreeLimit {
    /// A folder has more than 4,096 entries.
    Entries,
    /// A component file has this many bytes, more than 1,048,576.
    FileBytes(u64),
    /// There are more than 256 components.
    Components,
    /// A component has more than 64 variants.
    Variants,
    /// A component file has more than 256 records.
    Records,
    /// The variants have more than 65,536 records in all.
    Total,
}

/// Why component folders give no tree.
#[derive(Debug, Drop)]
pub enum TreeError {
    /// The entry at this path gives a component or variant a name that is empty, longer than 200
    /// bytes, or has a byte outside 0x21 to 0x7e.
    BadName(Name),
    /// The component file at this path is no list of records.
    Malformed {
        /// The file's path.
        path: Name,
        /// What is wrong with it.
        kind: RecordsError,
    },
    /// There is too much of something.
    TooMany(TreeLimit),
    /// A folder could not be listed or a file not be read, and the count of faults rose.
    Failed,
    /// Memory ran out.
    Memory,
}

impl From<Memory> for TreeError {
    ghost from_gives = { λ _ error. error ≡ errors.Memory };

    fn from(_memory: Memory) -> TreeError {
        TreeError::Memory
    }
}
