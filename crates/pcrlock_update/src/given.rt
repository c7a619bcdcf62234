//! What is put in force, and where.
use pl_base::Name;
use policy_digest::Table;

/// A table that is put in force under an index.
#[derive(Drop)]
pub struct Given<'a> {
    /// The path of the policy file.
    pub path: &'a Name,
    /// The handle of the NV index, 0x01000000 to 0x01ffffff.
    pub index: u32,
    /// The table.
    pub table: &'a Table,
}
