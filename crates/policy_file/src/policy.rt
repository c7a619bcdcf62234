//! What a policy file says.

use hash_bank::Digest;
use pl_base::List;
use policy_digest::Table;

/// Which index holds the policy in force, what writes it, and the tables of PCR values that it may hold.
///
/// The index (TPM 2.0 Library Part 3, TPM2_NV_DefineSpace) holds the root of one of the tables, and an
/// object that is bound to the index opens by that table (TPM2_PolicyAuthorizeNV). The handles' ranges and
/// sizes are the condition of `write_policy`, and this type does not ask for them.
#[derive(Debug, Drop)]
pub struct Policy {
    /// The index's handle, 0x01000000 to 0x01ffffff.
    pub handle: u32,
    /// The policy by which the index is written, of 32 bytes.
    pub index_policy: Digest,
    /// The handle of the object that holds the pin, 0x81000000 to 0x817fffff.
    pub pin_object: u32,
    /// One table, or two while one is put in the place of the other. The last is the newest.
    pub tables: List<Table>,
}
