//! The Name of an index.
ghost use Rattle.std.specs.Prelude.{◌≡◌, length};
ghost use Rattle.nv_index.specs.IndexName.{index_name_of};

use crate::NvPublic;
use hash_bank::{Bank, Digest, Hasher};

/// The digest in an index's Name: SHA-256 of the index's public area. The Name itself is the
/// algorithm identifier of SHA-256, 0x000B, and then this digest (TPM 2.0 Library Part 1, "Names";
/// Part 2, TPMS_NV_PUBLIC).
#[tactic(auto, unfolding(crate::specs::IndexName::index_string))]
pub fn index_name(public: &NvPublic) -> Digest
    ensures value { result ≡ index_name_of public.now }
    ensures size { length result ≡ 32 }
{
    let mut hasher = Hasher::new(Bank::Sha256);
    hasher.update_parts(&[
        &public.handle.to_be_bytes(),
        &Bank::Sha256.algorithm().to_be_bytes(),
        &public.attributes.to_be_bytes(),
        &[0x00, 0x20],
        public.policy.as_slice(),
        &public.size.to_be_bytes(),
    ]);
    hasher.finish()
}
