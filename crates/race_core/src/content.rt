//! What an index holds that authorises sessions.
ghost use Rattle.std.specs.Prelude.{◌≡◌};
ghost use Rattle.policy_walk.specs.Choosing.{content_of};

use hash_bank::Digest;
use pl_base::Small;

/// The most bytes of a digest.
const MOST: usize = 64;

/// The content of an index for a root: the number of SHA-256, and the root (TPM 2.0 Library Part 3,
/// TPM2_PolicyAuthorizeNV).
pub(crate) fn content(root: &Digest) -> Small
    ensures { result ≡ content_of root.now }
{
    let digest = root.as_slice();
    let mut room = [0; 2 + MOST];
    room[1] = 0x0b;
    room[2..2 + digest.len()].copy_from_slice(digest);
    match Small::from_slice(&room[..2 + digest.len()]) {
        Some(content) => content,
        None => unreachable!(),
    }
}
