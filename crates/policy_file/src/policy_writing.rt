//! Writing a policy file.
ghost use Rattle.std.specs.Prelude.{◌≡◌, ◌≤◌, ◌++◌, length, IfOk, OnOk, Ok};
ghost use Rattle.policy_file.specs.PolicyText.{IsPolicy, body_text, policy_magic, policy_text};
ghost use Rattle.policy_file.specs.PolicyReading.{policy_in};

use crate::policy::Policy;
use crate::policy_reading::{MAGIC_ONE, MAGIC_TWO};
use crate::tables::{put_tables, version};
use crate::version::Version;
use pl_base::Memory;
use pl_layout::put_u32;
use std::alloc::Global;

/// Writes the magic of a version.
fn put_magic(out: &mut Vec<u8>, version: Version) -> Result<(), Memory>
    ensures { OnOk result (out.new.items ≡ out.old.items ++ policy_magic version) }
{
    match version {
        Version::One => out.extend_from_slice(&MAGIC_ONE)?,
        Version::Two => out.extend_from_slice(&MAGIC_TWO)?,
    }
    Ok(())
}

/// Writes what stands behind the magic.
fn put_body(out: &mut Vec<u8>, version: Version, policy: &Policy) -> Result<(), Memory>
    requires { IsPolicy policy.now }
    ensures { OnOk result (out.new.items ≡ out.old.items ++ body_text version policy.now) }
{
    put_u32(out, policy.handle)?;
    out.extend_from_slice(policy.index_policy.as_slice())?;
    put_u32(out, policy.pin_object)?;
    put_tables(out, version, policy.tables.as_slice())?;
    Ok(())
}

/// Writes a policy.
fn put_policy(out: &mut Vec<u8>, policy: &Policy) -> Result<(), Memory>
    requires { IsPolicy policy.now }
    ensures { OnOk result (out.new.items ≡ out.old.items ++ policy_text policy.now) }
{
    let version = version(policy.tables.as_slice());
    put_magic(out, version)?;
    put_body(out, version, policy)?;
    Ok(())
}

/// The text of a policy.
fn text_of(alloc: Global, policy: &Policy) -> Result<Vec<u8>, Memory>
    requires { IsPolicy policy.now }
    ensures { IfOk result (λ text. text.items ≡ policy_text policy.now) }
{
    let mut out = Vec::new(alloc);
    put_policy(&mut out, policy)?;
    Ok(out)
}

/// The text of a policy, in version 2 exactly where some row has several PCRs, else in version 1: the one
/// that [`crate::read_policy`] reads as it. It has at most 4,194,304 bytes.
///
/// # Errors
///
/// Want of memory.
pub fn write_policy(alloc: Global, policy: &Policy) -> Result<Vec<u8>, Memory>
    requires { IsPolicy policy.now }
    ensures spelled { IfOk result (λ text. text.items ≡ policy_text policy.now) }
    // It is no longer than a policy file may be.
    ensures within { IfOk result (λ text. length text.items ≤ 4194304) }
    ensures reads_back { IfOk result (λ text. policy_in text.items ≡ Ok policy.now) }
{
    text_of(alloc, policy)
}
