//! Reading a policy file.
ghost use Rattle.std.specs.Prelude.{◌≡◌, ◌==◌, IfOk, Ok, Err};
ghost use Rattle.policy_file.specs.declared.policy.Policy.{Policy as PolicyValue};
ghost use Rattle.policy_file.specs.PolicyText.{IsPolicy, policy_text};
ghost use Rattle.policy_file.specs.PolicyReading.{Reads, body_at, needs, policy_in, version_at};

use crate::error::{FileError, FileKind};
use crate::left::{fault_at, read_handle};
use crate::policy::Policy;
use crate::tables::{are_single, read_tables};
use crate::version::Version;
use pl_layout::{digest_of, read_bytes};
use policy_digest::Table;
use std::alloc::Global;

/// `PLPOL`, and version 1 in three bytes.
pub(crate) const MAGIC_ONE: [u8; 8] = [80, 76, 80, 79, 76, 0, 0, 1];

/// `PLPOL`, and version 2 in three bytes.
pub(crate) const MAGIC_TWO: [u8; 8] = [80, 76, 80, 79, 76, 0, 0, 2];

/// The size of an index's policy.
const POLICY_SIZE: usize = 32;

/// The place of the version's last byte.
const VERSION: u32 = 7;

/// The version.
#[tactic(auto, unfolding(crate::specs::PolicyReading::version_at))]
fn read_version(all: usize, bytes: &[u8]) -> Result<(Version, &[u8]), FileError>
    ensures { Reads (λ x. (x.0, x.1.now)) result (version_at all bytes.now) }
{
    let (magic, rest) = read_bytes::<FileError>(all, MAGIC_ONE.len(), bytes)?;
    if magic == MAGIC_ONE.as_slice() {
        return Ok((Version::One, rest));
    }
    if magic == MAGIC_TWO.as_slice() {
        return Ok((Version::Two, rest));
    }
    Err(fault_at(FileKind::Magic, all, bytes))
}

/// What stands behind the magic.
#[tactic(auto, unfolding(crate::specs::PolicyReading::body_at))]
fn read_body(
    alloc: Global,
    all: usize,
    version: Version,
    bytes: &[u8],
) -> Result<(Policy, &[u8]), FileError>
    ensures { Reads (λ x. (x.0, x.1.now)) result (body_at all version bytes.now) }
{
    let (handle, rest) = read_handle(all, 0x0100_0000, 0x01ff_ffff, bytes)?;
    let (index_policy, rest) = read_bytes::<FileError>(all, POLICY_SIZE, rest)?;
    let (pin_object, rest) = read_handle(all, 0x8100_0000, 0x817f_ffff, rest)?;
    let (tables, rest) = read_tables(alloc, all, version, rest)?;
    let policy = Policy {
        handle,
        index_policy: digest_of(index_policy),
        pin_object,
        tables,
    };
    Ok((policy, rest))
}

/// Whether the tables need their version.
fn is_needed(version: Version, tables: &[Table]) -> bool
    ensures { result ≡ needs version tables.now }
{
    match version {
        Version::One => true,
        Version::Two => !are_single(tables),
    }
}

/// The policy that all of the bytes spell.
#[tactic(auto, unfolding(crate::specs::PolicyReading::policy_in))]
fn read_all(alloc: Global, bytes: &[u8]) -> Result<Policy, FileError>
    ensures { Reads (λ x. x) result (policy_in bytes.now) }
{
    let all = bytes.len();
    let (version, rest) = read_version(all, bytes)?;
    let (policy, rest) = read_body(alloc, all, version, rest)?;
    if !is_needed(version, policy.tables.as_slice()) {
        return Err(FileError::Malformed {
            place: VERSION,
            kind: FileKind::Value,
        });
    }
    if !rest.is_empty() {
        return Err(fault_at(FileKind::Trailing, all, rest));
    }
    Ok(policy)
}

/// The policy that the bytes spell, all of the bytes.
///
/// A text has these fields, all numbers being big-endian:
///
/// | Size | Field | Else |
/// |---|---|---|
/// | 8 | `PLPOL`, 0, 0, and the version, 1 or 2 | `Magic` |
/// | 4 | the index's handle, 0x01000000 to 0x01ffffff | `Value` |
/// | 32 | the policy that writes the index | |
/// | 4 | the handle of the pin's object, 0x81000000 to 0x817fffff | `Value` |
/// | 1 | the number of tables, 1 or 2 | `Value` |
///
/// Each table has the algorithm of its bank (2; TPM 2.0 Library Part 2, TPM_ALG_ID), its number of rows (1; from
/// 1 to 24) and its rows. A row begins in version 1 with its PCR (1; at most 23, ascending), in version 2 with
/// the mask of its PCRs (4; not 0, below 2^24, no bit of an earlier row, and the lowest bit above that of the
/// earlier ones). Its number of lists follows (2; from 1 to 512), and the lists, each with one value of
/// the bank's size for each PCR, none twice.
///
/// # Errors
///
/// A field that the end cuts is `Cut` where it begins, one without an allowed value `Value`, and a list that
/// an earlier one of its row is `Value` where the list begins. Version 2 without a row of several PCRs is `Value` at
/// 7, once every field was read; bytes behind the last field are `Trailing`.
pub fn read_policy(alloc: Global, bytes: &[u8]) -> Result<Policy, FileError>
    // What is read is spelled so.
    ensures spelled { IfOk result (λ p. IsPolicy p × (bytes.now ≡ policy_text p)) }
    // What is spelled so is read, unless memory runs out.
    ensures read { (p : PolicyValue) → IsPolicy p → bytes.now ≡ policy_text p → Reads (λ x. x) result (Ok p) }
    // The fault is the first one.
    ensures exact { Reads (λ x. x) result (policy_in bytes.now) }
{
    read_all(alloc, bytes)
}
