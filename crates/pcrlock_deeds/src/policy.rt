//! The policy in force, as its file says it.
ghost use Rattle.std.specs.Prelude.{◌≡◌, Some, IfOk, IfErr, IfSome};
ghost use Rattle.pl_base.specs.FileMap.{FileMap};
ghost use Rattle.policy_file.specs.PolicyReading.{policy_in};
ghost use Rattle.policy_file.specs.PolicyText.{IsPolicy};
ghost use Rattle.pcrlock_line.specs.Causes.{HasCauses};
ghost use Rattle.pcrlock_line.specs.Content.{content_found};
ghost use Rattle.pcrlock_deeds.specs.PolicyAt.{policy_read, policy_by, policy_needed, policy_of};

use pcrlock_answer::{Answer, limit, malformed_at, no_policy};
use pcrlock_line::{Found, Stop, read_file};
use pl_base::{Files, Name};
use policy_file::{FileError, Policy, read_policy};
use std::alloc::Global;

/// The most bytes that a policy file may have.
const POLICY_LIMIT: u64 = 4_194_304;

/// The policy that the bytes spell.
fn policy_spelled(
    alloc: Global,
    path: &Name,
    bytes: &[u8],
) -> Result<Result<Option<Policy>, Answer>, Stop>
    ensures told { IfOk result (λ found. found ≡ policy_read path.now (policy_in bytes.now)) }
    ensures valid { IfOk result (λ found. IfOk found (λ policy. IfSome policy IsPolicy)) }
    ensures cause { IfErr result (λ stop. stop ≡ Stop.Memory) }
{
    match read_policy(alloc, bytes) {
        Ok(policy) => Ok(Ok(Some(policy))),
        Err(FileError::Malformed { place, .. }) => match malformed_at(alloc, path.text(), place) {
            Ok(answer) => Ok(Err(answer)),
            Err(_) => Err(Stop::Memory),
        },
        Err(FileError::Memory) => Err(Stop::Memory),
    }
}

/// The policy of what stands at the path.
fn policy_found(
    alloc: Global,
    path: &Name,
    found: &Found,
) -> Result<Result<Option<Policy>, Answer>, Stop>
    ensures told { IfOk result (λ policy. policy ≡ policy_by path.now (content_found found.now)) }
    ensures valid { IfOk result (λ policy. IfOk policy (λ policy. IfSome policy IsPolicy)) }
    ensures cause { IfErr result (λ stop. stop ≡ Stop.Memory) }
{
    match found {
        Found::Missing => Ok(Ok(None)),
        Found::TooLarge(size) => match limit(alloc, "policy-bytes", *size) {
            Ok(answer) => Ok(Err(answer)),
            Err(_) => Err(Stop::Memory),
        },
        Found::Bytes(bytes) => policy_spelled(alloc, path, bytes),
    }
}

/// The policy that the file at the path spells; None where no file stands there. Or the answer:
///
/// | Answer | Cause |
/// |---|---|
/// | `Limit`, `policy-bytes` | the file has this many bytes, more than 4,194,304 |
/// | `Malformed` | from this place on the file spells no policy |
///
/// The files stay as they are.
pub fn policy_at<F: Files>(
    alloc: Global,
    files: &mut F,
    path: &Name,
) -> Result<Result<Option<Policy>, Answer>, Stop>
    ensures causes { HasCauses (F.faults files.old, 0, 0, 0) (F.faults files.new, 0, 0, 0) result }
    ensures told { (held : FileMap) → F.held files.old ≡ Some held → IfOk result (λ found. found ≡ policy_of held path.now) }
    ensures valid { IfOk result (λ found. IfOk found (λ policy. IfSome policy IsPolicy)) }
    ensures same { F.held files.new ≡ F.held files.old }
{
    match read_file(alloc, files, path.text(), POLICY_LIMIT) {
        Ok(found) => policy_found(alloc, path, &found),
        Err(stop) => Err(stop),
    }
}

/// The policy that the file at the path spells, for a command that can't do without one. Or the answer:
///
/// | Answer | Cause |
/// |---|---|
/// | `NoPolicy` | no file stands at the path |
/// | `Limit`, `policy-bytes` | the file has this many bytes, more than 4,194,304 |
/// | `Malformed` | from this place on the file spells no policy |
///
/// The files stay as they are.
pub fn needed_policy<F: Files>(
    alloc: Global,
    files: &mut F,
    path: &Name,
) -> Result<Result<Policy, Answer>, Stop>
    ensures causes { HasCauses (F.faults files.old, 0, 0, 0) (F.faults files.new, 0, 0, 0) result }
    ensures told { (held : FileMap) → F.held files.old ≡ Some held → IfOk result (λ found. found ≡ policy_needed held path.now) }
    ensures valid { IfOk result (λ found. IfOk found IsPolicy) }
    ensures same { F.held files.new ≡ F.held files.old }
{
    match policy_at(alloc, files, path) {
        Ok(Ok(Some(policy))) => Ok(Ok(policy)),
        Ok(Ok(None)) => match no_policy(alloc, path.text()) {
            Ok(answer) => Ok(Err(answer)),
            Err(_) => Err(Stop::Memory),
        },
        Ok(Err(answer)) => Ok(Err(answer)),
        Err(stop) => Err(stop),
    }
}
