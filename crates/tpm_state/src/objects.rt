//! Sealed objects.
ghost use Rattle.std.specs.Prelude.{◌≡◌, ◌<◌, ◌≤◌, ◌^◌, ◌∷◌, [], ◌++◌, length, Option, OnOk, IfOk};
ghost use Rattle.std.specs.List.{flat_map};
ghost use Rattle.pl_layout.specs.Reading.{repeat_at};
ghost use Rattle.tpm_state.specs.Field.{Gives, counted_at, counted_text};
ghost use Rattle.tpm_state.specs.Objects.{size_text, secret_text, object_text, size_at, secret_at, object_at};

use crate::DecodeError;
use crate::field::fault_at;
use crate::version::Version;
use pl_base::{Memory, Small};
use pl_layout::{digest_of, put_u16, put_u32, read_bytes, read_u8, read_u16, read_u32};
use std::alloc::Global;
use tpm_model::Object;

/// The most objects.
const OBJECTS: u8 = 64;

/// The most bytes of a secret.
const SECRET: u8 = 128;

/// The size of a policy; in version 1 it isn't written.
#[tactic(auto, unfolding(crate::specs::Objects::size_at))]
fn read_size(all: usize, version: Version, bytes: &[u8]) -> Result<(u16, &[u8]), DecodeError>
    ensures exact { Gives (λ x. (x.0, x.1.now)) result (size_at all version bytes.now) }
    ensures some { IfOk result (λ x. 1 ≤ x.0) }
    ensures most { IfOk result (λ x. x.0 ≤ 64) }
{
    match version {
        Version::One => Ok((32, bytes)),
        Version::Two => {
            let (size, rest) = read_u16::<DecodeError>(all, bytes)?;
            if size == 32 || size == 48 {
                Ok((size, rest))
            } else {
                Err(fault_at(all, bytes))
            }
        }
    }
}

/// A secret behind its length.
#[tactic(auto, unfolding(crate::specs::Objects::secret_at))]
fn read_secret(all: usize, bytes: &[u8]) -> Result<(&[u8], &[u8]), DecodeError>
    ensures exact { Gives (λ x. (x.0.now, x.1.now)) result (secret_at all bytes.now) }
    ensures most { IfOk result (λ x. length x.0.now ≤ 128) }
{
    let (len, rest) = read_u8::<DecodeError>(all, bytes)?;
    if SECRET < len {
        return Err(fault_at(all, bytes));
    }
    read_bytes(all, usize::from(len), rest)
}

#[tactic(auto, unfolding(crate::specs::Objects::object_at))]
fn read_object(all: usize, version: Version, bytes: &[u8]) -> Result<(Object, &[u8]), DecodeError>
    ensures { Gives (λ x. (x.0, x.1.now)) result (object_at all version bytes.now) }
{
    let (handle, rest) = read_u32::<DecodeError>(all, bytes)?;
    let (size, rest) = read_size(all, version, rest)?;
    let (policy, rest) = read_bytes::<DecodeError>(all, usize::from(size), rest)?;
    let (secret, rest) = read_secret(all, rest)?;
    let Some(secret) = Small::from_slice(secret) else {
        unreachable!()
    };
    let object = Object {
        handle,
        policy: digest_of(policy),
        secret,
    };
    Ok((object, rest))
}

/// So many objects.
fn read_some(
    alloc: Global,
    all: usize,
    version: Version,
    count: u8,
    bytes: &[u8],
) -> Result<(Vec<Object>, &[u8]), DecodeError>
    ensures { Gives (λ x. (x.0.items, x.1.now)) result (repeat_at (λ before. object_at all version) count [] bytes.now) }
{
    let mut objects = Vec::new(alloc);
    let mut rest = bytes;
    for _ in 0..count {
        match read_object(all, version, rest) {
            Ok((object, after)) => {
                objects.push(object)?;
                rest = after;
            }
            Err(error) => return Err(error),
        }
    }
    Ok((objects, rest))
}

/// The objects behind their number.
#[tactic(auto, unfolding(pl_layout::specs::Reading::counted_at))]
pub(crate) fn read_objects(
    alloc: Global,
    all: usize,
    version: Version,
    bytes: &[u8],
) -> Result<(Vec<Object>, &[u8]), DecodeError>
    ensures { Gives (λ x. (x.0.items, x.1.now)) result (counted_at all 0 64 (object_at all version) bytes.now) }
{
    let (count, rest) = read_u8::<DecodeError>(all, bytes)?;
    if OBJECTS < count {
        return Err(fault_at(all, bytes));
    }
    read_some(alloc, all, version, count, rest)
}

/// Writes a secret behind its length.
fn put_secret(out: &mut Vec<u8>, secret: &Small) -> Result<(), Memory>
    ensures { OnOk result (out.new.items ≡ out.old.items ++ secret_text secret.now) }
{
    let bytes = secret.as_slice();
    out.push(bytes.len() as u8)?;
    out.extend_from_slice(bytes)?;
    Ok(())
}

/// Writes an object in version 2.
fn put_object(out: &mut Vec<u8>, object: &Object) -> Result<(), Memory>
    ensures { OnOk result (out.new.items ≡ out.old.items ++ object_text Version.Two object.now) }
{
    let policy = object.policy.as_slice();
    put_u32(out, object.handle)?;
    put_u16(out, policy.len() as u16)?;
    out.extend_from_slice(policy)?;
    put_secret(out, &object.secret)?;
    Ok(())
}

/// Writes the objects behind their number.
pub(crate) fn put_objects(out: &mut Vec<u8>, objects: &[Object]) -> Result<(), Memory>
    requires { length objects.now ≤ 64 }
    ensures { OnOk result (out.new.items ≡ out.old.items ++ counted_text (object_text Version.Two) objects.now) }
{
    out.push(objects.len() as u8)?;
    for object in objects {
        put_object(out, object)?;
    }
    Ok(())
}
