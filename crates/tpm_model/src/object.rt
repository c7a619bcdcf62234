//! Sealed objects, and the commands on them.
ghost use Rattle.std.specs.Prelude.{◌≡◌, ◌+◌, ◌<◌, ◌≤◌, ◌==◌, true, [], ◌∷◌, ◌++◌, length, option_copied, position, IfOk, OnErr};
ghost use Rattle.tpm_model.specs.Held.{parts_of};
ghost use Rattle.tpm_model.specs.SessionRules.{keeps_session_order};
ghost use Rattle.tpm_model.specs.Sessions.{is_object, object_at, object_place as place_of_object};
ghost use Rattle.tpm_model.specs.ObjectCommands.{evict, is_policy_size as has_policy_size, seal, unseal};

use crate::held::Held;
use crate::sessions::{find_session, noted_before};
use crate::{Refusal, Response};
use hash_bank::Digest;
use pl_base::{Memory, Small};
use std::alloc::Global;

/// A secret sealed to a policy (TPM 2.0 Library Part 1, "Sealed Data").
#[derive(Clone, Copy, Debug)]
pub struct Object {
    /// Its handle, from 0x81000000 on.
    pub handle: u32,
    /// The digest that a session must have: 32 or 48 bytes.
    pub policy: Digest,
    /// The sealed bytes, 1 to 128.
    pub secret: Small,
}

/// The most sealed objects.
const OBJECTS: usize = 64;

/// The handle of the object with number 0.
const FIRST_OBJECT: u32 = 0x8100_0000;

/// The number that no object has any more.
const OBJECT_NUMBERS: u32 = 0x0080_0000;

/// The object of the handle.
fn find_object(objects: &[Object], handle: u32) -> Option<&Object>
    ensures { option_copied result ≡ object_at handle objects.now }
{
    objects.iter().find(|object| object.handle == handle)
}

/// Whether a digest has the size that a session's may have.
pub(crate) fn is_policy_size(size: usize) -> bool
    ensures { result ≡ has_policy_size size }
{
    size == 32 || size == 48
}

/// Seal.
pub(crate) fn sealed(held: &mut Held, policy: &Digest, secret: &Small) -> Result<Response, Memory>
    ensures ok { IfOk result (λ answer. (answer, parts_of held.new) ≡ seal policy.now secret.now (parts_of held.old)) }
    ensures err { OnErr result (parts_of held.new ≡ parts_of held.old) }
    ensures bound { length secret.now ≤ 128 }
{
    if secret.as_slice().is_empty() {
        return Ok(Response::Refused(Refusal::SealSize));
    }
    if !is_policy_size(policy.as_slice().len()) {
        return Ok(Response::Refused(Refusal::Value));
    }
    if held.objects.len() >= OBJECTS {
        return Ok(Response::Refused(Refusal::ObjectsFull));
    }
    if held.next_object >= OBJECT_NUMBERS {
        return Ok(Response::Refused(Refusal::HandlesEnd));
    }
    let handle = FIRST_OBJECT + held.next_object;
    let object = Object {
        handle,
        policy: *policy,
        secret: *secret,
    };
    held.objects.push(object)?;
    held.next_object += 1;
    Ok(Response::Object(handle))
}

/// The place of the object of the handle.
fn object_position(objects: &[Object], handle: u32) -> Option<usize>
    ensures { result ≡ position (is_object handle) objects.now }
{
    objects.iter().position(|object| object.handle == handle)
}

/// The place of the object of the handle, or the number of objects where there is none.
#[tactic(auto, using(crate::proofs::Places::place_or_len))]
fn object_place(objects: &[Object], handle: u32) -> usize
    ensures { result ≡ place_of_object handle objects.now }
{
    object_position(objects, handle).unwrap_or(objects.len())
}

/// Evict.
pub(crate) fn evicted(held: &mut Held, handle: u32) -> Response
    ensures { (result, parts_of held.new) ≡ evict handle (parts_of held.old) }
{
    let place = object_place(held.objects.as_slice(), handle);
    if place >= held.objects.len() {
        return Response::Refused(Refusal::Handle(handle));
    }
    let _gone = held.objects.remove(place);
    Response::Done
}

/// Unseal.
pub(crate) fn unsealed(held: &Held, number: u32, handle: u32) -> Response
    requires { keeps_session_order (parts_of held.now) ≡ true }
    ensures { (result, parts_of held.now) ≡ unseal number handle (parts_of held.now) }
{
    let Some(session) = find_session(held, number) else {
        return Response::Refused(Refusal::Handle(number));
    };
    let Some(object) = find_object(held.objects.as_slice(), handle) else {
        return Response::Refused(Refusal::Handle(handle));
    };
    let now = held.update_counter;
    if let Some(noted) = noted_before(session.noted, now) {
        return Response::Refused(Refusal::PcrChanged { noted, now });
    }
    if session.digest.as_slice() == object.policy.as_slice() {
        Response::Secret(object.secret)
    } else {
        Response::Refused(Refusal::PolicyFail {
            session: session.digest,
            object: object.policy,
        })
    }
}
