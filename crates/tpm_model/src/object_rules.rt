//! The rules on sealed objects.
ghost use Rattle.std.specs.Prelude.{◌≡◌, ◌≤◌, map};
ghost use Rattle.nv_index.specs.Handles.{are_handles};
ghost use Rattle.tpm_model.specs.ObjectRules.{is_secret as secret_is, keeps_object_order as order_kept, keeps_secret as secret_kept};
ghost use Rattle.tpm_model.specs.declared.object.Object.{Object as ObjectValue};

use crate::{Object, Parts};

/// Whether the objects' handles ascend, from the first one allowed to below the end.
fn are_object_handles(objects: &[Object], first: u32, end: u32) -> bool
    ensures { result ≡ are_handles first end (map (λ (object : ObjectValue). object.handle) objects.now) }
{
    let mut next = first;
    for object in objects {
        if object.handle < next || object.handle >= end {
            return false;
        }
        next = object.handle + 1;
    }
    true
}

/// Whether the objects' handles ascend, from that of number 0 to below the next.
pub(crate) fn keeps_object_order(parts: &Parts) -> bool
    requires { parts.now.next_object ≤ 0x00800000 }
    ensures { result ≡ order_kept parts.now }
{
    are_object_handles(
        parts.objects.as_slice(),
        0x8100_0000,
        0x8100_0000 + parts.next_object,
    )
}

/// Whether a secret has 1 to 128 bytes.
fn is_secret(object: &Object) -> bool
    ensures { result ≡ secret_is object.now }
{
    (1..=128).contains(&object.secret.as_slice().len())
}

/// Whether each secret has 1 to 128 bytes.
pub(crate) fn keeps_secret(parts: &Parts) -> bool
    ensures { result ≡ secret_kept parts.now }
{
    parts
        .objects
        .as_slice()
        .iter()
        .all(|object| is_secret(object))
}
