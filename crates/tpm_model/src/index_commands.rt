//! The commands on indices.
ghost use Rattle.std.specs.Prelude.{◌≡◌, ◌<◌, IfOk, OnErr};
ghost use Rattle.tpm_model.specs.Held.{parts_of};
ghost use Rattle.tpm_model.specs.IndexCommands.{nv_define, nv_read, nv_read_public, nv_undefine, nv_write, refusal_of as refused_by};
ghost use Rattle.tpm_model.specs.Rules.{HasRules};

use crate::held::Held;
use crate::{Counter, Refusal, Response};
use nv_index::{DefineError, NvPublic, NvRefusal};
use pl_base::{Memory, Small};
use policy_digest::pin_policy;

/// A table's refusal as that of a command that names this handle.
fn refusal_of(handle: u32, why: &NvRefusal) -> Refusal
    ensures { result ≡ refused_by handle why.now }
{
    match *why {
        NvRefusal::Handle => Refusal::Handle(handle),
        NvRefusal::Attributes => Refusal::Attributes,
        NvRefusal::Size => Refusal::Size,
        NvRefusal::Value => Refusal::Value,
        NvRefusal::Defined => Refusal::Defined,
        NvRefusal::TableFull => Refusal::TableFull,
        NvRefusal::NotDefined => Refusal::NotDefined,
        NvRefusal::PinRefused { given, index } => Refusal::PinRefused { given, index },
        NvRefusal::Uninitialized => Refusal::Uninitialized,
    }
}

/// NvDefine.
pub(crate) fn index_defined(held: &mut Held, public: &NvPublic) -> Result<Response, Memory>
    ensures ok { IfOk result (λ answer. (answer, parts_of held.new) ≡ nv_define public.now (parts_of held.old)) }
    ensures err { OnErr result (parts_of held.new ≡ parts_of held.old) }
{
    match held.indices.define(public) {
        Ok(()) => Ok(Response::Done),
        Err(DefineError::Refused(why)) => Ok(Response::Refused(refusal_of(public.handle, &why))),
        Err(DefineError::Memory) => Err(Memory),
    }
}

/// NvUndefine.
pub(crate) fn index_undefined(held: &mut Held, handle: u32) -> Response
    ensures { (result, parts_of held.new) ≡ nv_undefine handle (parts_of held.old) }
{
    match held.indices.undefine(handle) {
        Ok(()) => Response::Done,
        Err(why) => Response::Refused(refusal_of(handle, &why)),
    }
}

/// NvWrite.
pub(crate) fn index_written(held: &mut Held, handle: u32, pin: &[u8; 32], value: &Small) -> Response
    requires { HasRules (parts_of held.old) }
    ensures { (result, parts_of held.new) ≡ nv_write handle pin.now value.now (parts_of held.old) }
{
    let given = pin_policy(pin);
    if let Some(why) = held.indices.write_refusal(handle, &given, value) {
        return Response::Refused(refusal_of(handle, &why));
    }
    if held.write_counter == u32::MAX {
        return Response::Refused(Refusal::CounterEnd(Counter::Writes));
    }
    let number = held.write_counter + 1;
    match held.indices.write(handle, &given, value, number) {
        Ok(()) => {
            held.write_counter = number;
            Response::Done
        }
        Err(why) => Response::Refused(refusal_of(handle, &why)),
    }
}

/// NvRead.
pub(crate) fn content_answer(held: &Held, handle: u32) -> Response
    ensures { (result, parts_of held.now) ≡ nv_read handle (parts_of held.now) }
{
    match held.indices.read(handle) {
        Ok(value) => Response::Content(value),
        Err(why) => Response::Refused(refusal_of(handle, &why)),
    }
}

/// NvReadPublic.
pub(crate) fn public_answer(held: &Held, handle: u32) -> Response
    ensures { (result, parts_of held.now) ≡ nv_read_public handle (parts_of held.now) }
{
    match held.indices.public(handle) {
        Ok(public) => Response::Public(public),
        Err(why) => Response::Refused(refusal_of(handle, &why)),
    }
}
