//! Bytes as a JSON value, and what stands under a key of it.
ghost use Rattle.std.specs.Prelude.{◌≡◌, IfOk, option_map};
ghost use Rattle.serde_json.specs.View.{view, items_view};
ghost use Rattle.cel_record.specs.JsonValue.{json_of, text_at, unsigned_at, array_at};

use pl_base::Memory;
use serde_json::Value;
use std::alloc::Global;

/// The JSON value that the bytes are (RFC 8259), or `None` where `serde_json` refuses them: they
/// aren't UTF-8 or no JSON text, nest deeper than 127, or hold a number that is no finite float.
#[tactic(auto, using(crate::proofs::JsonTexts::json_value))]
pub fn read_value(alloc: Global, bytes: &[u8]) -> Result<Option<Value>, Memory>
    ensures { IfOk result (λ o. option_map view o ≡ json_of bytes.now) }
{
    match Value::from_slice(alloc, bytes) {
        Ok(value) => Ok(Some(value)),
        Err(error) => if error.is_memory() {
            Err(Memory)
        } else {
            Ok(None)
        },
    }
}

// The text under a key.
pub(crate) fn text_under<'v>(value: &'v Value, key: &str) -> Option<&'v str>
    ensures { option_map (λ s. s.now) result ≡ text_at key.now (view value.now) }
{
    value.get(key).and_then(Value::as_str)
}

// The unsigned whole number under a key.
pub(crate) fn unsigned_under(value: &Value, key: &str) -> Option<u64>
    ensures { result ≡ unsigned_at key.now (view value.now) }
{
    value.get(key).and_then(Value::as_u64)
}

// The array under a key.
pub(crate) fn array_under<'v>(value: &'v Value, key: &str) -> Option<&'v Vec<Value>>
    ensures { option_map (λ v. items_view v.now.items) result ≡ array_at key.now (view value.now) }
{
    value.get(key).and_then(Value::as_array)
}
