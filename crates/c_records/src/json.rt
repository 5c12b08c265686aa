//! JSON texts. Numbers are whole numbers of 64 bits.
ghost use Rattle.std.specs.Prelude.{◌≡◌, None, IfErr};
ghost use Rattle.c_base.specs.Faults.{refusal_of};

use c_base::fault::CallFault;
use c_base::numbers::text;
use sentry_plain::{Value, ValueMap};
use sentry_texts::json::read_json;
use std::alloc::Global;
use std::mem;

/// The value of a JSON text.
///
/// `NotUtf8`; `Unknown`: it is no JSON, or has another number; `OutOfMemory`.
pub fn value(alloc: Global, bytes: &[u8]) -> Result<Value, CallFault>
    ensures { IfErr result (λ fault. refusal_of fault ≡ None) }
{
    match read_json(alloc, text(bytes)?)? {
        Some(value) => Ok(value),
        None => Err(CallFault::Unknown),
    }
}

/// The members of a JSON object; the empty text has none.
///
/// `NotUtf8`; `Unknown`: it is no JSON, has another number, or is no object; `OutOfMemory`.
pub fn object(alloc: Global, bytes: &[u8]) -> Result<ValueMap, CallFault>
    ensures { IfErr result (λ fault. refusal_of fault ≡ None) }
{
    if bytes.is_empty() {
        return Ok(ValueMap::new(alloc));
    }
    let mut read = value(alloc, bytes)?;
    match &mut read {
        Value::Map(members) => Ok(mem::replace(members, ValueMap::new(alloc))),
        _ => Err(CallFault::Unknown),
    }
}
