//! Stack traces, which go beside an event: the member `stacktrace` of each of its exceptions, or of the event if it has
//! none. They are kept as they are.
ghost use Rattle.std.specs.Prelude.{◌≡◌, None, IfErr};
ghost use Rattle.c_base.specs.Faults.{refusal_of};

use crate::members::{list_of, map_of, member};
use c_base::fault::CallFault;
use c_base::outbox::Stacktraces;
use sentry_plain::{Items, Value, ValueMap};
use std::alloc::Global;

/// An event whose text has more bytes has no stack traces.
pub const MOST_BYTES: usize = 1 << 20;

// The stack trace of an exception or an event, an object, if it has one.
fn stacktrace_member(members: &ValueMap) -> Result<Option<Value>, CallFault>
    ensures { IfErr result (λ fault. refusal_of fault ≡ None) }
{
    match member(members, "stacktrace") {
        None => Ok(None),
        Some(value) => {
            let _ = map_of(value)?;
            Ok(Some(value.clone()?))
        }
    }
}

// The stack traces of exceptions.
fn stacktraces_of_all(alloc: Global, exceptions: &[Value]) -> Result<Stacktraces, CallFault>
    ensures { IfErr result (λ fault. refusal_of fault ≡ None) }
{
    let mut stacktraces = Items::new(alloc);
    for exception in exceptions {
        let stacktrace = stacktrace_member(map_of(exception)?)?;
        stacktraces.push(stacktrace)?;
    }
    Ok(stacktraces)
}

// That of an event without exceptions.
fn stacktrace_alone(alloc: Global, members: &ValueMap) -> Result<Stacktraces, CallFault>
    ensures { IfErr result (λ fault. refusal_of fault ≡ None) }
{
    let mut stacktraces = Items::new(alloc);
    let stacktrace = stacktrace_member(members)?;
    stacktraces.push(stacktrace)?;
    Ok(stacktraces)
}

/// The stack traces of the event that an object describes, whose text has so many bytes.
///
/// `Unknown`: one is no object; `OutOfMemory`.
pub fn stacktraces_of(
    alloc: Global,
    members: &ValueMap,
    bytes: usize,
) -> Result<Stacktraces, CallFault>
    ensures { IfErr result (λ fault. refusal_of fault ≡ None) }
{
    if bytes > MOST_BYTES {
        return Ok(Items::new(alloc));
    }
    match member(members, "exception") {
        None => stacktrace_alone(alloc, members),
        Some(exceptions) => stacktraces_of_all(alloc, list_of(exceptions)?),
    }
}
