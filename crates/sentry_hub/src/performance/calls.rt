//! Calls of setters, which are made together.
ghost use Rattle.std.specs.Prelude.{◌≡◌, true, IfOk, OnOk, map};
ghost use Rattle.std.specs.List.{list_all};
ghost use Rattle.sentry_calls.specs.declared.call.Call.TheVariants as group;
ghost use Rattle.sentry_lock.specs.CallLists.{LockMakesEach};
ghost use Rattle.sentry_lock.specs.ValueCalls.{is_ordinary_call};

use sentry_base::protocol::Refusal;
use sentry_engine::call::{Call, SpanCall};
use sentry_lock::{CoreLock, SharedCore};
use sentry_plain::Items;
use std::alloc::{AllocError, Global};

// The calls, in order. All are of one group, which the lock makes as values.
fn group_calls<P: Drop, C: Drop>(
    alloc: Global,
    calls: Vec<SpanCall>,
) -> Result<Vec<Call<P, C>>, AllocError>
    ensures calls { IfOk result (λ all. all.items ≡ map group.Span calls.items) }
    ensures ordinary { IfOk result (λ all. list_all is_ordinary_call all.items ≡ true) }
{
    let mut all = Vec::new(alloc);
    for call in calls {
        all.push(Call::Span(call))?;
    }
    Ok(all)
}

/// Makes calls in order, in one hold of the lock, up to the first that is refused, and answers that refusal.
pub(super) fn make_all<L: CoreLock>(
    core: &SharedCore<L>,
    calls: Items<SpanCall>,
) -> Result<(), Refusal>
    ensures { OnOk result (LockMakesEach L.Transport L.Processor.gives L.Callbacks.meanings (map group.Span calls)) }
{
    let calls = group_calls(core.allocator(), calls.into_vec())?;
    core.call_all(calls)
}
