//! Transactions and spans that end by one call.
use crate::workshop::{Bench, Thread, fresh, set_tag};
use sentry_core::protocol::{Refusal, SpanId, TraceId};
use sentry_core::{TransactionContext, clear_span, configure_scope};
use sentry_hub::performance::{Handle, HandleKey, Span, Transaction};
use sentry_lock::CoreLock;
use std::test::Fail;

// Ends it. If it stays, answers it, with why it does.
fn end<L: CoreLock, N: HandleKey>(
    thread: &mut Thread<L>,
    span: Handle<L, N>,
) -> Option<(Refusal, Handle<L, N>)> {
    match span.end(thread) {
        Ok(()) => None,
        Err(error) => Some(error.into_parts()),
    }
}

// What is left of a span and of its transaction, once the scope no longer names the span.
fn end_rest<L: CoreLock>(
    thread: &mut Thread<L>,
    transaction: Transaction<L>,
    span: Span<L>,
) -> Result<[bool; 2], Refusal> {
    clear_span(thread)?;
    Ok([
        end(thread, span).is_none(),
        end(thread, transaction).is_none(),
    ])
}

// Ends a span, one that the scope names, and their transaction, of which that one is held. Answers why they stay, and
// whether they go afterwards. The transaction takes on a tag that the current hub alone is given.
fn end_all<L: CoreLock>(
    thread: &mut Thread<L>,
) -> Result<([Option<Refusal>; 2], [bool; 2]), Refusal> {
    set_tag(&thread.current, "a", "1")?;
    let alloc = thread.current.core().allocator();
    let (trace, id) = (TraceId([1; 16]), SpanId([2; 8]));
    let context = TransactionContext::new(alloc, "order", "http", trace, id)?;
    let transaction = thread.current.start_transaction(context, fresh(1))?;
    let span = transaction.start_child("op", "", fresh(2))?;
    let named = transaction.start_child("op", "", fresh(3))?;
    configure_scope(thread, |scope| scope.set_span(&named))?;
    let (None, Some((first, named))) = (end(thread, span), end(thread, named)) else {
        return Ok(([None, None], [false, false]));
    };
    let Some((second, transaction)) = end(thread, transaction) else {
        return Ok(([Some(first), None], [false, false]));
    };
    let rest = end_rest(thread, transaction, named)?;
    Ok(([Some(first), Some(second)], rest))
}

#[test]
fn an_end_finishes_and_forgets(rt: HostRuntime) -> Result<(), Fail> {
    let mut bench = Bench::apart(rt, rt.alloc())?;
    let found = end_all(&mut bench.thread)?;
    let sent = bench.finish()?;
    let expected = "; transaction 1 since 1 until 60 a=1, span until 60, span until 60";
    let named = Some(Refusal::StillNamed);
    assert_eq!(rt;
        (found, sent.as_str()),
        (([named, named], [true, true]), expected)
    );
    Ok(())
}
