//! Work that is run in a scope, on a hub of its own, and under a transaction and a span; and what is left after it.
use crate::workshop::{Bench, Minute, SEED, Thread, fresh, set_tag};
use sentry_core::protocol::{Refusal, SpanKey, TransactionOrSpanKey, Uuid};
use sentry_core::{
    Generator, Level, Refused, in_new_hub, in_scope, in_span, in_transaction, transaction_context,
};
use sentry_hub::Hub;
use sentry_lock::CoreLock;
use sentry_thread_hub::ThreadHub;
use std::alloc::{AllocError, Global};
use std::test::Fail;

// Sends a message of a number. Answers the active transaction or span, or this refusal.
fn work<L: CoreLock>(
    thread: &Thread<L>,
    number: u8,
    refusal: Option<Refusal>,
) -> Result<Option<TransactionOrSpanKey>, Refusal> {
    let hub = &thread.current;
    hub.capture_message("work", Level::Info, fresh(number))?;
    match refusal {
        None => Ok(hub.scope()?.get_span()),
        Some(refusal) => Err(refusal),
    }
}

// What work answers.
type Answer = Result<Option<TransactionOrSpanKey>, Refusal>;

// Runs work in a scope with a tag, and on a hub of its own.
fn run_scoped<L: CoreLock>(thread: &mut Thread<L>, refusal: Option<Refusal>) -> [Answer; 2] {
    let first = in_scope(
        thread,
        |edits| edits.set_tag("a", "1"),
        |thread| -> Answer { work(thread, 1, refusal) },
    );
    let second = in_new_hub(thread, |thread| -> Answer { work(thread, 2, refusal) });
    [first, second]
}

// Runs work under a span of a transaction.
fn run_traced<L: CoreLock>(thread: &mut Thread<L>, refusal: Option<Refusal>) -> Answer {
    let context = transaction_context(thread, "order", "http")?;
    in_transaction(thread, context, |thread, transaction| -> Answer {
        in_span(thread, transaction, "db", "", |thread, _span| -> Answer {
            work(thread, 3, refusal)
        })
    })
}

// Runs work in each way.
fn run_all<L: CoreLock>(thread: &mut Thread<L>, refusal: Option<Refusal>) -> [Answer; 3] {
    let [first, second] = run_scoped(thread, refusal);
    [first, second, run_traced(thread, refusal)]
}

// What work answers whose scope is refused: it runs without one.
fn run_refused<L: CoreLock>(thread: &mut Thread<L>) -> Answer {
    in_scope(
        thread,
        |_edits| -> Result<(), AllocError> { Err(AllocError) },
        |thread| -> Answer { work(thread, 4, None) },
    )
}

// What is left of work: what the core holds, as it is printed, what is active, why the hub isn't given back, and what was
// refused.
type Left = (
    String,
    Option<TransactionOrSpanKey>,
    Result<(), Refusal>,
    Refused,
);

fn look<L: CoreLock>(thread: &mut Thread<L>) -> Result<Left, Refusal> {
    let core = thread.current.core();
    let held = format!(in core.allocator(); "{core:?}")?;
    let active = thread.current.scope()?.get_span();
    let hub = thread.current.clone()?;
    Ok((held, active, hub.release(thread), thread.take_refused()))
}

// What work answers that is let be, that is refused, and whose scope is refused; and what is left.
type Found = ([Answer; 3], [Answer; 3], Answer, Left);

// The current hub alone is given a tag: what is done on the main hub lacks it.
fn run_thrice<L: CoreLock>(thread: &mut Thread<L>) -> Result<Found, Refusal> {
    set_tag(&thread.current, "b", "2")?;
    let first = run_all(thread, None);
    let second = run_all(thread, Some(Refusal::Full));
    let third = run_refused(thread);
    Ok((first, second, third, look(thread)?))
}

// What is left where nothing is: the client, and the main and the current hub with one layer each.
fn nothing_left(alloc: Global, refused: Refused) -> Result<Left, AllocError> {
    let held = "Held { clients: 1, hubs: 2, layers: 2, transactions: 0, spans: 0, sessions: 0 }";
    Ok((String::from_str(alloc, held)?, None, Ok(()), refused))
}

// So many refusals, of which this was the first.
fn refusals(count: u64, first: Refusal) -> Refused {
    Refused {
        count,
        first: Some(first),
    }
}

// The ids that a thread draws for two transactions, each after its context, and before a span that draws its own id alone.
fn draw_ids() -> Result<[Uuid; 2], AllocError> {
    let mut thread: ThreadHub<(), Minute, Generator> = ThreadHub::new((), Minute, SEED)?;
    let mut ids = [Uuid::nil(); 2];
    for id in ids.iter_mut() {
        let _context = thread.fresh();
        *id = thread.fresh().uuid;
        let _span = thread.fresh_span();
    }
    Ok(ids)
}

// What is sent, as a text.
fn what_is_sent(alloc: Global) -> Result<String, AllocError> {
    let [done, failed] = draw_ids()?;
    let mut text = String::new(alloc);
    for (id, status) in [(done, ""), (failed, " InternalError")] {
        text.push_str(
            "; event 1 Info at 1 work a=1 b=2; event 2 Info at 2 work b=2; event 3 Info at 3 work b=2",
        )?;
        write!(
            text,
            "; transaction {} since 60 until 60{status} b=2",
            id.as_u128()
        )?;
        write!(text, ", span until 60{status}")?;
    }
    text.push_str("; event 4 Info at 4 work b=2")?;
    Ok(text)
}

// Runs work under a span of a transaction that leaves another hub current.
fn leave_another_hub<L: CoreLock>(thread: &mut Thread<L>) -> Result<(), Refusal> {
    let other = Hub::new_from_top(&thread.main)?;
    let same = other.clone()?;
    let context = transaction_context(thread, "order", "http")?;
    in_transaction(
        thread,
        context,
        |thread, transaction| -> Result<(), Refusal> {
            in_span(
                thread,
                transaction,
                "db",
                "",
                |thread, _span| -> Result<(), Refusal> {
                    thread.current = other;
                    Ok(())
                },
            )
        },
    )?;
    same.release(thread)
}

#[test]
fn work_may_leave_another_hub_current(rt: HostRuntime) -> Result<(), Fail> {
    let mut bench = Bench::apart(rt, rt.alloc())?;
    leave_another_hub(&mut bench.thread)?;
    let left = look(&mut bench.thread)?;
    assert_eq!(rt; left, nothing_left(rt.alloc(), Refused::nothing())?);
    Ok(())
}

#[test]
fn nothing_is_left_of_work_that_ended(rt: HostRuntime) -> Result<(), Fail> {
    let mut bench = Bench::apart(rt, rt.alloc())?;
    let (first, second, third, left) = run_thrice(&mut bench.thread)?;
    let sent = bench.finish()?;
    let span = TransactionOrSpanKey::Span(SpanKey { tag: 5, number: 0 });
    assert_eq!(rt; first, [Ok(None), Ok(None), Ok(Some(span))]);
    assert_eq!(rt; (second, third), ([Err(Refusal::Full); 3], Ok(None)));
    let refused = refusals(1, Refusal::OutOfMemory);
    assert_eq!(rt; left, nothing_left(rt.alloc(), refused)?);
    let expected = what_is_sent(rt.alloc())?;
    assert_eq!(rt; sent.as_str(), expected.as_str());
    Ok(())
}
