//! Work runs, once, and its answer is the answer, whatever is refused round it.
use crate::workshop::{Bench, Thread, unbind_client};
use sentry_core::protocol::{HubKey, Refusal, TransactionOrSpanKey};
use sentry_core::{
    Refused, in_new_hub, in_scope, in_span, in_transaction, in_transaction_if, transaction_context,
    with_scope,
};
use sentry_hub::Hub;
use sentry_lock::CoreLock;
use std::alloc::AllocError;
use std::test::Fail;

// The error of work, which no refusal becomes.
#[derive(Clone, Copy, Debug, PartialEq, Eq)]
struct Odd(u8);

type Answer = Result<u8, Odd>;

// Runs work in each way, the last time in a span of a transaction. Answers what it answered, and how often it ran.
fn run_each<L: CoreLock>(thread: &mut Thread<L>, answer: Answer) -> ([Answer; 4], u8) {
    let mut runs = 0u8;
    let first = in_scope(
        thread,
        |edits| edits.set_tag("a", "1"),
        |_thread| -> Answer {
            runs = runs.saturating_add(1);
            answer
        },
    );
    let second = in_new_hub(thread, |_thread| -> Answer {
        runs = runs.saturating_add(1);
        answer
    });
    let third = in_span(
        thread,
        None::<TransactionOrSpanKey>,
        "db",
        "",
        |_thread, _span| -> Answer {
            runs = runs.saturating_add(1);
            answer
        },
    );
    let context = transaction_context(thread, "order", "http");
    let fourth = in_transaction_if(thread, context, |thread, transaction| -> Answer {
        in_span(thread, transaction, "db", "", |_thread, span| -> Answer {
            runs = runs.saturating_add(1);
            // what names nothing is set without a refusal
            if span.set_tag("a", "1").is_err() || span.is_sampled().is_err() {
                return Err(Odd(9));
            }
            answer
        })
    });
    ([first, second, third, fourth], runs)
}

// The same for work that answers 7, and for work that fails.
fn has_run<L: CoreLock>(thread: &mut Thread<L>) -> bool {
    run_each(thread, Ok(7)) == ([Ok(7); 4], 4)
        && run_each(thread, Err(Odd(3))) == ([Err(Odd(3)); 4], 4)
}

// So many refusals, all of them `Stale`.
fn stale(count: u64) -> Refused {
    Refused {
        count,
        first: Some(Refusal::Stale),
    }
}

// Runs work on a hub that sends, on one without a client, on one whose client is closed, and on one that is given back.
// Answers whether it ran each time, and what was refused meanwhile.
fn run_everywhere<L: CoreLock>(
    thread: &mut Thread<L>,
) -> Result<([bool; 4], [Refused; 4]), Refusal> {
    let first = (has_run(thread), thread.take_refused());
    let hub = Hub::current(thread)?;
    let client = hub.client()?;
    unbind_client(&hub)?;
    let second = (has_run(thread), thread.take_refused());
    if let Some(client) = client {
        hub.bind_client(Some(&client))?;
        client.close(None)?;
    }
    let third = (has_run(thread), thread.take_refused());
    hub.release(thread)?;
    let fourth = (has_run(thread), thread.take_refused());
    Ok((
        [first.0, second.0, third.0, fourth.0],
        [first.1, second.1, third.1, fourth.1],
    ))
}

#[test]
fn work_runs_whatever_is_refused(rt: HostRuntime) -> Result<(), Fail> {
    let mut bench = Bench::new(rt, rt.alloc())?;
    let found = run_everywhere(&mut bench.thread)?;
    drop(bench);
    // a span without a parent is always refused; where the hub is given back all is, for each answer
    let refused = [stale(2), stale(2), stale(2), stale(10)];
    assert_eq!(rt; found, ([true; 4], refused));
    Ok(())
}

// Leaves a layer on the current hub.
fn leave_layer<L: CoreLock>(thread: &mut Thread<L>) -> Result<u8, Refusal> {
    let (_hub, _depth) = thread.current.push_scope()?.into_parts();
    Ok(7)
}

// Runs work that leaves a layer, and work that leaves a child of its transaction. Answers whether it answered, and what was
// refused each time.
fn run_untidy<L: CoreLock>(thread: &mut Thread<L>) -> Result<[(u8, Refused); 3], Refusal> {
    let first = in_scope(
        thread,
        |edits| edits.set_tag("a", "1"),
        |thread| leave_layer(thread),
    )?;
    let first = (first, thread.take_refused());
    let second = in_new_hub(thread, |thread| leave_layer(thread))?;
    let second = (second, thread.take_refused());
    let context = transaction_context(thread, "order", "http")?;
    let third = in_transaction(
        thread,
        context,
        |thread, transaction| -> Result<u8, Refusal> {
            let child = transaction.start_child("db", "", thread.fresh())?;
            drop(child);
            Ok(7)
        },
    )?;
    Ok([first, second, (third, thread.take_refused())])
}

// How many transactions and spans the core holds.
fn count_spans<L: CoreLock>(thread: &Thread<L>) -> (usize, usize) {
    let held = thread.current.core().held();
    (held.transactions, held.spans)
}

fn one(refusal: Refusal) -> Refused {
    Refused {
        count: 1,
        first: Some(refusal),
    }
}

#[test]
fn untidy_work_answers(rt: HostRuntime) -> Result<(), Fail> {
    let mut bench = Bench::new(rt, rt.alloc())?;
    let found = run_untidy(&mut bench.thread)?;
    let spans = count_spans(&bench.thread);
    drop(bench);
    assert_eq!(rt; spans, (0, 0));
    assert_eq!(rt;
        found,
        [
            (7, one(Refusal::OutOfOrder)),
            (7, one(Refusal::ScopesOpen)),
            (7, one(Refusal::StillNamed)),
        ]
    );
    Ok(())
}

// What `with_scope` answers whose callback leaves a layer: the refusal, the answer of the callback, and the hub and the
// depth of the guard that it hands back.
fn leave_on_scope<L: CoreLock>(
    thread: &mut Thread<L>,
) -> Result<
    (
        Refusal,
        Option<Result<u8, Refusal>>,
        Option<(HubKey, usize)>,
    ),
    Refusal,
> {
    let left = with_scope(
        thread,
        |edits| edits.set_tag("a", "1"),
        |thread| leave_layer(thread),
    );
    let Err(mut error) = left else {
        return Err(Refusal::Full);
    };
    let parts = match error.guard.take() {
        None => None,
        Some(guard) => Some(guard.into_parts()),
    };
    let (refusal, answer) = error.into_refusal();
    Ok((refusal, answer, parts))
}

// The same whose `configure` is refused: whether the callback ran.
fn refuse_scope<L: CoreLock>(thread: &mut Thread<L>) -> (Option<Refusal>, bool) {
    let mut has_run = false;
    let refused = with_scope(
        thread,
        |_edits| -> Result<(), AllocError> { Err(AllocError) },
        |_thread| {
            has_run = true;
        },
    );
    match refused {
        Ok(()) => (None, has_run),
        Err(error) => (Some(error.refusal), has_run),
    }
}

#[test]
fn a_scope_that_is_refused_is_handed_back(rt: HostRuntime) -> Result<(), Fail> {
    let mut bench = Bench::new(rt, rt.alloc())?;
    let hub = bench.thread.current.key();
    let not_run = refuse_scope(&mut bench.thread);
    let found = leave_on_scope(&mut bench.thread)?;
    drop(bench);
    assert_eq!(rt; not_run, (Some(Refusal::OutOfMemory), false));
    assert_eq!(rt; found, (Refusal::OutOfOrder, Some(Ok(7)), Some((hub, 1))));
    Ok(())
}
