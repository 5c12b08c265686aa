//! The functions on the current hub of a thread.
use crate::breadcrumbs::two_breadcrumbs;
use crate::workshop::{Bench, Minute, SEED, Thread, at, fresh, id};
use sentry_core::protocol::{ErrorLink, Event, Refusal, SessionStatus, SpanId, TraceId, Uuid};
use sentry_core::{
    Generator, Level, TransactionContext, add_breadcrumb, capture_error, capture_event,
    capture_message, configure_scope, end_session, end_session_with_status, last_event_id,
    start_session, start_transaction, start_transaction_with_timestamp, with_scope,
};
use sentry_hub::Hub;
use sentry_lock::CoreLock;
use sentry_thread_hub::ThreadHub;
use std::alloc::{AllocError, Global};
use std::test::Fail;

// Adds breadcrumbs, and sets a tag by a closure that answers true.
fn prepare<L: CoreLock>(thread: &mut Thread<L>) -> Result<bool, Refusal> {
    let breadcrumbs = two_breadcrumbs(thread.current.core().allocator())?;
    add_breadcrumb(thread, breadcrumbs)?;
    configure_scope(thread, |edits| {
        edits.set_tag("a", "1")?;
        Ok(true)
    })
}

// Whether the scope has tags and breadcrumbs, and whether it has some of these.
fn ask_scope<L: CoreLock>(hub: &Hub<L>) -> Result<(bool, bool), Refusal> {
    let scope = hub.scope()?;
    let (has_tags, has_trail) = (!scope.tags.is_empty(), scope.breadcrumbs.get().is_some());
    Ok((has_tags && has_trail, has_tags || has_trail))
}

// Captures an event, a message and an error.
fn capture<L: CoreLock>(thread: &mut Thread<L>) -> Result<[Uuid; 3], Refusal> {
    let alloc = thread.current.core().allocator();
    let event = Event::new(alloc, id(1), at(1))?;
    let first = capture_event(thread, event)?;
    let second = capture_message(thread, "boom", Level::Warning)?;
    let links = [ErrorLink::new(alloc, "Odd", "it is odd")?];
    let third = capture_error(thread, links.as_slice())?;
    Ok([first, second, third])
}

// Sends a message under a scope with a tag more, whose closure may be out of memory.
fn send_within<L: CoreLock>(thread: &mut Thread<L>, has_memory: bool) -> Result<Uuid, Refusal> {
    with_scope(
        thread,
        |edits| {
            if !has_memory {
                return Err(AllocError);
            }
            edits.set_tag("b", "2")
        },
        |thread| capture_message(thread, "within", Level::Info),
    )?
}

// Starts and ends two sessions.
fn hold_sessions<L: CoreLock>(thread: &mut Thread<L>) -> Result<(), Refusal> {
    start_session(thread)?;
    end_session(thread)?;
    start_session(thread)?;
    end_session_with_status(thread, SessionStatus::Crashed)
}

// The context of a transaction.
fn context(alloc: Global) -> Result<TransactionContext, AllocError> {
    TransactionContext::new(alloc, "order", "http", TraceId([1; 16]), SpanId([2; 8]))
}

// Finishes a transaction that starts now, and one since the second 2 at the second 50. Answers which are sampled.
fn trace<L: CoreLock>(thread: &mut Thread<L>) -> Result<(bool, bool), Refusal> {
    let alloc = thread.current.core().allocator();
    let first = start_transaction(thread, context(alloc)?)?;
    first.finish(thread)?;
    let second = start_transaction_with_timestamp(thread, context(alloc)?, at(2))?;
    second.finish_with_timestamp(thread, at(50))?;
    Ok((first.is_sampled()?, second.is_sampled()?))
}

// What the calls answer: the ids of an event, a message and an error, the id of the last event, that of a message under
// a scope of its own, and that of one whose scope is out of memory.
type Ids = ([Uuid; 3], Option<Uuid>, Uuid, Result<Uuid, Refusal>);

// The calls that send events. After them stands the scope of before.
fn send_events<L: CoreLock>(thread: &mut Thread<L>) -> Result<Ids, Refusal> {
    let captured = capture(thread)?;
    let last = last_event_id(thread)?;
    let within = send_within(thread, true)?;
    let refused = send_within(thread, false);
    capture_message(thread, "later", Level::Info)?;
    Ok((captured, last, within, refused))
}

// What else the calls answer: that of the closure, what there is of tags and breadcrumbs, and which transactions are
// sampled.
type Findings = (bool, (bool, bool), (bool, bool));

// Makes all calls. The hub is given back, which no layer hinders.
fn act<L: CoreLock>(thread: &mut Thread<L>) -> Result<(Ids, Findings), Refusal> {
    let ran = prepare(thread)?;
    let set = ask_scope(&thread.current)?;
    let ids = send_events(thread)?;
    hold_sessions(thread)?;
    let sampled = trace(thread)?;
    Hub::current(thread)?.release(thread)?;
    Ok((ids, (ran, set, sampled)))
}

/// The first ids that a thread draws: two starts of a session after the fifth draw no more than an id each.
fn draw_ids() -> Result<[Uuid; 9], AllocError> {
    let mut thread: ThreadHub<(), Minute, Generator> = ThreadHub::new((), Minute, SEED)?;
    let mut ids = [Uuid::nil(); 9];
    for (place, id) in ids.iter_mut().enumerate() {
        let fresh = match place {
            5 | 6 => thread.fresh_uuid(),
            _other => thread.fresh(),
        };
        *id = fresh.uuid;
    }
    Ok(ids)
}

// What an active hub sends, given the ids that are drawn, as a text. The event comes with an id of its own, so that the
// first one is drawn in vain.
fn what_is_sent(alloc: Global, drawn: [Uuid; 9]) -> Result<String, AllocError> {
    let [_, boom, odd, within, later, exited, crashed, order, earlier] = drawn;
    let mut text = String::from_str(alloc, "; event 1 Info at 1 a=1 after 2 after 3")?;
    for (before, id, after) in [
        ("; event", boom, "Warning at 60 boom a=1 after 2 after 3"),
        ("; event", odd, "Error at 60 Odd a=1 after 2 after 3"),
        (
            "; event",
            within,
            "Info at 60 within a=1 b=2 after 2 after 3",
        ),
        ("; event", later, "Info at 60 later a=1 after 2 after 3"),
        ("; transaction", order, "since 60 until 60 a=1"),
        ("; transaction", earlier, "since 2 until 50 a=1"),
        ("; session", exited, "Exited since 60 for 0"),
        ("+ session", crashed, "Crashed since 60 for 0"),
    ] {
        write!(text, "{before} {} {after}", id.as_u128())?;
    }
    Ok(text)
}

#[test]
fn functions_act_on_the_current_hub(rt: HostRuntime) -> Result<(), Fail> {
    let mut bench = Bench::apart(rt, rt.alloc())?;
    let found = act(&mut bench.thread)?;
    let sent = bench.finish()?;
    let drawn = draw_ids()?;
    let [_, boom, odd, within, ..] = drawn;
    let ids = (
        [id(1), boom, odd],
        Some(odd),
        within,
        Err(Refusal::OutOfMemory),
    );
    let findings = (true, (true, true), (true, true));
    let expected = what_is_sent(rt.alloc(), drawn)?;
    assert_eq!(rt;
        (found, sent.as_str()),
        ((ids, findings), expected.as_str())
    );
    Ok(())
}

// Sends a message, closes the client, and makes all calls.
fn act_closed<L: CoreLock>(thread: &mut Thread<L>) -> Result<(Ids, Findings), Refusal> {
    let hub = &thread.current;
    hub.capture_message("last", Level::Info, fresh(9))?;
    if let Some(client) = hub.client()? {
        client.close(None)?;
    }
    act(thread)
}

#[test]
fn functions_do_nothing_where_the_client_is_closed(rt: HostRuntime) -> Result<(), Fail> {
    let mut bench = Bench::new(rt, rt.alloc())?;
    let found = act_closed(&mut bench.thread)?;
    let sent = bench.finish()?;
    // both callbacks of scopes run, without a layer
    let nil = Uuid::nil();
    let ids = ([nil; 3], Some(id(9)), nil, Ok(nil));
    let findings = (false, (false, false), (false, false));
    let expected = "; event 9 Info at 9 last";
    assert_eq!(rt; (found, sent.as_str()), ((ids, findings), expected));
    Ok(())
}
