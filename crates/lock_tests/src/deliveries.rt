//! Each call that hands out envelopes delivers them without the lock: the transport waits until another thread has made a
//! call on the same core.
ghost use Rattle.std.specs.Prelude.{◌≡◌, true, IfOk};
ghost use Rattle.sentry_lock.specs.ValueCalls.{is_ordinary_call};

use crate::calling::Asks;
use crate::workshop::{Held, capture_event, capture_log, event, fresh, options};
use sentry_base::protocol::{
    Envelope, EnvelopeItem, ErrorLink, HubKey, Level, Log, LogLevel, Refusal, SessionStatus,
    SpanId, TraceId, TransactionKey,
};
use sentry_batches::metrics::{IntoProtocolMetric, counter};
use sentry_calls::call::{Call, HubCall};
use sentry_lock::{Client, CoreLock, SharedCore};
use sentry_plain::Boxed;
use sentry_scope::{Scope, ScopeEdit};
use sentry_trace::performance::TransactionContext;
use std::alloc::Global;
use std::sync::{Arc, Wait};
use std::test::Fail;
use std::thread::{Threads, join, yield_now};

/// Counts the calls during which the transport was not asked.
#[derive(Drop)]
struct Steps<'a, R: Wait + Drop> {
    asks: &'a Asks<R>,
    begun: u64,
    silent: u64,
}

impl<R: Wait + Drop> Steps<'_, R> {
    /// A call begins. What the transport was asked before doesn't count for it.
    fn begin_step(&mut self) {
        self.begun = self.asks.begun();
    }

    /// A call has ended.
    fn end_step(&mut self) {
        let begun = self.asks.begun();
        if begun == self.begun {
            self.silent = self.silent.wrapping_add(1);
        }
        self.begun = begun;
    }
}

/// Looks at the client for each call of the transport, until no more come.
fn look_each_time<R: Wait + Drop, L: CoreLock>(
    client: &Client<L>,
    asks: &Asks<R>,
) -> Result<(), Refusal> {
    for _ in asks.rt.forever() {
        if asks.is_asking() {
            client.is_enabled()?;
            asks.answer();
        } else if asks.is_over() {
            return Ok(());
        }
        yield_now();
    }
    Ok(())
}

fn new_scope<L: CoreLock>(core: &SharedCore<L>) -> Scope<L::Processor> {
    Scope::new(core.allocator(), TraceId([1; 16]), SpanId([2; 8]))
}

/// Events of a hub.
fn capture_events<R: Wait + Drop, L: CoreLock>(
    core: &SharedCore<L>,
    hub: HubKey,
    steps: &mut Steps<'_, R>,
) -> Result<(), Refusal> {
    let alloc = core.allocator();
    core.lock_hub(hub)
        .capture_event(event(alloc, 1)?, fresh(1))?;
    steps.end_step();
    core.lock_hub(hub)
        .capture_message("m", Level::Info, fresh(2))?;
    steps.end_step();
    let links = [ErrorLink::new(alloc, "Odd", "it is odd")?];
    core.lock_hub(hub)
        .capture_error(links.as_slice(), fresh(3))?;
    steps.end_step();
    core.lock_hub(hub)
        .capture_log(Log::new(alloc, LogLevel::Info, "x", 1)?)?;
    steps.end_step();
    core.lock_hub(hub)
        .capture_metric(counter(alloc, "c", 1)?.into_draft(), 1)?;
    steps.end_step();
    Ok(())
}

/// Calls on a client, and calls as values.
fn call_client<R: Wait + Drop, L: CoreLock>(
    client: &Client<L>,
    hub: HubKey,
    steps: &mut Steps<'_, R>,
) -> Result<(), Refusal> {
    let core = client.core();
    let alloc = core.allocator();
    capture_event(client, 4)?;
    steps.end_step();
    capture_log(client)?;
    steps.end_step();
    client.capture_metric(counter(alloc, "c", 1)?, &new_scope(core), 1)?;
    steps.end_step();
    let mut envelope = Envelope::new(alloc);
    envelope.add_item(EnvelopeItem::Event(Boxed::new(alloc, event(alloc, 5)?)?))?;
    client.send_envelope(envelope)?;
    steps.end_step();
    core.call(log_call(core, hub)?)?;
    steps.end_step();
    let mut calls = Vec::with_capacity(alloc, 1)?;
    calls.push_reserved(log_call(core, hub)?);
    core.call_all(calls)?;
    steps.end_step();
    Ok(())
}

fn log_call<L: CoreLock>(
    core: &SharedCore<L>,
    hub: HubKey,
) -> Result<Call<L::Processor, L::Callbacks>, Refusal>
    ensures { IfOk result (λ call. is_ordinary_call call ≡ true) }
{
    let log = Boxed::new(
        core.allocator(),
        Log::new(core.allocator(), LogLevel::Info, "x", 1)?,
    )?;
    Ok(Call::Hub(HubCall::CaptureLog { hub, log }))
}

/// Transactions, which are finished on a hub.
fn finish_transactions<R: Wait + Drop, L: CoreLock>(
    core: &SharedCore<L>,
    hub: HubKey,
    steps: &mut Steps<'_, R>,
) -> Result<(), Refusal> {
    let first = start_transaction(core, hub)?;
    core.finish_transaction(first, hub, 2)?;
    steps.end_step();
    let second = start_transaction(core, hub)?;
    core.end_transaction(second, hub, 2)?;
    steps.end_step();
    Ok(())
}

fn start_transaction<L: CoreLock>(
    core: &SharedCore<L>,
    hub: HubKey,
) -> Result<TransactionKey, Refusal> {
    let context = TransactionContext::new(
        core.allocator(),
        "t",
        "op",
        TraceId([5; 16]),
        SpanId([6; 8]),
    )?;
    core.lock_hub(hub).start_transaction(context, fresh(1))
}

/// Queues one session less than an envelope holds, and starts another, so that the next end hands an envelope out. No
/// session waits before.
fn fill_sessions<L: CoreLock>(core: &SharedCore<L>, hub: HubKey) -> Result<(), Refusal> {
    for _ in 0..99 {
        core.lock_hub(hub).start_session(fresh(1))?;
        core.lock_hub(hub)
            .end_session_with_status(SessionStatus::Exited, 1)?;
    }
    core.lock_hub(hub).start_session(fresh(1))
}

/// Ends and starts of sessions on a hub, each with a full queue. The last one goes on.
fn end_sessions<R: Wait + Drop, L: CoreLock>(
    core: &SharedCore<L>,
    hub: HubKey,
    steps: &mut Steps<'_, R>,
) -> Result<(), Refusal> {
    fill_sessions(core, hub)?;
    steps.begin_step();
    core.lock_hub(hub)
        .end_session_with_status(SessionStatus::Exited, 2)?;
    steps.end_step();
    fill_sessions(core, hub)?;
    steps.begin_step();
    core.lock_hub(hub)
        .end_active_session(SessionStatus::Exited, 2)?;
    steps.end_step();
    fill_sessions(core, hub)?;
    steps.begin_step();
    core.lock_hub(hub).start_session(fresh(3))?;
    steps.end_step();
    fill_sessions_from_one(core, hub)?;
    steps.begin_step();
    core.lock_hub(hub).start_active_session(fresh(3))?;
    steps.end_step();
    Ok(())
}

// The same where a session goes on already.
fn fill_sessions_from_one<L: CoreLock>(core: &SharedCore<L>, hub: HubKey) -> Result<(), Refusal> {
    for _ in 0..99 {
        core.lock_hub(hub).start_session(fresh(1))?;
    }
    Ok(())
}

/// Ends of sessions with their layers: by an edit, a pop and a release of the hub.
fn drop_layers<R: Wait + Drop, L: CoreLock>(
    client: &Client<L>,
    steps: &mut Steps<'_, R>,
) -> Result<(), Refusal> {
    let core = client.core();
    let hub = core.new_hub(Some(client.key()), new_scope(core))?;
    fill_sessions(core, hub)?;
    let clears = ScopeEdit::Clear(TraceId([1; 16]), SpanId([2; 8]));
    let mut edits = Vec::with_capacity(core.allocator(), 1)?;
    edits.push_reserved(clears);
    steps.begin_step();
    core.lock_hub(hub).configure(edits, 2)?;
    steps.end_step();
    pop_last(core, hub, steps)?;
    fill_sessions(core, hub)?;
    steps.begin_step();
    core.lock_hub(hub).release_hub(3)?;
    steps.end_step();
    Ok(())
}

// A pop that ends the session of its layer.
fn pop_last<R: Wait + Drop, L: CoreLock>(
    core: &SharedCore<L>,
    hub: HubKey,
    steps: &mut Steps<'_, R>,
) -> Result<(), Refusal> {
    let guard = core.push_scope(hub)?;
    let filled = fill_sessions(core, hub);
    steps.begin_step();
    let popped = core.pop_scope(guard, 2);
    steps.end_step();
    if let Err((refusal, guard)) = popped {
        let (_hub, _depth) = guard.into_parts();
        return Err(refusal);
    }
    filled
}

/// What ends the queues of a client: a log waits before each.
fn end_queues<R: Wait + Drop, L: CoreLock>(
    client: &Client<L>,
    steps: &mut Steps<'_, R>,
) -> Result<(), Refusal> {
    capture_log(client)?;
    steps.begin_step();
    client.tick(5_000_000_000)?;
    steps.end_step();
    capture_log(client)?;
    steps.begin_step();
    client.drop_client()?;
    steps.end_step();
    Ok(())
}

/// All of them, and then a flush and a close. Answers during how many the transport was not asked.
fn call_all<R: Wait + Drop, L: CoreLock>(
    client: &Client<L>,
    batching: &Client<L>,
    asks: &Asks<R>,
) -> Result<u64, Refusal> {
    let core = client.core();
    let hub = core.new_hub(Some(client.key()), new_scope(core))?;
    let mut steps = Steps {
        asks,
        begun: 0,
        silent: 0,
    };
    capture_events(core, hub, &mut steps)?;
    call_client(client, hub, &mut steps)?;
    finish_transactions(core, hub, &mut steps)?;
    end_sessions(core, hub, &mut steps)?;
    drop_layers(client, &mut steps)?;
    end_queues(batching, &mut steps)?;
    client.flush(Some(1))?;
    steps.end_step();
    client.close(Some(1))?;
    steps.end_step();
    Ok(steps.silent)
}

// The transport's calls end when the calls do, also if one of these was refused.
fn call_and_end<R: Wait + Drop, L: CoreLock>(
    client: &Client<L>,
    batching: &Client<L>,
    asks: &Asks<R>,
) -> Result<u64, Refusal> {
    let silent = call_all(client, batching, asks);
    asks.end();
    silent
}

fn call_in_two_threads<R: Threads + Wait + Sync + Drop, L: CoreLock + Send + Sync + 'static>(
    rt: &R,
    client: &Client<L>,
    batching: &Client<L>,
    asks: &Asks<R>,
) -> Result<u64, Refusal>
where
    L::Processor: Send + Sync + 'static,
    L::Callbacks: Send + Sync + 'static,
    L::Transport: Send + Sync + 'static,
{
    let (silent, looked) = join(
        rt,
        || call_and_end(client, batching, asks),
        || look_each_time(client, asks),
    );
    looked?;
    silent
}

#[test]
fn each_call_delivers_without_the_lock(rt: HostRuntime) -> Result<(), Fail> {
    let alloc: Global = rt.alloc();
    let asks = Arc::new(alloc, Asks::new(rt))?;
    let options_of_one = options(alloc, false)?
        .release("r")?
        .traces_sample_rate(1_000_000)?
        .max_batch_items(1);
    let held = Held::new(rt, alloc, options_of_one, Some(asks.clone()?))?;
    let core = held.client.core();
    let batching = Held::on(core, options(alloc, false)?, Some(asks.clone()?))?;
    let silent = call_in_two_threads(&rt, &held.client, &batching.client, &asks)?;
    assert_eq!(rt; silent, 0);
    Ok(())
}
