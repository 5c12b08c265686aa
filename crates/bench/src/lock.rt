//! Messages by an engine alone, and by a client of one under its lock. Each is an event under a scope with a tag. The
//! transport drops the envelopes. Then clients that come and go.
use crate::hub::options;
use sentry_core::engine::Engine;
use sentry_core::protocol::{Draw, Event, Fresh, Label, Refusal, SpanId, TraceId, Uuid};
use sentry_core::{BoxedGate, BoxedTransport, NoOpTransport, SharedCore, Text};
use sentry_lock::{Client, ClientSetup, CoreLock};
use sentry_scope::Scope;
use std::alloc::{AllocError, Global};

fn scope<P: Drop>(alloc: Global) -> Result<Scope<P>, AllocError> {
    let mut scope = Scope::new(alloc, TraceId([1; 16]), SpanId([2; 8]));
    scope.set_tag("os", "linux")?;
    Ok(scope)
}

pub fn fresh(number: u64) -> Fresh {
    Fresh {
        now: number,
        uuid: Uuid::from_u128(u128::from(number)),
        trace_id: TraceId([3; 16]),
        span_id: SpanId([4; 8]),
        draw: Draw::new(0).unwrap(),
    }
}

pub fn message(alloc: Global, number: u64) -> Result<Event, AllocError> {
    let mut event = Event::new(alloc, Uuid::from_u128(u128::from(number)), number)?;
    event.message = Some(Text::new(alloc, "hello world")?);
    Ok(event)
}

// One more, if the id is that of an event that was sent.
fn count_sent(sent: u64, id: Uuid) -> u64 {
    sent.wrapping_add(u64::from(!id.is_nil()))
}

/// Sends so many messages by an engine, and answers how many were sent.
pub fn send_by_engine(alloc: Global, messages: u64) -> Result<u64, Refusal> {
    let label = Label { tag: 0, number: 0 };
    let mut engine = Engine::new(alloc, 0);
    let client = engine.add_client(options(alloc)?, true, label, 0)?.reply;
    let scope = scope(alloc)?;
    let mut sent = 0u64;
    for index in 0..messages {
        let number = index.wrapping_add(1);
        let event = message(alloc, number)?;
        let out = engine.client_capture_event(client, event, Some(&scope), fresh(number))?;
        sent = count_sent(sent, out.reply);
    }
    Ok(sent)
}

/// Sends so many messages by a client of an engine under its lock, and answers how many were sent.
pub fn send_by_client<L: CoreLock>(client: &Client<L>, messages: u64) -> Result<u64, Refusal> {
    let alloc = client.core().allocator();
    let scope = scope(alloc)?;
    let mut sent = 0u64;
    for index in 0..messages {
        let number = index.wrapping_add(1);
        let event = message(alloc, number)?;
        let id = client.capture_event(event, Some(&scope), fresh(number))?;
        sent = count_sent(sent, id);
    }
    Ok(sent)
}

// Adds the client, and drops it and a clone of it.
fn add_clone_and_drop<L: CoreLock>(
    setup: ClientSetup<L, L::Callbacks>,
    transport: L::Transport,
    now: u64,
) -> Result<(), Refusal> {
    let client = Client::with_options(setup, Some(transport), now)?;
    let clone = client.clone_client(now)?;
    client.drop_client()?;
    clone.drop_client()
}

/// Adds so many clients to a core under its lock, and drops each and its clone before the next. Answers how many came, or 0
/// if the core still holds one.
pub fn add_and_drop(wait: BoxedGate, alloc: Global, turns: u64) -> Result<u64, Refusal> {
    let core: SharedCore = SharedCore::new(wait, alloc, 0)?;
    for now in 0..turns {
        let Ok(transport) = Box::new(alloc, NoOpTransport) else {
            return Err(Refusal::OutOfMemory);
        };
        let transport: BoxedTransport = transport;
        let setup = core.client_setup(options(alloc)?)?;
        add_clone_and_drop(setup, transport, now)?;
    }
    let holds_none = core.held().clients == 0;
    Ok(if holds_none { turns } else { 0 })
}
