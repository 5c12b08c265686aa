//! A web shop: what one order tells an engine, and what the engine hands out of it.
use crate::printing::print_sent;
use crate::setup::fresh;
use anyhow::Result;
use sentry_core::engine::{Engine, Out};
use sentry_core::metrics::{IntoProtocolMetric, counter};
use sentry_core::protocol::{
    Breadcrumb, ClientKey, Event, HubKey, Label, Log, LogLevel, SessionStatus, SpanId, TraceId,
    Uuid,
};
use sentry_core::{
    BoxedEventCallback, ClientOptions, EventCallback, Few, Level, Scope, ScopeEdit, Text, User,
};
use std::alloc::{AllocError, Global};

/// When the order comes in, in nanoseconds since the epoch. A real program asks a clock.
const MORNING: u64 = 1_700_000_000_000_000_000;

/// A `before_send` that drops each event whose user is unknown.
#[derive(Drop)]
struct DropAnonymous;

impl EventCallback for DropAnonymous {
    ghost use Rattle.std.specs.Prelude.{Some, None, is_some, if◌then◌else◌};

    ghost gives = { λ _ event. if is_some event.user then Some event else None };

    fn call(&self, event: Event) -> Result<Option<Event>, AllocError> {
        if event.user.is_none() {
            return Ok(None);
        }
        Ok(Some(event))
    }
}

/// Runs the example.
pub fn run(rt: &impl Print, alloc: Global) -> Result<()> {
    let mut engine = Engine::new(alloc, 0);
    let before_send: BoxedEventCallback = Box::new(alloc, DropAnonymous)?;
    let (client, hub) = open_shop(&mut engine, alloc, before_send)?;

    let dropped = engine.capture_message(hub, "a robot", Level::Info, fresh(MORNING, 3))?;
    print_sent(rt, &dropped)?;
    print_sent(rt, &welcome_customer(&mut engine, alloc, hub)?)?;
    print_sent(rt, &place_order(&mut engine, alloc, hub)?)?;
    let ended = engine.end_session_with_status(hub, SessionStatus::Exited, MORNING + 1)?;
    print_sent(rt, &ended)?;
    print_sent(rt, &engine.flush(client)?)?;
    let nil = ask_nobody(&mut engine, alloc)?.simple();
    println!(rt; "without a client: {nil}")?;
    Ok(())
}

// The client of the shop, and its hub.
fn open_shop(
    engine: &mut Engine,
    alloc: Global,
    before_send: BoxedEventCallback,
) -> Result<(ClientKey, HubKey)> {
    let options = ClientOptions::from_dsn(alloc, "https://public@sentry.invalid/1")?
        .release("shop@1.0.0")?
        .before_send(before_send)?;
    let label = Label { tag: 0, number: 0 };
    let client = engine.add_client(options, true, label, MORNING)?.reply;
    let scope = Scope::new(alloc, TraceId([1; 16]), SpanId([2; 8]));
    let hub = engine.new_hub(Some(client), scope)?.reply;
    Ok((client, hub))
}

// A customer puts a lamp into the basket: a user, a tag and a breadcrumb on the scope of the hub, and a session.
fn welcome_customer(engine: &mut Engine, alloc: Global, hub: HubKey) -> Result<Out<()>> {
    let mut user = User::new(alloc);
    user.id = Some(Text::new(alloc, "ada")?);
    let currency = ScopeEdit::SetTag(Text::new(alloc, "currency")?, Text::new(alloc, "eur")?);
    let edits = vec![in alloc; ScopeEdit::SetUser(Some(user)), currency]?;
    engine.configure(hub, edits, MORNING)?;
    let mut breadcrumb = Breadcrumb::new(alloc, MORNING)?;
    breadcrumb.message = Some(Text::new(alloc, "put a lamp into the basket")?);
    engine.add_breadcrumbs(hub, Few::single(Some(breadcrumb)))?;
    Ok(engine.start_session(hub, fresh(MORNING, 1))?)
}

// The order: a log, a counter, and the error that comes up.
fn place_order(engine: &mut Engine, alloc: Global, hub: HubKey) -> Result<Out<Uuid>> {
    let log = Log::new(alloc, LogLevel::Info, "the order is placed", MORNING)?;
    engine.capture_log(hub, log)?;
    let orders = counter(alloc, "orders", 1)?.into_draft();
    engine.capture_metric(hub, orders, MORNING)?;
    Ok(engine.capture_message(hub, "the card was refused", Level::Error, fresh(MORNING, 2))?)
}

// What a message replies on a hub without a client, where nothing is captured.
fn ask_nobody(engine: &mut Engine, alloc: Global) -> Result<Uuid> {
    let scope = Scope::new(alloc, TraceId([1; 16]), SpanId([2; 8]));
    let hub = engine.new_hub(None, scope)?.reply;
    let out = engine.capture_message(hub, "is anybody there?", Level::Info, fresh(MORNING, 4))?;
    Ok(out.reply)
}
