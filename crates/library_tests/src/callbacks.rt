//! Engines over callbacks in boxes, as users of the library hand them in. What acts on an engine is generic in its
//! callbacks, which is proved faster than over boxes.
use crate::boxes::{
    DSN, Plan, Seen, UNSEEN, Watches, boxed_adds, boxed_limits, giving, options_of, other_options,
};
use sentry_base::callbacks::EventCallback;
use sentry_core::metrics::{IntoProtocolMetric, gauge};
use sentry_core::protocol::{
    Breadcrumb, Category, ClientKey, Draw, EnvelopeItem, Event, Fresh, HubKey, Label, Log,
    LogLevel, Metric, Reason, Refusal, SpanId, TraceId, TransactionOrSpanKey, Unit, Uuid,
};
use sentry_core::{BoxedEventCallback, ClientCallbacks, Few, Level, TransactionContext};
use sentry_engine::{Engine, Out};
use sentry_options::{Callbacks, ClientOptions};
use sentry_scope::Scope;
use std::alloc::{AllocError, Global};
use std::test::Fail;

const LABEL: Label = Label { tag: 0, number: 0 };

/// What a call is handed.
fn fresh() -> Fresh {
    Fresh {
        now: 1,
        uuid: Uuid::from_bytes([9; 16]),
        trace_id: TraceId([1; 16]),
        span_id: SpanId([1; 8]),
        draw: Draw::new(0).unwrap(),
    }
}

/// Each callback does its work.
const COUNTS: Plan = Plan {
    processor: Some(3),
    integrations: [Some(2), Some(3), Some(4)],
    before_send: Some(100),
};

/// What they see of the event of `add_client` at moment 1: each integration has it as the one before left it.
const MADE: Seen = Seen {
    integrations: [1, 2, 6],
    set_ups: [1; 3],
    ..UNSEEN
};

/// And of an event that is captured at moment 1.
const CAPTURED: Seen = Seen {
    processor: 1,
    integrations: [4, 8, 24],
    before_send: 96,
    ..UNSEEN
};

/// The second of three integrations drops each event; that of `add_client` goes on to the third as it was.
const SECOND_DROPS: Plan = Plan {
    integrations: [Some(2), None, Some(4)],
    ..COUNTS
};

/// What they see then.
const SEEN_TO_SECOND: [Seen; 2] = [
    Seen {
        integrations: [1, 2, 2],
        ..MADE
    },
    Seen {
        integrations: [4, 8, 0],
        before_send: 0,
        ..CAPTURED
    },
];

/// The processor drops each event.
const PROCESSOR_DROPS: Plan = Plan {
    processor: None,
    ..COUNTS
};

/// What they see then.
const SEEN_BY_PROCESSOR: [Seen; 2] = [
    MADE,
    Seen {
        processor: 1,
        ..UNSEEN
    },
];

/// `before_send` drops each event.
const LAST_DROPS: Plan = Plan {
    before_send: None,
    ..COUNTS
};

/// A scope with a processor, a level and a tag.
fn scope_of<P: Drop>(alloc: Global, processor: P) -> Result<Scope<P>, Refusal> {
    let mut scope = Scope::new(alloc, TraceId([7; 16]), SpanId([8; 8]));
    scope.add_event_processor(processor)?;
    scope.set_level(Some(Level::Warning));
    scope.set_tag("a", "1")?;
    Ok(scope)
}

/// What an event at moment 1 comes to: the id answered; the moment and the level of the only event of the only
/// envelope, if that is all, and how many tags it has; and the hub's last event id, if it is captured on a hub.
type Outcome = (Uuid, Option<(u64, Level, usize)>, Option<Uuid>);

fn outcome(out: &Out<Uuid>, last: Option<Uuid>) -> Outcome {
    let sent = match out.sent.as_slice() {
        [(_, envelope)] => match envelope.items.as_slice() {
            [EnvelopeItem::Event(event)] => Some((event.timestamp, event.level, event.tags.len())),
            _ => None,
        },
        _ => None,
    };
    (out.reply, sent, last)
}

/// The outcome of an event without an id that is captured on a new hub.
fn capture_on_hub<P: EventCallback + Drop, C: Callbacks>(
    alloc: Global,
    engine: &mut Engine<P, C>,
    client: Option<ClientKey>,
    scope: Scope<P>,
) -> Result<Outcome, Refusal> {
    let hub = engine.new_hub(client, scope)?.reply;
    let event = Event::new(alloc, Uuid::nil(), 1)?;
    let out = engine.capture_event(hub, event, fresh())?;
    Ok(outcome(&out, engine.last_event_id(hub)?.reply))
}

/// The outcome of one that a client captures itself under a scope, and not on a hub.
fn capture_by_client<P: EventCallback + Drop, C: Callbacks>(
    alloc: Global,
    engine: &mut Engine<P, C>,
    client: ClientKey,
    scope: &Scope<P>,
) -> Result<Outcome, Refusal> {
    let event = Event::new(alloc, Uuid::nil(), 1)?;
    let out = engine.client_capture_event(client, event, Some(scope), fresh())?;
    Ok(outcome(&out, None))
}

/// What captures an event.
#[derive(Clone, Copy)]
enum By {
    /// A hub of a client.
    Hub { transport: bool },
    /// A clone of a client with a transport.
    Clone,
    /// A hub without a client.
    HubAlone,
}

/// The outcome of such an event on a new engine, for which reason errors are lost and how many, and what callbacks see in
/// `add_client` and after it.
type Found = (Outcome, Option<(Reason, u64)>, [Seen; 2]);

/// An outcome with what is lost, if the pending report tells of errors alone.
fn with_losses<P: Drop, C: Callbacks>(
    engine: &mut Engine<P, C>,
    outcome: Outcome,
    seen: [Seen; 2],
) -> Result<Found, Refusal> {
    let Out { reply, sent: _ } = engine.take_report(LABEL)?;
    let Some(report) = reply else {
        return Ok((outcome, None, seen));
    };
    let lost = match report.items.as_slice() {
        [item] => (item.category == Category::Error).then_some((item.reason, item.quantity)),
        _ => None,
    };
    Ok((outcome, lost, seen))
}

/// What such an event comes to on a new engine.
fn capture_by<P: EventCallback + Drop, C: Callbacks>(
    alloc: Global,
    by: By,
    options: ClientOptions<C>,
    scope: Scope<P>,
    watches: &Watches,
) -> Result<Found, Refusal> {
    let mut engine = Engine::new(alloc, 0);
    match by {
        By::Hub { transport } => {
            let client = engine.add_client(options, transport, LABEL, 1)?.reply;
            let made = watches.take();
            let outcome = capture_on_hub(alloc, &mut engine, Some(client), scope)?;
            with_losses(&mut engine, outcome, [made, watches.take()])
        }
        By::Clone => {
            let client = engine.add_client(options, true, LABEL, 1)?.reply;
            let made = watches.take();
            let copy = engine.clone_client(client, 2)?.reply;
            let outcome = capture_by_client(alloc, &mut engine, copy, &scope)?;
            with_losses(&mut engine, outcome, [made, watches.take()])
        }
        By::HubAlone => {
            let outcome = capture_on_hub(alloc, &mut engine, None, scope)?;
            Ok((outcome, None, [UNSEEN, watches.take()]))
        }
    }
}

/// The same with the callbacks of a plan.
fn capture(alloc: Global, by: By, plan: &Plan) -> Result<Found, Refusal> {
    let watches = Watches::new(alloc)?;
    let scope = scope_of(
        alloc,
        boxed_adds(alloc, plan.processor, &watches.processor)?,
    )?;
    let options = options_of(alloc, plan, &watches)?;
    capture_by(alloc, by, options, scope, &watches)
}

#[test]
fn boxed_callbacks_run_in_order(rt: HostRuntime) -> Result<(), Fail> {
    let alloc = rt.alloc();
    // the processor, the integrations, the callback: (1 + 3) * 2 * 3 * 4 + 100
    let (id, sent) = (fresh().uuid, Some((196, Level::Warning, 1)));
    let seen = [MADE, CAPTURED];
    let hub = By::Hub { transport: true };
    assert!(rt; capture(alloc, hub, &COUNTS) == Ok(((id, sent, Some(id)), None, seen)));
    // a clone sets nothing up
    assert!(rt; capture(alloc, By::Clone, &COUNTS) == Ok(((id, sent, None), None, seen)));
    let none = (Uuid::nil(), None, None);
    assert!(rt; capture(alloc, By::HubAlone, &COUNTS) == Ok((none, None, [UNSEEN; 2])));
    Ok(())
}

/// What an event on a hub comes to that is dropped.
fn dropped(lost: Option<(Reason, u64)>, seen: [Seen; 2]) -> Result<Found, Refusal> {
    let outcome = (Uuid::nil(), None, Some(Uuid::nil()));
    Ok((outcome, lost, seen))
}

#[test]
fn nothing_runs_after_a_callback_that_drops(rt: HostRuntime) -> Result<(), Fail> {
    let alloc = rt.alloc();
    let hub = By::Hub { transport: true };
    let lost = Some((Reason::EventProcessor, 1));
    assert!(rt; capture(alloc, hub, &SECOND_DROPS) == dropped(lost, SEEN_TO_SECOND));
    assert!(rt; capture(alloc, hub, &PROCESSOR_DROPS) == dropped(lost, SEEN_BY_PROCESSOR));
    let lost = Some((Reason::BeforeSend, 1));
    assert!(rt; capture(alloc, hub, &LAST_DROPS) == dropped(lost, [MADE, CAPTURED]));
    // without a transport nothing runs
    let hub = By::Hub { transport: false };
    assert!(rt; capture(alloc, hub, &LAST_DROPS) == dropped(None, [MADE, UNSEEN]));
    Ok(())
}

/// Why breadcrumbs of the moments below a count are refused, if they are, and how many the hub's scope has after that.
fn add_breadcrumbs<P: Drop, C: Callbacks>(
    alloc: Global,
    engine: &mut Engine<P, C>,
    hub: HubKey,
    count: u64,
) -> Result<(Option<Refusal>, usize), Refusal> {
    let refusal = engine
        .add_breadcrumbs(hub, Few::from_vec(breadcrumbs_below(alloc, count)?))
        .err();
    let scope = engine.scope(hub)?.reply;
    let kept = scope.breadcrumbs.get().map_or(0, |trail| trail.len());
    Ok((refusal, kept))
}

fn breadcrumbs_below(alloc: Global, count: u64) -> Result<Vec<Breadcrumb>, AllocError> {
    let mut breadcrumbs = Vec::new(alloc);
    for moment in 0..count {
        breadcrumbs.push(Breadcrumb::new(alloc, moment)?)?;
    }
    Ok(breadcrumbs)
}

fn first_metric(out: &Out<()>) -> Option<&Metric> {
    let (_, envelope) = out.sent.as_slice().first()?;
    match envelope.items.as_slice().first()? {
        EnvelopeItem::Metrics(metrics) => metrics.as_slice().first(),
        _ => None,
    }
}

/// Whether a metric with a unit still has it when it is sent; `None` if none is sent.
fn has_unit<P: Drop, C: Callbacks>(
    alloc: Global,
    engine: &mut Engine<P, C>,
    client: ClientKey,
    hub: HubKey,
) -> Result<Option<bool>, Refusal> {
    let metric = gauge(alloc, "room", 1)?.unit(Unit::Byte).into_draft();
    engine.capture_metric(hub, metric, 0)?;
    let out = engine.flush(client)?;
    Ok(first_metric(&out).map(|metric| metric.unit.is_some()))
}

/// Whether a transaction is sampled.
fn is_sampled<P: Drop, C: Callbacks>(
    alloc: Global,
    engine: &mut Engine<P, C>,
    hub: HubKey,
) -> Result<bool, Refusal> {
    let ids = fresh();
    let context = TransactionContext::new(alloc, "sell", "till", ids.trace_id, ids.span_id)?;
    let sale = engine.start_transaction(hub, context, ids)?.reply;
    let span = TransactionOrSpanKey::Transaction(sale);
    Ok(engine.is_sampled(span)?.reply)
}

/// A client with these options and a transport, and a hub of it.
fn add_client_and_hub<P: Drop, C: Callbacks>(
    alloc: Global,
    engine: &mut Engine<P, C>,
    options: ClientOptions<C>,
) -> Result<(ClientKey, HubKey), Refusal> {
    let client = engine.add_client(options, true, LABEL, 0)?.reply;
    let scope = Scope::new(alloc, TraceId([7; 16]), SpanId([8; 8]));
    let hub = engine.new_hub(Some(client), scope)?.reply;
    Ok((client, hub))
}

/// What the other callbacks come to: what no breadcrumbs come to, and what three do; whether a metric has its unit; and
/// whether a transaction is sampled.
type OtherOutcome = ([(Option<Refusal>, usize); 2], Option<bool>, bool);

fn call_others<P: Drop, C: Callbacks>(
    alloc: Global,
    options: ClientOptions<C>,
) -> Result<OtherOutcome, Refusal> {
    let mut engine: Engine<P, C> = Engine::new(alloc, 0);
    let (client, hub) = add_client_and_hub(alloc, &mut engine, options)?;
    let none = add_breadcrumbs(alloc, &mut engine, hub, 0)?;
    let three = add_breadcrumbs(alloc, &mut engine, hub, 3)?;
    let has_unit = has_unit(alloc, &mut engine, client, hub)?;
    Ok((
        [none, three],
        has_unit,
        is_sampled(alloc, &mut engine, hub)?,
    ))
}

#[test]
fn other_boxed_callbacks_are_called(rt: HostRuntime) -> Result<(), Fail> {
    let alloc = rt.alloc();
    let options = other_options(alloc, 2, 1_000_000)?;
    let found = call_others::<BoxedEventCallback, ClientCallbacks>(alloc, options);
    let kept = [(None, 0), (None, 2)];
    assert!(rt; found == Ok((kept, Some(false), true)));
    // an empty list calls no callback
    let options = other_options(alloc, 0, 0)?;
    let found = call_others::<BoxedEventCallback, ClientCallbacks>(alloc, options);
    let starved = [(None, 0), (Some(Refusal::OutOfMemory), 0)];
    assert!(rt; found == Ok((starved, Some(false), false)));
    Ok(())
}

/// Whether a client with these options and a transport is enabled and has a DSN, and how many integrations it has.
fn facts<P: Drop, C: Callbacks>(
    alloc: Global,
    options: ClientOptions<C>,
) -> Result<(bool, bool, usize), Refusal> {
    let mut engine: Engine<P, C> = Engine::new(alloc, 0);
    let client = engine.add_client(options, true, LABEL, 0)?.reply;
    let is_enabled = engine.is_enabled(client)?.reply;
    let has_dsn = engine.dsn(client)?.reply.is_some();
    let options = engine.options(client)?.reply;
    let names = options.callbacks.integration_names(alloc)?;
    Ok((is_enabled, has_dsn, names.len()))
}

#[test]
fn set_up_changes_the_options(rt: HostRuntime) -> Result<(), Fail> {
    let alloc = rt.alloc();
    // a DSN that is taken disables the client; where callbacks run in order, its slot stays occupied
    let watches = Watches::new(alloc)?;
    let copy = options_of(alloc, &COUNTS, &watches)?.clone()?;
    let found = facts::<BoxedEventCallback, ClientCallbacks>(alloc, copy);
    assert!(rt; found == Ok((false, false, 3)));
    // a list of integrations replaces those before
    let list = vec![in alloc; giving(alloc)?]?;
    let replaced = options_of(alloc, &COUNTS, &watches)?.integrations(list)?;
    let found = facts::<BoxedEventCallback, ClientCallbacks>(alloc, replaced);
    assert!(rt; found == Ok((true, true, 1)));
    // a DSN that is given opens no slot
    let given = ClientOptions::new(alloc).add_integration(giving(alloc)?)?;
    let found = facts::<BoxedEventCallback, ClientCallbacks>(alloc, given);
    assert!(rt; found == Ok((false, true, 1)));
    Ok(())
}

/// How many logs make a batch and how many spans a transaction keeps, where the set-up changed both, and how many
/// envelopes a log sends.
fn limits<P: Drop, C: Callbacks>(
    alloc: Global,
    options: ClientOptions<C>,
) -> Result<(usize, usize, usize), Refusal> {
    let mut engine: Engine<P, C> = Engine::new(alloc, 0);
    let options = options.max_spans(2).max_batch_items(3);
    let (client, hub) = add_client_and_hub(alloc, &mut engine, options)?;
    let log = Log::new(alloc, LogLevel::Info, "sold", 1)?;
    let sent = engine.capture_log(hub, log)?.sent.len();
    let options = engine.options(client)?.reply;
    Ok((options.plain.max_batch_items, options.plain.max_spans, sent))
}

#[test]
fn set_up_changes_the_limits(rt: HostRuntime) -> Result<(), Fail> {
    let alloc = rt.alloc();
    let options = ClientOptions::from_dsn(alloc, DSN)?.add_integration(boxed_limits(alloc, 7)?)?;
    let found = limits::<BoxedEventCallback, ClientCallbacks>(alloc, options);
    // a batch of nothing counts as one of a single log
    assert!(rt; found == Ok((1, 7, 1)));
    Ok(())
}
