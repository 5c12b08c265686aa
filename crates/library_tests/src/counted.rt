//! How often each callback is called, which no contract says: callbacks that change nothing and count their calls.
use sentry_base::callbacks::EventCallback;
use sentry_core::metrics::{IntoProtocolMetric, gauge};
use sentry_core::protocol::{
    Breadcrumb, ClientKey, Draw, Event, Fresh, HubKey, Label, Log, LogLevel, Metric, Refusal,
    SampleRate, SpanId, TraceId, Uuid,
};
use sentry_core::{Few, Items, Level, TracesSamplingStrategy, TransactionContext};
use sentry_engine::Engine;
use sentry_options::{Callbacks, ClientOptions, PlainOptions};
use sentry_plain::{Boxed, Text};
use sentry_scope::Scope;
use std::alloc::{AllocError, Global};
use std::sync::Arc;
use std::sync::atomic::{AtomicU64, Ordering};
use std::test::Fail;

/// Passes every event on.
#[derive(Drop)]
struct Passes;

impl EventCallback for Passes {
    ghost use Rattle.std.specs.Prelude.{Some};

    ghost gives = { λ _ event. Some event };

    fn call(&self, event: Event) -> Result<Option<Event>, AllocError> {
        Ok(Some(event))
    }
}

/// How often each callback was called.
#[derive(Clone, Copy, PartialEq, Debug)]
struct Counts {
    events: u64,
    sends: u64,
    breadcrumbs: u64,
    logs: u64,
    metrics: u64,
    rates: u64,
}

/// The counters of the callbacks.
#[derive(Drop)]
struct Counters {
    events: AtomicU64,
    sends: AtomicU64,
    breadcrumbs: AtomicU64,
    logs: AtomicU64,
    metrics: AtomicU64,
    rates: AtomicU64,
}

fn count(counter: &AtomicU64) {
    counter.fetch_add(1, Ordering::SeqCst);
}

// The count so far, which begins anew.
fn take(counter: &AtomicU64) -> u64 {
    counter.swap(0, Ordering::SeqCst)
}

impl Counters {
    fn new() -> Counters {
        Counters {
            events: AtomicU64::new(0),
            sends: AtomicU64::new(0),
            breadcrumbs: AtomicU64::new(0),
            logs: AtomicU64::new(0),
            metrics: AtomicU64::new(0),
            rates: AtomicU64::new(0),
        }
    }

    // The counts so far, which begin anew.
    fn take(&self) -> Counts {
        Counts {
            events: take(&self.events),
            sends: take(&self.sends),
            breadcrumbs: take(&self.breadcrumbs),
            logs: take(&self.logs),
            metrics: take(&self.metrics),
            rates: take(&self.rates),
        }
    }
}

/// Changes nothing.
#[derive(Drop)]
struct Counting {
    counters: Arc<Counters>,
}

impl Callbacks for Counting {
    ghost use Rattle.std.specs.Prelude.{None, []};

    ghost meanings = { λ _. record {
      integrations = [];
      before_send = None;
      before_breadcrumb = None;
      before_send_log = None;
      before_send_metric = None;
      traces_sampler = None;
    } };

    fn integration_names(&self, alloc: Global) -> Result<Items<Text>, AllocError> {
        Ok(Items::new(alloc))
    }

    fn set_up(&self, _options: &mut PlainOptions) -> Result<(), AllocError> {
        Ok(())
    }

    fn process_event(
        &self,
        _event: &mut Option<Boxed<Event>>,
        _options: &PlainOptions,
    ) -> Result<(), AllocError> {
        count(&self.counters.events);
        Ok(())
    }

    fn enrich_event(&self, event: Event, _options: &PlainOptions) -> Result<Event, AllocError> {
        Ok(event)
    }

    fn before_send(&self, _event: &mut Option<Boxed<Event>>) -> Result<(), AllocError> {
        count(&self.counters.sends);
        Ok(())
    }

    fn before_breadcrumb(
        &self,
        breadcrumbs: Few<Breadcrumb>,
    ) -> Result<Few<Breadcrumb>, AllocError> {
        count(&self.counters.breadcrumbs);
        Ok(breadcrumbs)
    }

    fn before_send_log(&self, log: Log) -> Result<Option<Log>, AllocError> {
        count(&self.counters.logs);
        Ok(Some(log))
    }

    fn before_send_metric(&self, metric: Metric) -> Result<Option<Metric>, AllocError> {
        count(&self.counters.metrics);
        Ok(Some(metric))
    }

    fn traces_rate(&self, _context: &TransactionContext) -> Result<u32, AllocError> {
        count(&self.counters.rates);
        Ok(0)
    }
}

fn fresh() -> Fresh {
    Fresh {
        now: 1,
        uuid: Uuid::from_bytes([9; 16]),
        trace_id: TraceId([1; 16]),
        span_id: SpanId([1; 8]),
        draw: Draw::new(0).unwrap(),
    }
}

/// An engine with a client, a hub of it, and the counters of its callbacks.
struct Counted {
    engine: Engine<Passes, Counting>,
    client: ClientKey,
    hub: HubKey,
    counters: Arc<Counters>,
}

impl Drop for Counted {
    fn drop(self) {
        let Counted {
            engine: _,
            client: _,
            hub: _,
            counters: _,
        } = self;
    }
}

fn new_counters(alloc: Global) -> Result<Arc<Counters>, AllocError> {
    Ok(Arc::new(alloc, Counters::new())?)
}

fn one_breadcrumb(alloc: Global) -> Result<Vec<Breadcrumb>, AllocError> {
    Ok(vec![in alloc; Breadcrumb::new(alloc, 1)?]?)
}

/// With a DSN; the client's slot is occupied if it has a transport.
fn new_counted(
    alloc: Global,
    has_transport: bool,
    strategy: TracesSamplingStrategy,
) -> Result<Counted, Refusal> {
    let counters = new_counters(alloc)?;
    let callbacks = Counting {
        counters: counters.clone()?,
    };
    let mut options = ClientOptions::with_callbacks(alloc, callbacks).dsn(
        "https://public@sentry.invalid/1",
    )?;
    options.traces_sampling_strategy = strategy;
    let mut engine = Engine::new(alloc, 0);
    let label = Label { tag: 0, number: 0 };
    let client = engine.add_client(options, has_transport, label, 0)?.reply;
    let scope = Scope::new(alloc, TraceId([7; 16]), SpanId([8; 8]));
    let hub = engine.new_hub(Some(client), scope)?.reply;
    Ok(Counted {
        engine,
        client,
        hub,
        counters,
    })
}

/// What a message, a log and a metric on the hub call.
fn counts_on_hub(alloc: Global, it: &mut Counted) -> Result<[Counts; 3], Refusal> {
    it.engine
        .capture_message(it.hub, "m", Level::Error, fresh())?;
    let message = it.counters.take();
    it.engine
        .capture_log(it.hub, Log::new(alloc, LogLevel::Info, "l", 1)?)?;
    let log = it.counters.take();
    it.engine
        .capture_metric(it.hub, gauge(alloc, "g", 1)?.into_draft(), 1)?;
    Ok([message, log, it.counters.take()])
}

/// What an event, a log and a metric call that the client captures itself.
fn counts_on_client(alloc: Global, it: &mut Counted) -> Result<[Counts; 3], Refusal> {
    let scope = Scope::new(alloc, TraceId([7; 16]), SpanId([8; 8]));
    let event = Event::new(alloc, Uuid::nil(), 1)?;
    it.engine
        .client_capture_event(it.client, event, None, fresh())?;
    let event = it.counters.take();
    let log = Log::new(alloc, LogLevel::Info, "l", 1)?;
    it.engine.client_capture_log(it.client, log, &scope)?;
    let log = it.counters.take();
    let draft = gauge(alloc, "g", 1)?.into_draft();
    it.engine
        .client_capture_metric(it.client, draft, &scope, 1)?;
    Ok([event, log, it.counters.take()])
}

/// What these call, and those on the hub once more when the client is closed. What a flush and the end of the client call
/// counts for the message after them.
fn counts_of_captures(alloc: Global, has_transport: bool) -> Result<[[Counts; 3]; 3], Refusal> {
    let mut it = new_counted(alloc, has_transport, TracesSamplingStrategy::Disabled)?;
    let on_hub = counts_on_hub(alloc, &mut it)?;
    let on_client = counts_on_client(alloc, &mut it)?;
    it.engine.flush(it.client)?;
    it.engine.close(it.client)?;
    Ok([on_hub, on_client, counts_on_hub(alloc, &mut it)?])
}

/// What no breadcrumbs and one breadcrumb call.
fn counts_of_breadcrumbs(alloc: Global) -> Result<[Counts; 2], Refusal> {
    let mut it = new_counted(alloc, true, TracesSamplingStrategy::Disabled)?;
    it.engine
        .add_breadcrumbs(it.hub, Few::from_vec(Vec::new(alloc)))?;
    let none = it.counters.take();
    let one = Few::from_vec(one_breadcrumb(alloc)?);
    it.engine.add_breadcrumbs(it.hub, one)?;
    Ok([none, it.counters.take()])
}

fn new_context(alloc: Global) -> Result<TransactionContext, AllocError> {
    TransactionContext::new(alloc, "t", "op", TraceId([1; 16]), SpanId([2; 8]))
}

/// What the start of a transaction calls, and of one at a moment.
fn counts_of_starts(
    alloc: Global,
    strategy: TracesSamplingStrategy,
) -> Result<[Counts; 2], Refusal> {
    let mut it = new_counted(alloc, true, strategy)?;
    it.engine
        .start_transaction(it.hub, new_context(alloc)?, fresh())?;
    let first = it.counters.take();
    it.engine
        .start_transaction_with_timestamp(it.hub, new_context(alloc)?, 1, fresh())?;
    Ok([first, it.counters.take()])
}

const NONE: Counts = Counts {
    events: 0,
    sends: 0,
    breadcrumbs: 0,
    logs: 0,
    metrics: 0,
    rates: 0,
};

#[test]
fn each_callback_is_called_once_where_it_is_asked_for(rt: HostRuntime) -> Result<(), Fail> {
    let message = Counts {
        events: 1,
        sends: 1,
        ..NONE
    };
    let log = Counts { logs: 1, ..NONE };
    let metric = Counts { metrics: 1, ..NONE };
    let (open, empty) = ([message, log, metric], [NONE, log, metric]);
    assert!(rt; counts_of_captures(rt.alloc(), true)? == [open, open, empty]);
    assert!(rt; counts_of_captures(rt.alloc(), false)? == [empty; 3]);
    let one = Counts {
        breadcrumbs: 1,
        ..NONE
    };
    assert_eq!(rt; counts_of_breadcrumbs(rt.alloc())?, [NONE, one]);
    Ok(())
}

#[test]
fn a_sampler_is_called_only_where_it_is_the_strategy(rt: HostRuntime) -> Result<(), Fail> {
    let alloc = rt.alloc();
    let fixed = TracesSamplingStrategy::FixedRate(SampleRate::new(1_000_000)?);
    assert_eq!(rt; counts_of_starts(alloc, fixed)?, [NONE; 2]);
    assert_eq!(rt;
        counts_of_starts(alloc, TracesSamplingStrategy::Disabled)?,
        [NONE; 2]
    );
    let asked = Counts { rates: 1, ..NONE };
    assert_eq!(rt;
        counts_of_starts(alloc, TracesSamplingStrategy::Function)?,
        [asked; 2]
    );
    Ok(())
}
