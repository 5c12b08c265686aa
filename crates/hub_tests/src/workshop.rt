//! What the tests are made of: a client with a collecting transport, the hubs of a thread, options, ids and moments.
use crate::integrations::Adds;
use crate::sketch::sketch;
use scenario_run::callbacks::{BreadcrumbFilter, Handler, LogFilter, MetricFilter, NameSampler};
use sentry_core::protocol::{Draw, Fresh, Refusal, SpanId, TraceId, Uuid};
use sentry_core::{Clock, Envelope, Generator, Items, SendEnvelopes, Transport, Waiting};
use sentry_hub::Hub;
use sentry_lock::{Client, CoreLock, Locked, SharedCore};
use sentry_options::{ClientCallbacks, ClientOptions};
use sentry_scope::Scope;
use sentry_thread_hub::ThreadHub;
use std::alloc::{AllocError, Global};
use std::sync::{Arc, Mutex, Wait};
use std::thread::yield_now;

/// How often a test looks at what another thread holds or sets before it fails.
pub(crate) const LOOKS: u64 = 10_000_000;

/// Keeps what it is to send, from any thread.
#[derive(Drop)]
pub(crate) struct Collector {
    kept: Mutex<SendEnvelopes>,
}

/// A collector that tests share with clients.
pub(crate) type Sink = Arc<Collector>;

/// A collector that holds nothing.
pub(crate) fn new_sink(alloc: Global) -> Result<Sink, AllocError> {
    let kept = Mutex::new(SendEnvelopes::new(Items::new(alloc)));
    Ok(Arc::new(alloc, Collector { kept })?)
}

impl Collector {
    /// The envelopes so far, which are then forgotten. None while another thread sends one.
    pub(crate) fn take(&self, alloc: Global) -> Vec<Envelope> {
        match self.kept.try_lock() {
            Some(mut kept) => {
                let envelopes = &mut kept.envelopes;
                std::mem::replace(envelopes, Items::new(alloc)).into_vec()
            }
            None => Vec::new(alloc),
        }
    }
}

impl Transport for Collector {
    fn send_envelope(&self, envelope: Envelope) {
        for _ in 0..LOOKS {
            if let Some(mut kept) = self.kept.try_lock() {
                let envelopes = &mut kept.envelopes;
                drop(envelopes.push(envelope));
                return;
            }
            yield_now();
        }
    }
}

/// The callbacks of the clients. Only integrations are set.
pub(crate) type Callbacks = ClientCallbacks<
    Handler,
    Adds,
    BreadcrumbFilter,
    LogFilter,
    MetricFilter,
    NameSampler,
>;

/// The lock of the cores. What acts on hubs is generic in the lock, which is proved faster than over this one.
pub(crate) type Lock<R> = Locked<Handler, Callbacks, Sink, Waiting<R>>;

// With a DSN and a release, and all traces sampled. Two integrations have the name `adds`.
fn options(alloc: Global) -> Result<ClientOptions<Callbacks>, Refusal> {
    ClientOptions::from_dsn(alloc, "https://public@sentry.invalid/1")?
        .release("app")?
        .traces_sample_rate(1_000_000)?
        .add_integration(Adds(5))?
        .add_integration(Adds(7))
}

/// A client that sends to the sink, from the first second on.
pub(crate) fn add_client<R: Wait + Drop>(
    rt: R,
    alloc: Global,
    sink: &Sink,
) -> Result<Client<Lock<R>>, Refusal> {
    let core = SharedCore::new(Waiting(rt), alloc, 5)?;
    let setup = core.client_setup(options(alloc)?)?;
    Client::with_options(setup, Some(sink.clone()?), at(1))
}

/// A hub of a client, whose scope sets nothing.
pub(crate) fn add_hub<L: CoreLock>(client: &Client<L>) -> Result<Hub<L>, Refusal> {
    let core = client.core();
    let scope = Scope::new(core.allocator(), TraceId([7; 16]), SpanId([8; 8]));
    Hub::new(core, Some(client), scope)
}

// None, as long as the hub is lent. A bare `None` gets no proof here, since it tells of no such time.
fn no_client<L>(_hub: &Hub<L>) -> Option<&Client<L>> {
    None
}

/// Takes the client from the top layer of a hub.
pub(crate) fn unbind_client<L: CoreLock>(hub: &Hub<L>) -> Result<(), Refusal> {
    hub.bind_client(no_client(hub))
}

/// Stands at the second 60.
#[derive(Drop)]
pub(crate) struct Minute;

impl Clock for Minute {
    fn now(&mut self) -> u64 {
        at(60)
    }
}

/// The hubs of a thread.
pub(crate) type Thread<L> = ThreadHub<Hub<L>, Minute, Generator>;

/// What a thread draws from.
pub(crate) const SEED: [u8; 32] = [3; 32];

/// A client, the hubs of a thread whose main and current hub is its hub 0, and what the client sends to.
pub(crate) struct Bench<L> {
    alloc: Global,
    sink: Sink,
    client: Client<L>,
    pub(crate) thread: Thread<L>,
}

impl<L: Drop> Drop for Bench<L> {
    fn drop(self) {
        let Bench {
            alloc: _,
            sink: _,
            client: _,
            thread: _,
        } = self;
    }
}

impl<R: Wait + Drop> Bench<Lock<R>> {
    /// Nothing is sent yet.
    pub(crate) fn new(rt: R, alloc: Global) -> Result<Bench<Lock<R>>, Refusal> {
        let sink = new_sink(alloc)?;
        let client = add_client(rt, alloc, &sink)?;
        Bench::over(client, sink)
    }
}

impl<R: Wait + Drop> Bench<Lock<R>> {
    /// The same, but the main hub is another than the current one, and has no client any more: what is done on it sends
    /// nothing.
    pub(crate) fn apart(rt: R, alloc: Global) -> Result<Bench<Lock<R>>, Refusal> {
        let sink = new_sink(alloc)?;
        let client = add_client(rt, alloc, &sink)?;
        let thread = ThreadHub::from_main(add_hub(&client)?, Minute, SEED)?;
        unbind_client(&thread.main)?;
        Ok(Bench {
            alloc,
            sink,
            client,
            thread,
        })
    }
}

impl<L: CoreLock> Bench<L> {
    // The hub is of this client, which sends to this sink.
    fn over(client: Client<L>, sink: Sink) -> Result<Bench<L>, Refusal> {
        let alloc = client.core().allocator();
        let thread = ThreadHub::new(add_hub(&client)?, Minute, SEED)?;
        Ok(Bench {
            alloc,
            sink,
            client,
            thread,
        })
    }

    /// What is sent until the client is flushed, as a text.
    pub(crate) fn finish(self) -> Result<String, Refusal> {
        self.client.flush(None)?;
        let sent = self.sink.take(self.alloc);
        Ok(sketch(self.alloc, sent.as_slice())?)
    }
}

/// Sets a tag by a closure, which answers whether the copy of the scope that it is lent has no tags.
pub(crate) fn set_tag<L: CoreLock>(hub: &Hub<L>, key: &str, value: &str) -> Result<bool, Refusal> {
    hub.configure_scope(at(1), |edits| {
        edits.set_tag(key, value)?;
        Ok(edits.scope().tags.is_empty())
    })
}

/// The id of a number: different numbers give different ids.
pub(crate) fn id(number: u8) -> Uuid {
    Uuid::from_u128(u128::from(number))
}

/// The moment of a second.
pub(crate) fn at(second: u8) -> u64 {
    u64::from(second) * 1_000_000_000
}

/// What a call is handed at the second of this number: ids of that number.
pub(crate) fn fresh(number: u8) -> Fresh {
    Fresh {
        now: at(number),
        uuid: id(number),
        trace_id: TraceId([number; 16]),
        span_id: SpanId([number; 8]),
        draw: Draw::new(0).unwrap(),
    }
}
