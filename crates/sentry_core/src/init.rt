//! The start of a program: a client, its hub, and the hubs of the first thread.
use crate::boxed::{
    Client, ClientOptions, ClientSetup, Generator, Hub, Scope, Seed, SharedCore, ThreadHub,
};
use sentry_base::clock::{BoxedClock, TickClock};
use sentry_base::protocol::{Fresh, Refusal};
use sentry_hub::worker::{BoxedJoiner, Worker};
use sentry_lock::BoxedGate;
use sentry_thread_hub::Refused;
use sentry_transport::{BoxedTransport, TransportOptions};
use std::alloc::Global;
use std::sync::Wait;
use std::thread::Threads;

/// A worker that ticks the client of a program, and what waits for its end.
#[derive(Drop)]
struct Ticker {
    worker: Worker,
    joiner: BoxedJoiner,
}

impl Ticker {
    // Stops the worker, and waits until its thread has ended.
    fn stop(self) {
        let Ticker { worker, joiner } = self;
        joiner.join(worker);
    }
}

// Starts the worker. A function that is also handed a box gets no proof of `Send` here.
fn start_worker<R: Threads + Wait + Copy + Send + 'static, K: TickClock + Drop + Send + 'static>(
    rt: R,
    client: Client,
    ticks: K,
) -> Result<Worker, Refusal> {
    Worker::start(rt, client, ticks)
}

/// The client of a program, which is closed when this is dropped: what waits is sent then. A worker that ticks the client
/// is stopped before, and its thread has ended then. Whether all was sent, and what is refused, only `close` tells.
pub struct ClientInitGuard {
    client: Client,
    ticker: Option<Ticker>,
}

impl ClientInitGuard {
    /// The client.
    pub fn client(&self) -> &Client {
        &self.client
    }

    /// Starts a worker that ticks the client at the moments of a clock, until the guard is closed or dropped. `joiner`
    /// waits for its thread then. If the guard has a worker, that one is stopped once the new one has started.
    ///
    /// `OutOfMemory`, also where the system has no thread: then the client is closed.
    pub fn ticked<R: Threads + Wait + Copy + Send + 'static, K: TickClock + Drop + Send + 'static>(
        self,
        rt: R,
        ticks: K,
        joiner: BoxedJoiner,
    ) -> Result<ClientInitGuard, Refusal> {
        let worker = start_worker(rt, self.client.clone()?, ticks)?;
        Ok(self.with_ticker(Ticker { worker, joiner }))
    }

    // The same client with this worker in place of the one that it has.
    fn with_ticker(self, ticker: Ticker) -> ClientInitGuard {
        let ClientInitGuard {
            client,
            ticker: earlier,
        } = self;
        if let Some(earlier) = earlier {
            earlier.stop();
        }
        ClientInitGuard {
            client,
            ticker: Some(ticker),
        }
    }

    /// Stops the worker, if there is one, closes the client, and answers whether its transport has sent all.
    ///
    /// `Stale`: the client isn't held. `OutOfMemory`.
    pub fn close(self) -> Result<bool, Refusal> {
        let ClientInitGuard { client, ticker } = self;
        if let Some(ticker) = ticker {
            ticker.stop();
        }
        client.close(None)
    }
}

impl Drop for ClientInitGuard {
    fn drop(self) {
        drop(self.close());
    }
}

/// What a program starts from, before the transport of its client is made.
pub struct Starting {
    core: SharedCore,
    setup: ClientSetup,
    fresh: Fresh,
    clock: BoxedClock,
    generator: Generator,
}

impl Drop for Starting {
    fn drop(self) {
        let Starting {
            core: _,
            setup: _,
            fresh: _,
            clock: _,
            generator: _,
        } = self;
    }
}

/// What a client of these options and the hubs of a thread start from. The tag of the client's keys and the ids of its
/// scope are the first that the generator of the seed draws.
///
/// What the engine refuses of a client; `OutOfMemory`.
pub fn prepare(
    alloc: Global,
    wait: BoxedGate,
    options: ClientOptions,
    clock: BoxedClock,
    seed: Seed,
) -> Result<Starting, Refusal> {
    let mut drawing = sentry_thread_hub::ThreadHub::new((), clock, seed)?;
    let fresh = drawing.fresh();
    let (_, tag) = fresh.uuid.as_u64_pair();
    let core = SharedCore::new(wait, alloc, tag)?;
    let setup = core.client_setup(options)?;
    Ok(Starting {
        core,
        setup,
        fresh,
        clock: drawing.clock,
        generator: drawing.generator,
    })
}

impl Starting {
    /// The DSN and the rest of what a transport is made of, with the recorder of what it loses: the client reports that.
    /// `None` if the client has no DSN, and the second time.
    ///
    /// `OutOfMemory`.
    pub fn transport_options(&mut self) -> Result<Option<TransportOptions>, Refusal> {
        self.setup.transport_options()
    }

    /// A client with this transport, and the hubs of a thread, of which the main and the current one is a hub with that
    /// client.
    ///
    /// What the engine refuses of a client and a hub; `OutOfMemory`.
    pub fn start(self, transport: BoxedTransport) -> Result<(ClientInitGuard, ThreadHub), Refusal> {
        let Starting {
            core,
            setup,
            fresh,
            clock,
            generator,
        } = self;
        let client = Client::with_options(setup, Some(transport), fresh.now)?;
        let scope = Scope::new(core.allocator(), fresh.trace_id, fresh.span_id);
        let main = Hub::new(&core, Some(&client), scope)?;
        let thread = ThreadHub {
            current: main.clone()?,
            main,
            clock,
            generator,
            request: None,
            refused: Refused::nothing(),
        };
        let ticker = None;
        Ok((ClientInitGuard { client, ticker }, thread))
    }
}

/// A client with a transport, and the hubs of a thread: `prepare` and `Starting::start` at once. The transport gets no
/// recorder.
///
/// What the engine refuses of a client and a hub; `OutOfMemory`.
pub fn start(
    alloc: Global,
    wait: BoxedGate,
    options: ClientOptions,
    transport: BoxedTransport,
    clock: BoxedClock,
    seed: Seed,
) -> Result<(ClientInitGuard, ThreadHub), Refusal> {
    let starting = prepare(alloc, wait, options, clock, seed)?;
    starting.start(transport)
}
