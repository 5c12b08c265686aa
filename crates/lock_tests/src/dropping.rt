//! What a client is refused with, what a layer, a hub or a client that goes had, and what a call as a value took, is
//! dropped without the lock: the drop of a transport, a processor or callbacks waits until another thread has made a
//! call on the same core.
use crate::crowd::{new_scope, pop_in_turn};
use crate::quiet::Quiet;
use crate::workshop::{Held, Options, event, fresh, options};
use sentry_base::callbacks::EventCallback;
use sentry_base::protocol::{
    ClientKey, Envelope, Event, HubKey, Log, LogLevel, Refusal, SpanId, TraceId,
};
use sentry_batches::metrics::{IntoProtocolMetric, counter};
use sentry_calls::call::{Call, ClientCall, HubCall};
use sentry_lock::{CoreLock, Locked, SharedCore, Waiting};
use sentry_options::ClientOptions;
use sentry_plain::{Boxed, Items};
use sentry_scope::{Scope, ScopeEdit};
use sentry_transport::{NoOpTransport, Transport};
use std::alloc::{AllocError, Global};
use std::sync::Arc;
use std::sync::atomic::{AtomicBool, AtomicU64, Ordering};
use std::test::Fail;
use std::thread::{join, yield_now};

/// How often one thread looks for what the other does.
const LOOKS: u64 = 2_000_000;

/// How many drops wait, how many of them were answered by a call, and whether no more come.
#[derive(Drop)]
pub(crate) struct Partings {
    begun: AtomicU64,
    answered: AtomicU64,
    is_over: AtomicBool,
}

impl Partings {
    fn new(alloc: Global) -> Result<Arc<Partings>, AllocError> {
        let partings = Partings {
            begun: AtomicU64::new(0),
            answered: AtomicU64::new(0),
            is_over: AtomicBool::new(false),
        };
        Ok(Arc::new(alloc, partings)?)
    }

    fn is_answered(&self, number: u64) -> bool {
        number < self.answered()
    }

    // Waits for an answer, and gives up after many looks.
    fn wait(&self) {
        let number = self.begun.fetch_add(1, Ordering::SeqCst);
        for _ in 0..LOOKS {
            if self.is_answered(number) || self.is_over() {
                return;
            }
            yield_now();
        }
        self.end();
    }

    fn is_over(&self) -> bool {
        self.is_over.load(Ordering::SeqCst)
    }

    fn end(&self) {
        self.is_over.store(true, Ordering::SeqCst);
    }

    fn answered(&self) -> u64 {
        self.answered.load(Ordering::SeqCst)
    }

    /// Makes a call for each drop that waits, until no more come.
    fn answer_each<L: CoreLock>(&self, core: &SharedCore<L>) {
        for _ in 0..LOOKS {
            let answered = self.answered();
            if answered < self.begun.load(Ordering::SeqCst) {
                let _held = core.held();
                self.answered
                    .store(answered.wrapping_add(1), Ordering::SeqCst);
            }
            if self.is_over() {
                return;
            }
            yield_now();
        }
    }
}

/// Its drop waits.
pub(crate) struct Slow {
    partings: Arc<Partings>,
}

impl Drop for Slow {
    fn drop(self) {
        let Slow { partings } = self;
        partings.wait();
    }
}

impl Slow {
    fn new(partings: &Arc<Partings>) -> Result<Slow, AllocError> {
        Ok(Slow {
            partings: partings.clone()?,
        })
    }
}

impl Transport for Slow {
    fn send_envelope(&self, _envelope: Envelope) {}
}

impl EventCallback for Slow {
    ghost use Rattle.std.specs.Prelude.{Some};

    ghost gives = { λ _ event. Some event };

    fn call(&self, event: Event) -> Result<Option<Event>, AllocError> {
        Ok(Some(event))
    }
}

/// Whether a client is refused.
fn is_refused<L: CoreLock>(
    core: &SharedCore<L>,
    options: ClientOptions<L::Callbacks>,
    transport: L::Transport,
) -> bool {
    Held::on(core, options, Some(transport)).err() == Some(Refusal::OutOfMemory)
}

fn scope_with_processor<L: CoreLock<Processor = Slow>>(
    core: &SharedCore<L>,
    partings: &Arc<Partings>,
) -> Result<Scope<Slow>, AllocError> {
    let mut scope = new_scope(core);
    scope.add_event_processor(Slow::new(partings)?)?;
    Ok(scope)
}

fn boxed_scope<L: CoreLock<Processor = Slow>>(
    core: &SharedCore<L>,
    partings: &Arc<Partings>,
) -> Result<Boxed<Scope<Slow>>, AllocError> {
    Boxed::new(core.allocator(), scope_with_processor(core, partings)?)
}

/// A hub of one layer with a processor.
fn hub_with_processor<L: CoreLock<Processor = Slow>>(
    core: &SharedCore<L>,
    partings: &Arc<Partings>,
) -> Result<HubKey, Refusal> {
    core.new_hub(None, scope_with_processor(core, partings)?)
}

/// Adds a processor to the top layer.
fn add_processor<L: CoreLock<Processor = Slow>>(
    core: &SharedCore<L>,
    hub: HubKey,
    partings: &Arc<Partings>,
) -> Result<(), Refusal> {
    let mut edits = Vec::with_capacity(core.allocator(), 1)?;
    edits.push_reserved(ScopeEdit::AddEventProcessor(Slow::new(partings)?));
    core.lock_hub(hub).configure(edits, 1)
}

fn one_clear(alloc: Global) -> Result<Vec<ScopeEdit<Slow>>, AllocError> {
    let mut edits = Vec::with_capacity(alloc, 1)?;
    edits.push_reserved(ScopeEdit::Clear(TraceId([1; 16]), SpanId([2; 8])));
    Ok(edits)
}

/// A client that no core holds.
fn no_client() -> ClientKey {
    ClientKey { tag: 1, number: 99 }
}

/// A pop, a clear, a release, and a hub that is refused.
fn let_go_by_methods<L: CoreLock<Processor = Slow>>(
    core: &SharedCore<L>,
    partings: &Arc<Partings>,
) -> Result<(), Refusal> {
    let hub = core.new_hub(None, new_scope(core))?;
    let guard = core.push_scope(hub)?;
    let added = add_processor(core, hub, partings);
    pop_in_turn(core, guard)?;
    added?;
    add_processor(core, hub, partings)?;
    core.lock_hub(hub)
        .configure(one_clear(core.allocator())?, 1)?;
    add_processor(core, hub, partings)?;
    core.lock_hub(hub).release_hub(1)?;
    drop(core.new_hub(Some(no_client()), scope_with_processor(core, partings)?));
    Ok(())
}

/// The same by calls as values.
fn let_go_by_values<L: CoreLock<Processor = Slow>>(
    core: &SharedCore<L>,
    partings: &Arc<Partings>,
) -> Result<(), Refusal> {
    let alloc = core.allocator();
    let hub = core.new_hub(None, new_scope(core))?;
    core.call(Call::Hub(HubCall::PushScope(hub)))?;
    add_processor(core, hub, partings)?;
    core.call(Call::Hub(HubCall::PopScope {
        hub,
        depth: 1,
        now: 1,
    }))?;
    add_processor(core, hub, partings)?;
    let edits = Items::from_vec(one_clear(alloc)?);
    core.call(Call::Hub(HubCall::Configure { hub, edits, now: 1 }))?;
    add_processor(core, hub, partings)?;
    core.call(Call::Hub(HubCall::ReleaseHub { hub, now: 1 }))?;
    let refused = HubCall::NewHub {
        client: Some(no_client()),
        scope: boxed_scope(core, partings)?,
    };
    drop(core.call(Call::Hub(refused)));
    let hub = hub_with_processor(core, partings)?;
    let mut calls = Vec::with_capacity(alloc, 1)?;
    calls.push_reserved(Call::Hub(HubCall::ReleaseHub { hub, now: 1 }));
    core.call_all(calls)
}

/// Scopes that calls as values take.
fn let_go_of_scopes<L: CoreLock<Processor = Slow>>(
    core: &SharedCore<L>,
    partings: &Arc<Partings>,
) -> Result<(), Refusal> {
    let alloc = core.allocator();
    let client = no_client();
    let prepared = ClientCall::PrepareEvent {
        client,
        event: Boxed::new(alloc, event(alloc, 1)?)?,
        scope: Some(boxed_scope(core, partings)?),
        fresh: fresh(1),
    };
    drop(core.call(Call::Client(prepared)));
    let captured = ClientCall::ClientCaptureEvent {
        client,
        event: Boxed::new(alloc, event(alloc, 2)?)?,
        scope: Some(boxed_scope(core, partings)?),
        fresh: fresh(2),
    };
    drop(core.call(Call::Client(captured)));
    let log = ClientCall::ClientCaptureLog {
        client,
        log: Boxed::new(alloc, Log::new(alloc, LogLevel::Info, "x", 1)?)?,
        scope: boxed_scope(core, partings)?,
    };
    drop(core.call(Call::Client(log)));
    let metric = ClientCall::ClientCaptureMetric {
        client,
        draft: Boxed::new(alloc, counter(alloc, "c", 1)?.into_draft())?,
        scope: boxed_scope(core, partings)?,
        now: 1,
    };
    drop(core.call(Call::Client(metric)));
    Ok(())
}

/// A client whose callbacks are dropped slowly.
fn slow_client<L: CoreLock<Callbacks = Quiet>>(
    core: &SharedCore<L>,
    partings: &Arc<Partings>,
) -> Result<Held<L>, Refusal> {
    let mut options: Options = options(core.allocator(), false)?;
    options.callbacks.slow = Some(Slow::new(partings)?);
    Held::on(core, options, None)
}

/// Clients that are given back.
fn let_go_of_clients<L: CoreLock<Callbacks = Quiet>>(
    core: &SharedCore<L>,
    partings: &Arc<Partings>,
) -> Result<(), Refusal> {
    slow_client(core, partings)?.client.drop_client()?;
    let client = slow_client(core, partings)?.client.key();
    core.call(Call::Client(ClientCall::DropClient(client)))?;
    let client = slow_client(core, partings)?.client.key();
    let mut calls = Vec::with_capacity(core.allocator(), 1)?;
    calls.push_reserved(Call::Client(ClientCall::DropClient(client)));
    core.call_all(calls)
}

/// How many drops there are in all of these.
const DROPS: u64 = 16;

fn let_go_of_all<L: CoreLock<Processor = Slow, Callbacks = Quiet>>(
    core: &SharedCore<L>,
    partings: &Arc<Partings>,
) -> Result<(), Refusal> {
    let_go_by_methods(core, partings)?;
    let_go_by_values(core, partings)?;
    let_go_of_scopes(core, partings)?;
    let_go_of_clients(core, partings)
}

#[test]
fn a_refused_transport_is_dropped_without_the_lock(rt: HostRuntime) -> Result<(), Fail> {
    let alloc: Global = rt.alloc();
    let partings = Partings::new(alloc)?;
    let transport = Arc::new(alloc, Slow::new(&partings)?)?;
    let core: SharedCore<crate::workshop::Lock<Slow, HostRuntime>> = SharedCore::new(
        Waiting(rt),
        alloc,
        1,
    )?;
    let mut refused: Options = options(alloc, false)?;
    refused.callbacks.has_no_set_up = true;
    let (is_refused, ()) = join(
        &rt,
        || {
            let is_refused = is_refused(&core, refused, transport);
            partings.end();
            is_refused
        },
        || partings.answer_each(&core),
    );
    assert!(rt; is_refused && partings.answered() == 1);
    Ok(())
}

#[test]
fn what_calls_let_go_is_dropped_without_the_lock(rt: HostRuntime) -> Result<(), Fail> {
    let alloc: Global = rt.alloc();
    let partings = Partings::new(alloc)?;
    let core: SharedCore<Locked<Slow, Quiet, NoOpTransport, Waiting<HostRuntime>>> =
        SharedCore::new(Waiting(rt), alloc, 1)?;
    let (let_go, ()) = join(
        &rt,
        || {
            let let_go = let_go_of_all(&core, &partings);
            partings.end();
            let_go
        },
        || partings.answer_each(&core),
    );
    let answered = partings.answered();
    assert!(rt; let_go.is_ok() && answered == DROPS);
    Ok(())
}
