//! A client whose server asks it to send no errors for a while. Its envelopes wait in a queue, which a thread of its
//! own passes on to a transport that prints them. What the limit keeps back is told by the next report.
use crate::clocks::SetMoment;
use crate::printing::Printer;
use crate::setup::{fresh, options};
use anyhow::{Result, bail};
use sentry_core::protocol::{Category, Event, Uuid};
use sentry_core::queueing::{Pump, QueueTransport};
use sentry_core::{BoxedEventCallback, ClientCallbacks, Text, Waiting};
use sentry_lock::{Locked, SharedCore, client};
use std::alloc::{AllocError, Global};
use std::sync::atomic::{AtomicU64, Ordering};
use std::sync::{Arc, Wait};
use std::thread::Threads;
use std::time::Clock;

type Queue<R> = QueueTransport<R, Printer<HostRuntime>, SetMoment>;

/// A client that calls its transport without a box.
type Client<R> = client::Client<
    Locked<BoxedEventCallback, ClientCallbacks, Arc<Queue<R>>, Waiting<R>>,
>;

/// Runs the example.
pub fn run<R: Threads + Wait + Clock + Copy + Drop + Send + Sync + 'static>(
    rt: R,
    host: HostRuntime,
) -> Result<()> {
    let alloc = host.alloc();
    let moment = Arc::new(alloc, AtomicU64::new(0))?;
    let (client, queue) = client_over_queue(rt, host, moment.clone()?)?;
    let pump = Pump::start(rt, alloc, queue.clone()?)?;
    let played = play(&client, &queue, &moment);
    pump.stop(&rt);
    played?;
    // passes on what still waits, and sends the report
    client.close(None)?;
    Ok(())
}

// The queue of the client's options, and the client over it.
fn client_over_queue<R: Wait + Copy + Drop>(
    rt: R,
    host: HostRuntime,
    moment: Arc<AtomicU64>,
) -> Result<(Client<R>, Arc<Queue<R>>)> {
    let alloc = host.alloc();
    let core = SharedCore::new(Waiting(rt), alloc, 0)?;
    let mut setup = core.client_setup(options(alloc)?)?;
    let Some(options) = setup.transport_options()? else {
        bail!("the options have no DSN");
    };
    let queue = QueueTransport::new(rt, alloc, options, Printer(host), SetMoment(moment))?;
    let queue = shared(alloc, queue)?;
    let client = Client::with_options(setup, Some(queue.clone()?), 0)?;
    Ok((client, queue))
}

fn shared<R: Wait + Drop>(alloc: Global, queue: Queue<R>) -> Result<Arc<Queue<R>>, AllocError> {
    Ok(Arc::new(alloc, queue)?)
}

// Errors before, during and after a limit.
fn play<R: Wait + Drop>(client: &Client<R>, queue: &Queue<R>, moment: &AtomicU64) -> Result<()> {
    moment.store(1, Ordering::SeqCst);
    capture(client, moment, "the till is slow")?;
    queue.limit(Some(Category::Error), 10);
    moment.store(9, Ordering::SeqCst);
    capture(client, moment, "no paper left")?;
    moment.store(10, Ordering::SeqCst);
    capture(client, moment, "the till is closed")
}

// An event with a message, at the moment.
fn capture<R: Wait + Drop>(client: &Client<R>, moment: &AtomicU64, message: &str) -> Result<()> {
    let now = moment.load(Ordering::SeqCst);
    let id = u128::from(now);
    let alloc = client.core().allocator();
    let mut event = Event::new(alloc, Uuid::from_u128(id), now)?;
    event.message = Some(Text::new(alloc, message)?);
    client.capture_event(event, None, fresh(now, id))?;
    Ok(())
}
