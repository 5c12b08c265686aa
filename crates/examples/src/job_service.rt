//! A service whose worker threads run jobs: each thread has hubs of its own, which are made from the main one, and each
//! job runs in a transaction that continues the trace of whoever asked for it. The envelopes go through a queue.
use crate::setup::{DSN, fresh};
use crate::tally::Tally;
use crate::threads::{Task, Thread, make_tasks, run_tasks, start_task};
use anyhow::{Result, bail};
use sentry_core::metrics::{CaptureMetric, counter, distribution};
use sentry_core::protocol::{Event, Refusal, SpanStatus, Unit};
use sentry_core::queueing::{Pump, QueueTransport};
use sentry_core::{
    BoxedBreadcrumbCallback, BoxedEventCallback, BoxedIntegration, BoxedLogCallback,
    BoxedMetricCallback, BoxedTracesSampler, EventCallback, Level, Scope, SessionMode, SystemClock,
    Transport, TransportOptions, Waiting, add_breadcrumb, capture_error, capture_message,
    configure_scope, continue_from_headers, end_session, in_new_hub, in_scope, in_span,
    in_transaction, logger_error, logger_info, start_session,
};
use sentry_hub::Hub;
use sentry_hub::performance::Transaction;
use sentry_lock::{Client, CoreLock, Locked, SharedCore};
use sentry_options::{ClientCallbacks, ClientOptions};
use std::alloc::{AllocError, Global};
use std::sync::{Arc, Wait};
use std::thread::Threads;
use std::time::Clock;
use thiserror::Error;

const WORKERS: u8 = 4;

/// The jobs of each worker.
const JOBS: [Job; 3] = [
    Job {
        name: "welcome",
        mailbox_is_full: false,
    },
    Job {
        name: "invoice",
        mailbox_is_full: true,
    },
    Job {
        name: "reminder",
        mailbox_is_full: false,
    },
];

/// The trace of whoever asked for the jobs.
const TRACE: [(&str, &str); 1] = [(
    "sentry-trace",
    "09e04486820349518ac7b5d2adbf6ba5-9cf635fa5b870b3a-1",
)];

/// A mail that is to be sent.
#[derive(Clone, Copy)]
struct Job {
    name: &'static str,
    mailbox_is_full: bool,
}

/// Why a mail was not delivered.
#[derive(Debug, Drop, Error)]
enum DeliveryError {
    #[error("the mailbox of {user} is full")]
    MailboxFull { user: u64 },
}

#[derive(Debug, Drop, Error)]
enum JobError {
    #[error("job {name} failed")]
    Failed {
        name: &'static str,
        source: DeliveryError,
    },
}

/// A `before_send` that drops what happens in tests of the service.
#[derive(Drop)]
struct DropTests;

impl EventCallback for DropTests {
    ghost use Rattle.std.specs.Prelude.{◌==◌, Some, None, [], if◌then◌else◌, codes, unwrap_or};
    ghost use Rattle.std.specs.List.{starts_with};

    ghost gives = { λ _ event. if starts_with ◌==◌ (unwrap_or event.message []) (codes "test") then None
        else Some event };

    fn call(&self, event: Event) -> Result<Option<Event>, AllocError> {
        if let Some(message) = &event.message {
            if message.as_str().starts_with("test") {
                return Ok(None);
            }
        }
        Ok(Some(event))
    }
}

type Queue<R> = QueueTransport<R, Arc<Tally>, SystemClock<R>>;

type Callbacks = ClientCallbacks<
    DropTests,
    BoxedIntegration,
    BoxedBreadcrumbCallback,
    BoxedLogCallback,
    BoxedMetricCallback,
    BoxedTracesSampler,
>;

/// The lock of the service. What it calls is named by its type, and in no box: the callback, the transport and what waits.
type Lock<R, T> = Locked<BoxedEventCallback, Callbacks, T, Waiting<R>>;

type QueueLock<R> = Lock<R, Arc<Queue<R>>>;

// The options of the client. Up to a hundred envelopes may wait in the queue.
fn options(alloc: Global) -> Result<ClientOptions<Callbacks>, Refusal> {
    let options = ClientOptions::from_dsn(alloc, DSN)?
        .release("mail@1.0.0")?
        .traces_sample_rate(1_000_000)?
        .before_send(DropTests)?;
    Ok(
        options
            .session_mode(SessionMode::Request)
            .transport_channel_capacity(100),
    )
}

// The client, the main hub, the queue, and what counts behind it.
struct Service<R: Wait + Drop> {
    client: Client<QueueLock<R>>,
    main: Hub<QueueLock<R>>,
    queue: Arc<Queue<R>>,
    tally: Arc<Tally>,
}

impl<R: Wait + Drop> Drop for Service<R> {
    fn drop(self) {
        let Service {
            client: _,
            main: _,
            queue: _,
            tally: _,
        } = self;
    }
}

fn open_queue<R: Wait + Clock + Copy + Drop>(
    rt: R,
    alloc: Global,
    options: TransportOptions,
    tally: Arc<Tally>,
) -> Result<Arc<Queue<R>>> {
    let queue = QueueTransport::new(rt, alloc, options, tally, SystemClock(rt))?;
    Ok(Arc::new(alloc, queue)?)
}

fn open<R: Wait + Clock + Copy + Drop>(rt: R, alloc: Global) -> Result<Service<R>> {
    let now = sentry_core::Clock::now(&mut SystemClock(rt));
    let core = SharedCore::new(Waiting(rt), alloc, 0)?;
    let mut setup = core.client_setup(options(alloc)?)?;
    let Some(options) = setup.transport_options()? else {
        bail!("the options have no DSN");
    };
    let tally = Arc::new(alloc, Tally::new())?;
    let queue = open_queue(rt, alloc, options, tally.clone()?)?;
    let client = Client::with_options(setup, Some(queue.clone()?), now)?;
    let first = fresh(now, 1);
    let scope = Scope::new(alloc, first.trace_id, first.span_id);
    let main = Hub::new(&core, Some(&client), scope)?;
    Ok(Service {
        client,
        main,
        queue,
        tally,
    })
}

/// Runs the example.
pub fn run<R: Threads + Wait + Clock + Print + Copy + Drop + Send + Sync + 'static>(
    rt: R,
    alloc: Global,
) -> Result<()> {
    let service = open(rt, alloc)?;
    work_beside_pump(rt, &service.queue, &service.main)?;
    service.client.close(None)?;
    Ok(service.tally.print(&rt)?)
}

// All jobs of all workers, while the queue is pumped. That the lock may be shared by threads is proved of any transport.
fn work_beside_pump<
    R: Threads + Wait + Clock + Copy + Drop + Send + Sync + 'static,
    T: Transport + Drop + Send + Sync + 'static,
>(rt: R, queue: &Arc<Queue<R>>, main: &Hub<Lock<R, T>>) -> Result<()> {
    let pump = Pump::start(rt, main.allocator(), queue.clone()?)?;
    let worked = work_in_threads(&rt, main);
    pump.stop(&rt);
    worked
}

fn work_in_threads<R: Threads + Sync, L: CoreLock + Send + Sync + 'static>(
    rt: &R,
    main: &Hub<L>,
) -> Result<()>
where
    L::Processor: Send + Sync + 'static,
    L::Callbacks: Send + Sync + 'static,
    L::Transport: Send + Sync + 'static,
{
    let tasks = make_tasks(main, WORKERS)?;
    run_tasks(rt, tasks, |task: Task<L>| work(task))
}

fn work<L: CoreLock>(task: Task<L>) -> Result<()> {
    let mut thread = start_task(task)?;
    for job in JOBS {
        in_new_hub(&mut thread, |thread| run_job(thread, &job))?;
    }
    let hub = Hub::current(&thread)?;
    Ok(hub.release(&mut thread)?)
}

// A job on the current hub, in a session of its own.
fn run_job<L: CoreLock>(thread: &mut Thread<L>, job: &Job) -> Result<()> {
    configure_scope(thread, |scope| scope.set_tag("job", job.name))?;
    start_session(thread)?;
    let context = continue_from_headers(thread, job.name, "queue.process", TRACE)?;
    in_transaction(thread, context, |thread, transaction| -> Result<()> {
        logger_info!(thread, attempt = 1u64, "job {} starts", job.name)?;
        in_span(
            thread,
            transaction,
            "render",
            "render the mail",
            |thread, _| render(thread),
        )?;
        send(thread, job, transaction)?;
        count_job(thread, job)
    })?;
    end_session(thread)?;
    Ok(())
}

fn render<L: CoreLock>(thread: &mut Thread<L>) -> Result<()> {
    in_scope(
        thread,
        |scope| scope.set_tag("step", "render"),
        |thread| -> Result<()> {
            add_breadcrumb(thread, ("template", "the template is loaded"))?;
            capture_message(thread, "the logo is missing", Level::Warning)?;
            capture_message(thread, "test: the mail is rendered", Level::Info)?;
            Ok(())
        },
    )
}

// The work of the service. It knows nothing of a client.
fn deliver(job: &Job) -> Result<(), JobError> {
    if job.mailbox_is_full {
        return Err(JobError::Failed {
            name: job.name,
            source: DeliveryError::MailboxFull { user: 5 },
        });
    }
    Ok(())
}

fn send<L: CoreLock>(
    thread: &mut Thread<L>,
    job: &Job,
    transaction: &Transaction<L>,
) -> Result<()> {
    in_span(
        thread,
        transaction,
        "send",
        "send the mail",
        |thread, span| -> Result<()> {
            if let Err(error) = deliver(job) {
                let JobError::Failed { source, .. } = &error;
                capture_error(thread, (&error, source))?;
                logger_error!(thread, "job {} failed", job.name)?;
                span.set_status(SpanStatus::InternalError)?;
            }
            Ok(())
        },
    )
}

fn count_job<L: CoreLock>(thread: &mut Thread<L>, job: &Job) -> Result<()> {
    let alloc = thread.current.allocator();
    counter(alloc, "jobs", 1)?
        .attribute("name", job.name)?
        .capture(thread)?;
    distribution(alloc, "duration", 17)?
        .unit(Unit::Millisecond)
        .capture(thread)?;
    Ok(())
}
