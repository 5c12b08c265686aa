//! A worker ticks a client while four threads log, each on a hub of its own. However the threads take turns, each log
//! is sent once.
use crate::clocks::{Steps, Ticks};
use crate::setup::{SEED, options};
use crate::threads::{Task, make_tasks, run_tasks, start_task};
use anyhow::Result;
use sentry_core::protocol::{EnvelopeItem, Log, Value};
use sentry_core::{
    BoxedClock, BoxedGate, BoxedTransport, Envelope, Transport, Worker, logger_info, start,
};
use sentry_hub::Hub;
use sentry_lock::{Client, CoreLock};
use std::alloc::{AllocError, Global};
use std::io;
use std::sync::atomic::{AtomicU64, Ordering};
use std::sync::{Arc, Wait};
use std::thread::Threads;
use std::time::Clock;

const JOBS: u8 = 4;

/// How often each job logs.
const STEPS: u64 = 250;

/// Runs the example.
pub fn run<R: Threads + Wait + Clock + Print + Copy + Drop + Send + Sync + 'static>(
    rt: R,
    alloc: Global,
    wait: BoxedGate,
) -> Result<()> {
    let seen = Arc::new(alloc, Seen::new(alloc)?)?;
    let transport: BoxedTransport = Box::new(alloc, seen.clone()?)?;
    let clock: BoxedClock = Box::new(alloc, Steps::of_seconds(1))?;
    let (sentry, thread) = start(alloc, wait, options(alloc)?, transport, clock, SEED)?;
    log_beside_worker(rt, sentry.client(), &thread.main)?;
    sentry.close()?;
    seen.print(&rt)?;
    Ok(())
}

// All jobs, while a worker ticks the client.
fn log_beside_worker<
    R: Threads + Wait + Clock + Copy + Drop + Send + Sync + 'static,
    L: CoreLock + Send + Sync + 'static,
>(rt: R, client: &Client<L>, main: &Hub<L>) -> Result<()>
where
    L::Processor: Send + Sync + 'static,
    L::Callbacks: Send + Sync + 'static,
    L::Transport: Send + Sync + 'static,
{
    let tasks = make_tasks(main, JOBS)?;
    let worker = Worker::start(rt, client.clone()?, Ticks::new(rt))?;
    let logged = run_tasks(&rt, tasks, |task: Task<L>| log_all(task));
    worker.stop(&rt);
    logged
}

// So many logs, on a hub of its own.
fn log_all<L: CoreLock>(task: Task<L>) -> Result<()> {
    let number = task.number;
    let mut thread = start_task(task)?;
    for step in 0..STEPS {
        logger_info!(thread, job = number, step = step, "step {}", step)?;
    }
    let hub = Hub::current(&thread)?;
    Ok(hub.release(&mut thread)?)
}

/// Counts how often it is to send each log, by job and step. A real transport sends them.
#[derive(Drop)]
pub struct Seen {
    jobs: Vec<Vec<AtomicU64>>,
}

impl Seen {
    /// A transport that was handed nothing.
    pub fn new(alloc: Global) -> Result<Seen, AllocError> {
        let mut jobs = Vec::new(alloc);
        for _ in 0..JOBS {
            let mut steps = Vec::new(alloc);
            for _ in 0..STEPS {
                steps.push(AtomicU64::new(0))?;
            }
            jobs.push(steps)?;
        }
        Ok(Seen { jobs })
    }

    // The count of a log, if a job made it.
    fn find(&self, log: &Log) -> Option<&AtomicU64> {
        let steps = self.jobs.get(number_of(log, "job")?)?;
        steps.get(number_of(log, "step")?)
    }

    /// A line for each job: how many of its logs came once.
    pub fn print(&self, rt: &impl Print) -> io::Result<()> {
        for (job, steps) in self.jobs.iter().enumerate() {
            println!(rt; "job {job}: {} logs", count_ones(steps.as_slice()))?;
        }
        Ok(())
    }
}

fn count_ones(counts: &[AtomicU64]) -> usize {
    let mut ones = 0usize;
    for count in counts {
        if count.load(Ordering::SeqCst) == 1 {
            ones = ones.saturating_add(1);
        }
    }
    ones
}

impl Transport for Seen {
    fn send_envelope(&self, envelope: Envelope) {
        for item in envelope.items.as_slice() {
            if let EnvelopeItem::Logs(logs) = item {
                for log in logs.as_slice() {
                    if let Some(count) = self.find(log) {
                        count.fetch_add(1, Ordering::SeqCst);
                    }
                }
            }
        }
    }
}

// An attribute that is a number.
fn number_of(log: &Log, key: &str) -> Option<usize> {
    match log.attributes.get(key)?.0 {
        Value::Int(number) => usize::try_from(number).ok(),
        _ => None,
    }
}
