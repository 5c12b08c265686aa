//! Threads that work on hubs of one core.
use crate::clocks::Steps;
use crate::setup;
use anyhow::Result;
use sentry_core::protocol::Refusal;
use sentry_hub::Hub;
use sentry_lock::CoreLock;
use sentry_thread_hub::ThreadHub;
use std::alloc::AllocError;
use std::thread::{Threads, map_vec};

/// The hubs of a thread over any lock. What runs in threads is generic in the lock: threads at boxes take the prover
/// too long.
pub type Thread<L> = setup::Thread<L, Steps>;

/// The number of a thread, and the main hub, from whose top its hub is made.
#[derive(Drop)]
pub struct Task<L> {
    pub number: u8,
    pub main: Hub<L>,
}

/// A task for each of so many threads.
pub fn make_tasks<L: CoreLock>(main: &Hub<L>, threads: u8) -> Result<Vec<Task<L>>, AllocError> {
    let mut tasks = Vec::new(main.allocator());
    for number in 0..threads {
        let main = main.clone()?;
        tasks.push(Task { number, main })?;
    }
    Ok(tasks)
}

/// The hubs of the thread that does a task.
pub fn start_task<L: CoreLock>(task: Task<L>) -> Result<Thread<L>, Refusal> {
    let Task { number, main } = task;
    ThreadHub::from_main(main, Steps::of_seconds(1), [number; 32])
}

/// Does each task in a thread, until all are done.
pub fn run_tasks<
    R: Threads + Sync,
    L: CoreLock + Send + Sync + 'static,
    F: Fn(Task<L>) -> Result<()> + Sync,
>(rt: &R, tasks: Vec<Task<L>>, work: F) -> Result<()>
where
    L::Processor: Send + Sync + 'static,
    L::Callbacks: Send + Sync + 'static,
    L::Transport: Send + Sync + 'static,
    requires { F.IsAlwaysCallable work }
{
    for done in map_vec(rt, tasks, &work)? {
        done?;
    }
    Ok(())
}
