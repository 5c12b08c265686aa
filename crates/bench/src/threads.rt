//! Messages by several threads at once: each on a hub of its own, or all by one client.
use crate::clock::Steps;
use crate::hub::Thread;
use crate::lock::send_by_client;
use crate::texts::{Long, Short};
use crate::turns::{HubTurn, make_turns};
use sentry_core::protocol::Refusal;
use sentry_hub::Hub;
use sentry_lock::{Client, CoreLock};
use sentry_thread_hub::ThreadHub;
use std::alloc::AllocError;
use std::thread::{Threads, map_vec};

// The sum of what the threads counted.
fn sum(answers: Vec<Result<u64, Refusal>>) -> Result<u64, Refusal> {
    let mut sum = 0u64;
    for answer in answers {
        sum = sum.wrapping_add(answer?);
    }
    Ok(sum)
}

/// What a thread begins with. Its current hub is to be made from the top of the main one.
#[derive(Drop)]
struct Job<L> {
    number: u8,
    main: Hub<L>,
}

fn make_jobs<L: CoreLock>(main: &Hub<L>, threads: u64) -> Result<Vec<Job<L>>, AllocError> {
    let mut jobs = Vec::new(main.allocator());
    let mut number = 0u8;
    for _ in 0..threads {
        let main = main.clone()?;
        jobs.push(Job { number, main })?;
        number = number.wrapping_add(1);
    }
    Ok(jobs)
}

// Sends so many messages on a hub of its own, with long texts or short ones, and answers how many were sent.
fn work<L: CoreLock>(job: Job<L>, messages: u64, long: bool) -> Result<u64, Refusal> {
    let Job { number, main } = job;
    let mut thread: Thread<L, Steps> = ThreadHub::from_main(main, Steps(0), [number; 32])?;
    if long {
        return make_turns::<Long, L, Steps>(&mut thread, HubTurn::Message, messages);
    }
    make_turns::<Short, L, Steps>(&mut thread, HubTurn::Message, messages)
}

/// Sends so many messages in each thread, on a hub of its own, and answers how many were sent.
pub fn send_by_hubs<R: Threads + Sync, L: CoreLock + Send + Sync + 'static>(
    rt: &R,
    main: &Hub<L>,
    messages: u64,
    threads: u64,
    long: bool,
) -> Result<u64, Refusal>
where
    L::Processor: Send + Sync + 'static,
    L::Callbacks: Send + Sync + 'static,
    L::Transport: Send + Sync + 'static,
{
    let jobs = make_jobs(main, threads)?;
    sum(map_vec(rt, jobs, &|job: Job<L>| work(job, messages, long))?)
}

fn share<L: CoreLock>(client: &Client<L>, threads: u64) -> Result<Vec<Client<L>>, AllocError> {
    let mut shares = Vec::new(client.core().allocator());
    for _ in 0..threads {
        shares.push(client.clone()?)?;
    }
    Ok(shares)
}

/// Sends so many messages in each thread, all by one client of the lock, and answers how many were sent.
pub fn send_by_clients<R: Threads + Sync, L: CoreLock + Send + Sync + 'static>(
    rt: &R,
    client: &Client<L>,
    messages: u64,
    threads: u64,
) -> Result<u64, Refusal>
where
    L::Processor: Send + Sync + 'static,
    L::Callbacks: Send + Sync + 'static,
    L::Transport: Send + Sync + 'static,
{
    let clients = share(client, threads)?;
    sum(map_vec(
        rt,
        clients,
        &|client: Client<L>| send_by_client(&client, messages),
    )?)
}
