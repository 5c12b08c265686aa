//! The loops that the scripts of `bench/` time, and `tests/memory_use` watches, from outside.
//!
//! Arguments: `LOOP TURNS [THREADS [DRAINS]] [long]`, where `loops.rt` names the loops. Loops on hubs write short texts,
//! or with `long` ones of 30 to 45 bytes. It prints how many turns did what they were to do. Without arguments it runs
//! each loop for a few turns. With other words it tells what it takes, and ends with status 2.
#![tactic(auto)]

mod clock;
mod envelopes;
mod headers;
mod hub;
mod keeper;
mod lock;
mod loops;
mod losses;
mod queue;
mod texts;
mod threads;
mod traces;
mod transport;
mod turns;
mod waiting;

use anyhow::Result;
use clock::Steps;
use hub::Thread;
use loops::{Asked, LOOPS, LockLoop, Loop, Size};
use sentry_core::protocol::Refusal;
use sentry_core::{BoxedClock, BoxedGate, BoxedTransport, Clock, NoOpTransport, Waiting, start};
use sentry_lock::{Client, CoreLock};
use std::alloc::Global;
use std::process::ExitCode;
use std::sync::Wait;
use std::thread::Threads;
use std::{env, io};
use texts::{Long, Short, Texts};

// What a loop over a lock counts.
fn count_over_lock<
    T: Texts,
    R: Threads + Sync,
    L: CoreLock + Send + Sync + 'static,
    K: Clock + Drop,
>(
    rt: &R,
    client: &Client<L>,
    thread: &mut Thread<L, K>,
    named: LockLoop,
    size: Size,
) -> Result<u64, Refusal>
where
    L::Processor: Send + Sync + 'static,
    L::Callbacks: Send + Sync + 'static,
    L::Transport: Send + Sync + 'static,
{
    let (turns, threads) = (size.turns, size.threads);
    match named {
        LockLoop::Hub(turn) => hub::make_on_hub::<T, L, K>(thread, turn, turns),
        LockLoop::HubThreads => threads::send_by_hubs(rt, &thread.main, turns, threads, size.long),
        LockLoop::Client => lock::send_by_client(client, turns),
        LockLoop::ClientThreads => threads::send_by_clients(rt, client, turns, threads),
    }
}

// The same, on a client of boxes whose transport drops the envelopes.
fn open_and_count<R: Threads + Sync>(
    rt: &R,
    alloc: Global,
    wait: BoxedGate,
    named: LockLoop,
    size: Size,
) -> Result<u64, Refusal> {
    let Ok(transport) = Box::new(alloc, NoOpTransport) else {
        return Err(Refusal::OutOfMemory);
    };
    let transport: BoxedTransport = transport;
    let Ok(clock) = Box::new(alloc, Steps(0)) else {
        return Err(Refusal::OutOfMemory);
    };
    let clock: BoxedClock = clock;
    let options = hub::options(alloc)?;
    let (sentry, mut thread) = start(alloc, wait, options, transport, clock, [1; 32])?;
    if size.long {
        return count_over_lock::<Long, R, _, _>(rt, sentry.client(), &mut thread, named, size);
    }
    count_over_lock::<Short, R, _, _>(rt, sentry.client(), &mut thread, named, size)
}

/// What a loop counts. What locks wait by is in the box, or `rt` itself.
fn count<R: Threads + Wait + Sync + Copy + Drop>(
    rt: &R,
    alloc: Global,
    wait: BoxedGate,
    named: Loop,
    size: Size,
) -> Result<u64, Refusal> {
    let Size {
        turns,
        threads,
        drains,
        long: _,
    } = size;
    match named {
        Loop::Lock(named) => open_and_count(rt, alloc, wait, named, size),
        Loop::Engine => lock::send_by_engine(alloc, turns),
        Loop::Clients => lock::add_and_drop(wait, alloc, turns),
        Loop::Queue => queue::take_and_offer(alloc, turns),
        Loop::Pass => transport::pass(*rt, alloc, turns),
        Loop::TurnAway => transport::turn_away(*rt, alloc, turns),
        Loop::Envelopes => envelopes::write(alloc, turns),
        Loop::Waiting => waiting::keep(alloc, turns),
        Loop::ReadHeaders => Ok(headers::read(turns)),
        Loop::ScanHeaders => Ok(headers::scan(turns)),
        Loop::Losses(spread) => losses::record(rt, alloc, spread, turns, threads, drains),
        Loop::QuietDrains => losses::drain_quiet(alloc, turns),
        Loop::RaisedDrains => losses::drain_raised(alloc, turns),
    }
}

fn print_usage(rt: &impl Eprint) -> io::Result<()> {
    eprintln!(rt; "usage: bench [LOOP TURNS [THREADS [DRAINS]] [long]]")?;
    eprint!(rt; "where LOOP is one of:")?;
    for (name, _) in &LOOPS {
        eprint!(rt; " {name}")?;
    }
    eprintln!(rt; "")
}

fn read_words(rt: &HostRuntime) -> Result<Vec<String>> {
    let mut words = Vec::new(rt.alloc());
    for word in env::args(rt)? {
        words.push(word)?;
    }
    Ok(words)
}

fn main(rt: HostRuntime) -> Result<ExitCode> {
    let words = read_words(&rt)?;
    let Some(asked) = Asked::read(words.as_slice()) else {
        print_usage(&rt)?;
        return Ok(ExitCode::from(2));
    };
    for (name, named) in &LOOPS {
        if asked.includes(name) {
            let wait: BoxedGate = Box::new(rt.alloc(), Waiting(rt))?;
            let counted = count(&rt, rt.alloc(), wait, *named, asked.size)?;
            println!(rt; "{name}: {counted}")?;
        }
    }
    Ok(ExitCode::SUCCESS)
}
