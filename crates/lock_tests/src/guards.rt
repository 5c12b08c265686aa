//! Hubs and clients that one thread gives back while others have guards of layers on them.
use crate::crowd::{LOOKS, new_scope, pop_in_turn};
use crate::workshop::{Held, event, fresh, options, what_came};
use sentry_base::protocol::{HubKey, Refusal};
use sentry_lock::{Client, CoreLock, SharedCore};
use std::alloc::Global;
use std::sync::atomic::{AtomicBool, Ordering};
use std::test::Fail;
use std::thread::{Threads, join, yield_now};

/// How many hubs are given back, and how many layers each of two threads pushes onto one, at most.
const ROUNDS: u64 = 8;

const LAYERS: u64 = 50;

/// Whether a layer was pushed onto a hub, and whether it was once not given back since one was out.
#[derive(Drop)]
struct Turns {
    is_pushed: AtomicBool,
    is_refused: AtomicBool,
}

impl Turns {
    fn new() -> Turns {
        Turns {
            is_pushed: AtomicBool::new(false),
            is_refused: AtomicBool::new(false),
        }
    }
}

/// Waits until it is so, and gives up after many looks.
fn wait_for(is_so: &AtomicBool) {
    for _ in 0..LOOKS {
        if is_so.load(Ordering::SeqCst) {
            return;
        }
        yield_now();
    }
}

/// Captures an event under a layer of its own, which stays until the hub was once not given back. Answers whether the hub
/// is still there.
fn capture_within<L: CoreLock>(
    core: &SharedCore<L>,
    hub: HubKey,
    number: u64,
    turns: &Turns,
) -> Result<bool, Refusal> {
    let guard = match core.push_scope(hub) {
        Ok(guard) => guard,
        Err(Refusal::Stale) => return Ok(false),
        Err(refusal) => return Err(refusal),
    };
    turns.is_pushed.store(true, Ordering::SeqCst);
    wait_for(&turns.is_refused);
    let captured = capture(core, hub, number);
    pop_in_turn(core, guard)?;
    captured?;
    Ok(true)
}

fn capture<L: CoreLock>(core: &SharedCore<L>, hub: HubKey, number: u64) -> Result<(), Refusal> {
    let event = event(core.allocator(), number)?;
    core.lock_hub(hub).capture_event(event, fresh(number))?;
    Ok(())
}

/// Does so until the hub is gone. Answers how many events were captured.
fn capture_all<L: CoreLock>(
    core: &SharedCore<L>,
    hub: HubKey,
    first: u64,
    turns: &Turns,
) -> Result<u64, Refusal> {
    for count in 0..LAYERS {
        if !capture_within(core, hub, first.wrapping_add(count), turns)? {
            return Ok(count);
        }
    }
    Ok(LAYERS)
}

/// The same in two threads.
fn capture_in_two_threads<R: Threads + Sync, L: CoreLock + Send + Sync + 'static>(
    rt: &R,
    core: &SharedCore<L>,
    hub: HubKey,
    first: u64,
    turns: &Turns,
) -> Result<u64, Refusal>
where
    L::Processor: Send + Sync + 'static,
    L::Callbacks: Send + Sync + 'static,
    L::Transport: Send + Sync + 'static,
{
    let (one, other) = join(
        rt,
        || capture_all(core, hub, first, turns),
        || capture_all(core, hub, first.wrapping_add(LAYERS), turns),
    );
    Ok(one?.wrapping_add(other?))
}

/// Gives the hub back once no layer is out, and its client then.
fn release<L: CoreLock>(client: &Client<L>, hub: HubKey, turns: &Turns) -> Result<(), Refusal> {
    wait_for(&turns.is_pushed);
    let released = release_in_turn(client, hub, turns);
    // from here on no thread waits for a refusal
    turns.is_refused.store(true, Ordering::SeqCst);
    released
}

fn release_in_turn<L: CoreLock>(
    client: &Client<L>,
    hub: HubKey,
    turns: &Turns,
) -> Result<(), Refusal> {
    for _ in 0..LOOKS {
        if client.drop_client().err() != Some(Refusal::StillNamed) {
            return Err(Refusal::StillNamed);
        }
        match client.core().lock_hub(hub).release_hub(1) {
            Ok(()) => return client.drop_client(),
            Err(Refusal::ScopesOpen) => turns.is_refused.store(true, Ordering::SeqCst),
            Err(refusal) => return Err(refusal),
        }
        yield_now();
    }
    Err(Refusal::ScopesOpen)
}

/// One hub of a copy of the client. Answers how many events were captured on it.
fn play_round<R: Threads + Sync, L: CoreLock + Send + Sync + 'static>(
    rt: &R,
    client: &Client<L>,
    first: u64,
) -> Result<u64, Refusal>
where
    L::Processor: Send + Sync + 'static,
    L::Callbacks: Send + Sync + 'static,
    L::Transport: Send + Sync + 'static,
{
    let core = client.core();
    let copy = client.clone_client(1)?;
    let hub = core.new_hub(Some(copy.key()), new_scope(core))?;
    let turns = Turns::new();
    let (released, captured) = join(
        rt,
        || release(&copy, hub, &turns),
        || capture_in_two_threads(rt, core, hub, first, &turns),
    );
    released?;
    captured
}

/// Several of them, one after the other.
fn play_rounds<R: Threads + Sync, L: CoreLock + Send + Sync + 'static>(
    rt: &R,
    client: &Client<L>,
) -> Result<u64, Refusal>
where
    L::Processor: Send + Sync + 'static,
    L::Callbacks: Send + Sync + 'static,
    L::Transport: Send + Sync + 'static,
{
    let mut captured = 0u64;
    for round in 0..ROUNDS {
        let more = play_round(rt, client, round.wrapping_mul(100))?;
        captured = captured.wrapping_add(more);
    }
    Ok(captured)
}

#[test]
fn a_hub_stays_while_a_guard_is_out(rt: HostRuntime) -> Result<(), Fail> {
    let alloc: Global = rt.alloc();
    let (held, notebook) = Held::noted(rt, alloc, options(alloc, false)?, true)?;
    let captured = play_rounds(&rt, &held.client)?;
    let came = what_came(alloc, notebook.take(alloc).asked.as_slice())?;
    assert!(rt; captured >= ROUNDS);
    assert_eq!(rt; (came.events, came.different), (captured, captured));
    let left = held.client.core().held();
    assert!(rt; (left.clients, left.hubs, left.layers) == (1, 0, 0));
    Ok(())
}
