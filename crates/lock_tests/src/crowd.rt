//! Threads at work on one core: clients come and go while others send, and scopes are pushed and popped.
use crate::workshop::{
    Held, Lock, Note, Notebook, capture_event, capture_log, event, fresh, options,
};
use sentry_base::protocol::{HubKey, Refusal, SpanId, TraceId};
use sentry_engine::ScopeGuard;
use sentry_lock::{Client, CoreLock, SharedCore, Waiting};
use sentry_options::ClientOptions;
use sentry_scope::{Scope, ScopeEdit};
use std::alloc::{AllocError, Global};
use std::sync::Arc;
use std::test::Fail;
use std::thread::{Threads, join, map_vec, yield_now};

/// How many copies of a client each thread makes, and how often it pushes and pops.
const TURNS: u64 = 25;

/// How often a thread tries to pop a layer on which those of others stand.
pub(crate) const LOOKS: u64 = 10_000_000;

pub(crate) fn new_scope<L: CoreLock>(core: &SharedCore<L>) -> Scope<L::Processor> {
    Scope::new(core.allocator(), TraceId([1; 16]), SpanId([2; 8]))
}

/// A client that a thread copies again and again, and the number of its first event.
#[derive(Drop)]
struct Original<L> {
    client: Client<L>,
    first: u64,
}

/// Captures an event on a hub of a copy, two logs on the copy, and an event on the original.
fn send<L: CoreLock>(
    original: &Original<L>,
    copy: &Client<L>,
    hub: HubKey,
    number: u64,
) -> Result<(), Refusal> {
    let core = copy.core();
    let event = event(core.allocator(), number)?;
    core.lock_hub(hub).capture_event(event, fresh(number))?;
    core.lock_hub(hub).start_session(fresh(number))?;
    capture_log(copy)?;
    capture_log(copy)?;
    capture_event(&original.client, number.wrapping_add(1))?;
    Ok(())
}

/// Flushes a copy, closes it, ticks it, or does nothing with it.
fn end<L: CoreLock>(copy: &Client<L>, way: u64) -> Result<(), Refusal> {
    match way % 4 {
        0 => drop(copy.flush(Some(1))?),
        1 => drop(copy.close(Some(1))?),
        2 => copy.tick(100_000_000_000)?,
        _other => {}
    }
    Ok(())
}

/// Drops a copy. Answers whether it stays while its hub is held, and is gone then.
fn drop_copy<L: CoreLock>(copy: &Client<L>, hub: HubKey) -> Result<bool, Refusal> {
    let stays = copy.drop_client().err() == Some(Refusal::StillNamed);
    copy.core().lock_hub(hub).release_hub(2)?;
    copy.drop_client()?;
    Ok(stays && copy.flush(None).err() == Some(Refusal::Stale))
}

/// One copy from its first call to its last.
fn live<L: CoreLock>(original: &Original<L>, turn: u64) -> Result<bool, Refusal> {
    let copy = original.client.clone_client(1)?;
    let core = copy.core();
    let hub = core.new_hub(Some(copy.key()), new_scope(core))?;
    let number = original.first.wrapping_add(turn.wrapping_mul(2));
    send(original, &copy, hub, number)?;
    end(&copy, turn)?;
    drop_copy(&copy, hub)
}

fn live_all<L: CoreLock>(original: Original<L>) -> Result<bool, Refusal> {
    let mut are_well = true;
    for turn in 0..TURNS {
        are_well &= live(&original, turn)?;
    }
    Ok(are_well)
}

/// Whether each of these is true.
fn all_of(answers: Vec<Result<bool, Refusal>>) -> Result<bool, Refusal> {
    let mut are_true = true;
    for answer in answers {
        are_true &= answer?;
    }
    Ok(are_true)
}

/// Two threads' shares of a client.
fn originals<L: CoreLock>(client: &Client<L>, first: u64) -> Result<Vec<Original<L>>, AllocError> {
    let mut originals = Vec::new(client.core().allocator());
    for first in [first, first.wrapping_add(50)] {
        originals.push(Original {
            client: client.clone()?,
            first,
        })?;
    }
    Ok(originals)
}

/// Adds a client, has two threads copy it, and drops it.
fn come_and_go<R: Threads + Sync, L: CoreLock + Send + Sync + 'static>(
    rt: &R,
    core: &SharedCore<L>,
    options: ClientOptions<L::Callbacks>,
    transport: L::Transport,
    first: u64,
) -> Result<bool, Refusal>
where
    L::Processor: Send + Sync + 'static,
    L::Callbacks: Send + Sync + 'static,
    L::Transport: Send + Sync + 'static,
{
    let held = Held::on(core, options, Some(transport))?;
    let originals = originals(&held.client, first)?;
    match map_vec(rt, originals, &|original: Original<L>| live_all(original)) {
        Ok(answers) => {
            held.client.flush(None)?;
            held.client.drop_client()?;
            all_of(answers)
        }
        Err(failed) => Err(AllocError::from(failed).into()),
    }
}

/// Whether the events from 1 to this number are among these, each of them once.
fn has_each_event(asked: &[Note], last: u64) -> bool {
    let mut events = 0u64;
    for note in asked {
        if let Note::Send(_) = note {
            events = events.wrapping_add(1);
        }
    }
    let mut all = events == last;
    for number in 1..last.wrapping_add(1) {
        all &= asked.contains(&Note::Send(u128::from(number)));
    }
    all
}

/// How many logs are in the batches of these.
fn count_logs(asked: &[Note]) -> usize {
    let mut logs = 0usize;
    for note in asked {
        if let Note::SendLogs(more) = note {
            logs = logs.wrapping_add(*more);
        }
    }
    logs
}

#[test]
fn clients_come_and_go_while_others_send(rt: HostRuntime) -> Result<(), Fail> {
    let alloc: Global = rt.alloc();
    let notebook = Notebook::new(rt, alloc, true)?;
    let core: SharedCore<Lock<Notebook<HostRuntime>, HostRuntime>> = SharedCore::new(
        Waiting(rt),
        alloc,
        1,
    )?;
    for first in [1, 201] {
        let (one, other) = join(
            &rt,
            || {
                let options = options(alloc, false)?.release("r")?;
                come_and_go(&rt, &core, options, notebook.clone()?, first)
            },
            || {
                let options = options(alloc, false)?.release("r")?;
                come_and_go(
                    &rt,
                    &core,
                    options,
                    notebook.clone()?,
                    first.wrapping_add(100),
                )
            },
        );
        let (one, other) = (one?, other?);
        assert!(rt; one && other);
    }
    let notes = notebook.take(alloc);
    assert!(rt; has_each_event(notes.asked.as_slice(), 400));
    assert!(rt; count_logs(notes.asked.as_slice()) == 400);
    let held = core.held();
    assert!(rt; (held.clients, held.hubs, held.layers, held.sessions) == (0, 0, 0, 0));
    // no share of a client's transport is kept
    assert!(rt; Arc::strong_count(&notebook) == 1);
    Ok(())
}

// A scope is told apart by the span that it was cleared to.
fn mark_of<L: CoreLock>(core: &SharedCore<L>, hub: HubKey) -> Result<u64, Refusal> {
    Ok(u64::from_be_bytes(core.lock_hub(hub).scope()?.span_id.0))
}

/// Marks the top scope. Answers whether it had the mark of the one below before, and has its own then.
fn mark<L: CoreLock>(
    core: &SharedCore<L>,
    hub: HubKey,
    below: u64,
    mark: u64,
) -> Result<bool, Refusal> {
    let is_copy = mark_of(core, hub)? == below;
    let mut edits = Vec::with_capacity(core.allocator(), 1)?;
    edits.push_reserved(ScopeEdit::Clear(TraceId([1; 16]), SpanId(mark.to_be_bytes())));
    core.lock_hub(hub).configure(edits, 1)?;
    Ok(is_copy && mark_of(core, hub)? == mark)
}

/// Removes a layer, as soon as no other stands on it.
pub(crate) fn pop_in_turn<L: CoreLock>(
    core: &SharedCore<L>,
    guard: ScopeGuard,
) -> Result<(), Refusal> {
    let mut guard = guard;
    for _ in 0..LOOKS {
        match core.pop_scope(guard, 1) {
            Ok(()) => return Ok(()),
            Err((Refusal::OutOfOrder, back)) => guard = back,
            Err((refusal, back)) => {
                let (_hub, _depth) = back.into_parts();
                return Err(refusal);
            }
        }
        yield_now();
    }
    let (_hub, _depth) = guard.into_parts();
    Err(Refusal::OutOfOrder)
}

/// Pushes a marked layer and pops it. Answers whether each scope was what it is to be.
fn push_one<L: CoreLock>(core: &SharedCore<L>, hub: HubKey, number: u64) -> Result<bool, Refusal> {
    let below = mark_of(core, hub)?;
    let guard = core.push_scope(hub)?;
    let is_marked = mark(core, hub, below, number);
    pop_in_turn(core, guard)?;
    Ok(is_marked? && mark_of(core, hub)? == below)
}

/// The same of two layers, one on the other.
fn push_two<L: CoreLock>(core: &SharedCore<L>, hub: HubKey, number: u64) -> Result<bool, Refusal> {
    let below = mark_of(core, hub)?;
    let guard = core.push_scope(hub)?;
    let is_marked = mark(core, hub, below, number);
    let is_pushed = push_one(core, hub, number.wrapping_add(1));
    pop_in_turn(core, guard)?;
    Ok(is_marked? && is_pushed? && mark_of(core, hub)? == below)
}

/// A thread's core, its number, and a hub that all threads have.
#[derive(Drop)]
struct Pusher<L> {
    core: SharedCore<L>,
    number: u64,
    common: HubKey,
}

/// Pushes and pops on a hub of its own, and on the common one.
fn push_all<L: CoreLock>(pusher: Pusher<L>) -> Result<bool, Refusal> {
    let Pusher {
        core,
        number,
        common,
    } = pusher;
    let own = core.new_hub(None, new_scope(&core))?;
    let mut are_right = mark(&core, own, u64::from_be_bytes([2; 8]), number)?;
    for turn in 0..TURNS {
        let guard = core.push_scope(common)?;
        let is_right = push_two(&core, own, number.wrapping_add(turn));
        pop_in_turn(&core, guard)?;
        are_right &= is_right?;
    }
    are_right &= mark_of(&core, own)? == number;
    core.lock_hub(own).release_hub(2)?;
    Ok(are_right)
}

fn pushers<L: CoreLock>(
    core: &SharedCore<L>,
    common: HubKey,
) -> Result<Vec<Pusher<L>>, AllocError> {
    let mut pushers = Vec::new(core.allocator());
    for number in [1_000, 2_000, 3_000, 4_000] {
        pushers.push(Pusher {
            core: core.clone()?,
            number,
            common,
        })?;
    }
    Ok(pushers)
}

/// Whether the scopes of four threads were what they are to be, and the common one is what it was.
fn push_in_threads<R: Threads + Sync, L: CoreLock + Send + Sync + 'static>(
    rt: &R,
    core: &SharedCore<L>,
) -> Result<bool, Fail>
where
    L::Processor: Send + Sync + 'static,
    L::Callbacks: Send + Sync + 'static,
    L::Transport: Send + Sync + 'static,
{
    let common = core.new_hub(None, new_scope(core))?;
    let pushers = pushers(core, common)?;
    let answers = map_vec(rt, pushers, &|pusher: Pusher<L>| push_all(pusher))?;
    let are_right = all_of(answers)?;
    let is_as_before = mark_of(core, common)? == u64::from_be_bytes([2; 8]);
    core.lock_hub(common).release_hub(2)?;
    Ok(are_right && is_as_before)
}

#[test]
fn each_scope_is_what_it_was(rt: HostRuntime) -> Result<(), Fail> {
    let core: SharedCore<Lock<Notebook<HostRuntime>, HostRuntime>> = SharedCore::new(
        Waiting(rt),
        rt.alloc(),
        1,
    )?;
    assert!(rt; push_in_threads(&rt, &core)?);
    let held = core.held();
    assert!(rt; (held.hubs, held.layers) == (0, 0));
    Ok(())
}
