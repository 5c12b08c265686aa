//! Threads that send, flush and lose errors at once.
use crate::workshop::{Held, Note, capture_event, lose_error, network_errors, options};
use sentry_base::protocol::{Envelope, Refusal};
use sentry_client_reports::Recorder;
use sentry_lock::{Client, CoreLock};
use std::alloc::Global;
use std::test::Fail;
use std::thread::{Threads, join, map_vec};

fn lose_thousand(mut recorder: Recorder) {
    for _ in 0..1000 {
        lose_error(&mut recorder);
    }
}

/// The recorder, and three more that are split from it; none without one.
fn four_recorders(alloc: Global, recorder: Option<Recorder>) -> Result<Vec<Recorder>, Fail> {
    let mut recorders = Vec::new(alloc);
    let Some(mut rest) = recorder else {
        return Ok(recorders);
    };
    for _ in 0..3 {
        let (recorder, other) = rest.split().map_err(|(refusal, _)| refusal)?;
        recorders.push(recorder)?;
        rest = other;
    }
    recorders.push(rest)?;
    Ok(recorders)
}

/// Sends a hundred messages from this number on, and after each one an empty envelope, and flushes.
fn send_hundred<L: CoreLock>(client: &Client<L>, first: u64) -> Result<(), Refusal> {
    let alloc = client.core().allocator();
    for number in first..first.saturating_add(100) {
        capture_event(client, number)?;
        drop(client.flush(Some(1))?);
        client.send_envelope(Envelope::new(alloc))?;
    }
    Ok(())
}

/// The same of two clients, in threads of their own.
fn send_in_two_threads<R: Threads + Sync, L: CoreLock + Send + Sync + 'static>(
    rt: &R,
    client: &Client<L>,
    other: &Client<L>,
) -> Result<(), Refusal>
where
    L::Processor: Send + Sync + 'static,
    L::Callbacks: Send + Sync + 'static,
    L::Transport: Send + Sync + 'static,
{
    let (first, second) = join(rt, || send_hundred(client, 1), || send_hundred(other, 101));
    first?;
    second
}

/// How many of these are no flushes.
fn count_sent(asked: &[Note]) -> u64 {
    let mut sent = 0u64;
    for note in asked {
        if *note != Note::Flush(1) {
            sent = sent.wrapping_add(1);
        }
    }
    sent
}

/// Whether these are flushes and the events from 1 to 200, each of them once, in any order.
fn is_each_once(asked: &[Note]) -> bool {
    let mut all = count_sent(asked) == 200;
    for number in 1..201u64 {
        all &= asked.contains(&Note::Send(u128::from(number)));
    }
    all
}

/// Splits the recorder of a client for four threads, which lose a thousand errors each, while two more send. Answers
/// whether its words are closed then, and how many errors are pending.
fn lose_and_send<R: Threads + Sync, L: CoreLock + Send + Sync + 'static>(
    rt: &R,
    held: &mut Held<L>,
) -> Result<(bool, u64), Fail>
where
    L::Processor: Send + Sync + 'static,
    L::Callbacks: Send + Sync + 'static,
    L::Transport: Send + Sync + 'static,
{
    let alloc = held.client.core().allocator();
    let recorders = four_recorders(alloc, held.recorder.take())?;
    let other = held.client.clone()?;
    let client = &held.client;
    let (lost, sent) = join(
        rt,
        || map_vec(rt, recorders, &|recorder: Recorder| lose_thousand(recorder)),
        || send_in_two_threads(rt, client, &other),
    );
    lost?;
    sent?;
    Ok((held.close_losses()?, held.pending()?))
}

#[test]
fn threads_lose_and_send_at_once(rt: HostRuntime) -> Result<(), Fail> {
    let alloc: Global = rt.alloc();
    let (mut held, notebook) = Held::noted(rt, alloc, options(alloc, false)?, true)?;
    let (is_closed, left) = lose_and_send(&rt, &mut held)?;
    let notes = notebook.take(alloc);
    let told = notes.told;
    assert!(rt; is_closed);
    assert!(rt; network_errors(&told).wrapping_add(left) == 4000);
    assert!(rt; is_each_once(notes.asked.as_slice()));
    Ok(())
}
