//! A transport with a queue for one envelope, in which one waits at first.
use crate::clock::Steps;
use crate::keeper::Keeper;
use crate::queue::event_alone;
use sentry_core::client_report::{LossWords, Recorder};
use sentry_core::protocol::{Label, Refusal};
use sentry_core::queueing::QueueTransport;
use sentry_core::{ClientOptions, Envelope, Transport, TransportOptions};
use std::alloc::Global;
use std::sync::Wait;

type Queue<R> = QueueTransport<R, Keeper<R>, Steps>;

const LABEL: Label = Label { tag: 0, number: 0 };

fn client_options(alloc: Global) -> Result<ClientOptions, Refusal> {
    ClientOptions::new(alloc)
        .transport_channel_capacity(1)
        .dsn("https://public@sentry.invalid/1")
}

fn options(alloc: Global, recorder: Recorder) -> Result<Option<TransportOptions>, Refusal> {
    match TransportOptions::try_from_client_options(&client_options(alloc)?)? {
        None => Ok(None),
        Some(mut options) => {
            options.client_report_recorder = Some(recorder);
            Ok(Some(options))
        }
    }
}

// None without options, which a DSN gives.
fn open_queue<R: Wait + Drop + Copy>(
    rt: R,
    alloc: Global,
    recorder: Recorder,
) -> Result<Option<Queue<R>>, Refusal> {
    let Some(options) = options(alloc, recorder)? else {
        return Ok(None);
    };
    let queue = QueueTransport::new(rt, alloc, options, Keeper::new(rt), Steps(0))?;
    queue.send_envelope(event_alone(alloc)?);
    Ok(Some(queue))
}

// Whether an envelope that was passed on before is sent and passed on again.
fn is_passed_again<R: Wait + Drop>(queue: &Queue<R>) -> bool {
    match queue.inner().take() {
        Some(envelope) => {
            queue.send_envelope(envelope);
            queue.pump()
        }
        None => false,
    }
}

// The turns take no memory.
fn pass_all<R: Wait + Drop>(queue: &Queue<R>, turns: u64) -> u64 {
    queue.pump();
    let mut passed = 0u64;
    for _ in 0..turns {
        passed = passed.wrapping_add(u64::from(is_passed_again(queue)));
    }
    passed
}

// The turns take no memory: an empty envelope has none.
fn turn_all_away<R: Wait + Drop>(queue: &Queue<R>, alloc: Global, turns: u64) -> u64 {
    for _ in 0..turns {
        queue.send_envelope(Envelope::new(alloc));
    }
    if queue.len() == 1 { turns } else { 0 }
}

/// In how many of the turns an envelope of an event is queued and passed on.
pub fn pass<R: Wait + Drop + Copy>(rt: R, alloc: Global, turns: u64) -> Result<u64, Refusal> {
    let (recorder, drainer) = LossWords::new(alloc, LABEL)?;
    let passed = match open_queue(rt, alloc, recorder)? {
        None => 0,
        Some(queue) => pass_all(&queue, turns),
    };
    drop(drainer);
    Ok(passed)
}

/// In how many of the turns an envelope is turned away: in all, if one alone waits at the end.
pub fn turn_away<R: Wait + Drop + Copy>(rt: R, alloc: Global, turns: u64) -> Result<u64, Refusal> {
    let (recorder, drainer) = LossWords::new(alloc, LABEL)?;
    let away = match open_queue(rt, alloc, recorder)? {
        None => 0,
        Some(queue) => turn_all_away(&queue, alloc, turns),
    };
    drop(drainer);
    Ok(away)
}
