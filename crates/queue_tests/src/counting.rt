//! Threads that send beside one that pumps: nothing is lost uncounted, and nothing is passed on twice.
use crate::workshop::{Five, Queue, event_alone, transport_options};
use sentry_base::protocol::{Category, Envelope, Label, Losses, Reason, Refusal};
use sentry_client_reports::{Drainer, LossWords, Recorder};
use sentry_transport::{QueueTransport, Transport};
use std::alloc::{AllocError, Global};
use std::sync::{Mutex, Wait};
use std::test::Fail;
use std::thread::join;

const LABEL: Label = Label { tag: 7, number: 5 };

/// Keeps the numbers of the events that it is to send.
#[derive(Drop)]
struct Numbers<R: Wait + Drop> {
    rt: R,
    numbers: Mutex<Vec<u128>>,
}

impl<R: Wait + Drop> Numbers<R> {
    /// How many different numbers there are.
    fn count(&self) -> Result<u64, AllocError> {
        let mut numbers = self.numbers.lock(&self.rt);
        numbers.sort()?;
        numbers.dedup();
        Ok(numbers.len() as u64)
    }
}

impl<R: Wait + Drop> Transport for Numbers<R> {
    fn send_envelope(&self, envelope: Envelope) {
        if let Some(id) = envelope.header.event_id {
            drop(self.numbers.lock(&self.rt).push(id.as_u128()));
        }
    }
}

fn queue_over_numbers<R: Wait + Drop + Copy>(
    rt: R,
    alloc: Global,
    recorder: Recorder,
) -> Result<Queue<R, Numbers<R>>, Refusal> {
    let options = transport_options(alloc, None, Some(recorder))?;
    let numbers = Numbers {
        rt,
        numbers: Mutex::new(Vec::new(alloc)),
    };
    QueueTransport::new(rt, alloc, options, numbers, Five)
}

// A thousand events with the numbers from this one on.
fn send_thousand<T: Transport>(queue: &T, alloc: Global, first: u64) -> Result<(), AllocError> {
    for offset in 0..1000u64 {
        queue.send_envelope(event_alone(alloc, first.wrapping_add(offset))?);
    }
    Ok(())
}

// How many envelopes were passed on, in so many tries.
fn pump_often<R: Wait + Drop>(queue: &Queue<R, Numbers<R>>, tries: u64) -> u64 {
    let mut passed = 0u64;
    for _ in 0..tries {
        if queue.pump() {
            passed = passed.wrapping_add(1);
        }
    }
    passed
}

// How many events were recorded, since the last drain, as those for which a queue had no room. None if there are other
// losses.
fn drain_overflow(drainer: &mut Drainer) -> Option<u64> {
    let (_, losses) = drainer.drain().into_parts();
    let count = losses.get(Category::Error, Reason::QueueOverflow);
    if losses == Losses::of(Category::Error, Reason::QueueOverflow, count) {
        Some(count)
    } else {
        None
    }
}

// How many events wait and how many were recorded. Then the queue is flushed: how many different events were passed on,
// and how many still wait.
fn settle<R: Wait + Drop>(
    queue: &Queue<R, Numbers<R>>,
    drainer: &mut Drainer,
) -> Result<(u64, Option<u64>, u64, usize), AllocError> {
    let queued = queue.len() as u64;
    let recorded = drain_overflow(drainer);
    queue.flush(1);
    Ok((queued, recorded, queue.inner().count()?, queue.len()))
}

#[test]
fn two_thousand_events_are_passed_on_queued_or_recorded(rt: HostRuntime) -> Result<(), Fail> {
    let alloc: Global = rt.alloc();
    let (recorder, mut drainer) = LossWords::new(alloc, LABEL)?;
    let queue = queue_over_numbers(rt, alloc, recorder)?;
    let (pumped, (first, second)) = join(
        &rt,
        || pump_often(&queue, 3000),
        || {
            join(
                &rt,
                || send_thousand(&queue, alloc, 1),
                || send_thousand(&queue, alloc, 1001),
            )
        },
    );
    first?;
    second?;
    let (queued, recorded, different, left) = settle(&queue, &mut drainer)?;
    let later = drain_overflow(&mut drainer);
    drop(queue);
    let passed = pumped.wrapping_add(queued);
    assert!(rt; queued <= 30);
    assert_eq!(rt; (different, left), (passed, 0));
    assert_eq!(rt;
        (recorded, later),
        (Some(2000u64.wrapping_sub(passed)), Some(0))
    );
    Ok(())
}
