//! What reaches the inner transport: what is passed on, in which order, and what a flush and a shutdown do.
use crate::workshop::{Meets, Notebook, Queue, event_alone, meeting_queue, queue_over_notes, send};
use sentry_base::protocol::{Category, Refusal};
use sentry_transport::{DEFAULT_CAPACITY, Transport};
use std::alloc::{AllocError, Global};
use std::num::NonZeroUsize;
use std::sync::Wait;
use std::sync::atomic::Ordering;
use std::test::Fail;
use std::thread::join;

// Sends events to a queue for three, of which the fourth has no room, and pumps one. Answers how many wait before and
// after that.
fn pump_one<R: Wait + Drop>(
    queue: &Queue<R, Notebook<R>>,
    alloc: Global,
) -> Result<(usize, usize), AllocError> {
    // the clock stands at 5
    queue.limit(None, 5);
    queue.limit(Some(Category::Session), 9);
    send(queue, alloc, &[1, 2, 3, 4])?;
    let full = queue.len();
    queue.pump();
    Ok((full, queue.len()))
}

// Sends an event more and flushes the queue, and then an event that is limited. Answers whether it was flushed, and how
// many wait then.
fn flush_and_limit<R: Wait + Drop>(
    queue: &Queue<R, Notebook<R>>,
    alloc: Global,
) -> Result<(bool, usize), AllocError> {
    send(queue, alloc, &[5])?;
    let is_flushed = queue.flush(1);
    queue.limit(Some(Category::Error), 6);
    send(queue, alloc, &[6])?;
    Ok((is_flushed, queue.len()))
}

// What these answer, whether an empty queue is pumped, and the notes.
type Passed = ((usize, usize), (bool, usize), [bool; 2], String);

fn pass_in_order<R: Wait + Drop + Copy>(rt: R, alloc: Global) -> Result<Passed, Refusal> {
    let queue = queue_over_notes(rt, alloc, NonZeroUsize::new(3), true)?;
    let is_pumped = queue.pump();
    let pumped = pump_one(&queue, alloc)?;
    let flushed = flush_and_limit(&queue, alloc)?;
    let is_left = queue.pump();
    Ok((
        pumped,
        flushed,
        [is_pumped, is_left],
        queue.inner().take(alloc),
    ))
}

#[test]
fn what_was_queued_first_is_passed_on_first(rt: HostRuntime) -> Result<(), Fail> {
    let (pumped, flushed, are_pumped, notes) = pass_in_order(rt, rt.alloc())?;
    assert_eq!(rt; pumped, (3, 2));
    // the fourth was lost
    assert_eq!(rt; flushed, (false, 0));
    assert_eq!(rt; are_pumped, [false, false]);
    assert_eq!(rt; notes.as_str(), " event 1 event 2 event 3 event 5 flush 1");
    Ok(())
}

// The answers of a flush and of a shutdown, the capacity, and the notes.
type Asked = (bool, bool, usize, String);

fn ask_inner<R: Wait + Drop + Copy>(rt: R, alloc: Global) -> Result<Asked, Refusal> {
    let queue = queue_over_notes(rt, alloc, None, false)?;
    let is_flushed = queue.flush(7);
    send(&queue, alloc, &[1, 2])?;
    let is_shut = queue.shutdown(9);
    Ok((
        is_flushed,
        is_shut,
        queue.capacity(),
        queue.inner().take(alloc),
    ))
}

#[test]
fn the_answers_of_the_inner_transport_are_handed_on(rt: HostRuntime) -> Result<(), Fail> {
    let (is_flushed, is_shut, capacity, notes) = ask_inner(rt, rt.alloc())?;
    assert_eq!(rt; (is_flushed, is_shut), (false, false));
    assert_eq!(rt; (capacity, DEFAULT_CAPACITY), (30, 30));
    assert_eq!(rt; notes.as_str(), " flush 7 event 1 event 2 shutdown 9");
    Ok(())
}

// Queues an envelope while the inner transport sends the first.
fn queue_meanwhile<R: Wait + Drop>(
    queue: &Queue<R, Meets<R>>,
    alloc: Global,
) -> Result<(), AllocError> {
    queue.inner().meet();
    let queued = send(queue, alloc, &[2]);
    queue.inner().meet();
    queued
}

// How many were passed on, and how many wait.
fn count<R: Wait + Drop>(queue: &Queue<R, Meets<R>>) -> (u64, usize) {
    (queue.inner().sent.load(Ordering::SeqCst), queue.len())
}

#[test]
fn a_flush_passes_on_what_waited_when_it_began(rt: HostRuntime) -> Result<(), Fail> {
    let alloc: Global = rt.alloc();
    let queue = meeting_queue(rt, alloc)?;
    queue.send_envelope(event_alone(alloc, 1)?);
    // the lock is free while the inner transport sends: the second thread is not kept waiting by the first
    let (is_flushed, queued) = join(&rt, || queue.flush(1), || queue_meanwhile(&queue, alloc));
    queued?;
    let first = count(&queue);
    let is_shut = queue.shutdown(1);
    let second = count(&queue);
    drop(queue);
    // the second still waited as the flush ended
    assert_eq!(rt; (is_flushed, is_shut), (false, true));
    assert_eq!(rt; (first, second), ((1, 1), (2, 0)));
    Ok(())
}
