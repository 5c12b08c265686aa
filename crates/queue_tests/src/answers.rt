//! What the flushes and shutdowns of a queue answer.
use crate::workshop::{Five, Notebook, Queue, queue_over_notes, send, transport_options};
use sentry_base::protocol::{Envelope, Refusal};
use sentry_transport::{QueueTransport, Transport};
use std::alloc::{AllocError, Global};
use std::num::NonZeroUsize;
use std::sync::{Barrier, Wait};
use std::test::Fail;
use std::thread::join;

// Two flushes after what fits, two after what doesn't, a shutdown, and how many wait after what comes then.
fn flush_full<R: Wait + Drop>(
    queue: &Queue<R, Notebook<R>>,
    alloc: Global,
) -> Result<([bool; 5], usize), AllocError> {
    send(queue, alloc, &[1])?;
    let (first, second) = (queue.flush(1), queue.flush(2));
    send(queue, alloc, &[2, 3])?;
    let (third, fourth) = (queue.flush(3), queue.flush(4));
    let is_shut = queue.shutdown(5);
    send(queue, alloc, &[4])?;
    Ok(([first, second, third, fourth, is_shut], queue.len()))
}

// A flush after each category was limited, a shutdown after one more event, and one after nothing.
fn flush_limited<R: Wait + Drop>(
    queue: &Queue<R, Notebook<R>>,
    alloc: Global,
) -> Result<[bool; 3], AllocError> {
    // the clock stands at 5
    queue.limit(None, 6);
    let is_flushed = queue.flush(6);
    send(queue, alloc, &[5])?;
    Ok([is_flushed, queue.shutdown(7), queue.shutdown(8)])
}

// What these answer, and the notes.
type Answered = (([bool; 5], usize), [bool; 3], String);

fn lose_some<R: Wait + Drop + Copy>(rt: R, alloc: Global) -> Result<Answered, Refusal> {
    let queue = queue_over_notes(rt, alloc, NonZeroUsize::new(1), true)?;
    let full = flush_full(&queue, alloc)?;
    let limited = flush_limited(&queue, alloc)?;
    Ok((full, limited, queue.inner().take(alloc)))
}

#[test]
fn a_loss_makes_the_next_answer_false(rt: HostRuntime) -> Result<(), Fail> {
    let (full, limited, notes) = lose_some(rt, rt.alloc())?;
    assert_eq!(rt; full, ([true, true, false, true, true], 1));
    assert_eq!(rt; limited, [true, false, true]);
    assert_eq!(rt;
        notes.as_str(),
        " event 1 flush 1 flush 2 event 2 flush 3 flush 4 shutdown 5 event 4 flush 6 shutdown 7 shutdown 8"
    );
    Ok(())
}

/// In the midst of each flush, it meets another thread twice.
#[derive(Drop)]
struct MeetsInFlush<R: Wait + Drop> {
    rt: R,
    barrier: Barrier,
}

impl<R: Wait + Drop> MeetsInFlush<R> {
    fn meet(&self) {
        self.barrier.wait(&self.rt);
    }
}

impl<R: Wait + Drop> Transport for MeetsInFlush<R> {
    fn send_envelope(&self, _envelope: Envelope) {}

    fn flush(&self, _timeout: u64) -> bool {
        self.meet();
        self.meet();
        true
    }
}

fn queue_over_meeting<R: Wait + Drop + Copy>(
    rt: R,
    alloc: Global,
) -> Result<Queue<R, MeetsInFlush<R>>, Refusal> {
    let barrier = Barrier::new(2);
    let options = transport_options(alloc, None, None)?;
    QueueTransport::new(rt, alloc, options, MeetsInFlush { rt, barrier }, Five)
}

// Queues an envelope in the midst of a flush of the inner transport. Answers how many wait then.
fn queue_in_flush<R: Wait + Drop>(
    queue: &Queue<R, MeetsInFlush<R>>,
    alloc: Global,
) -> Result<usize, AllocError> {
    queue.inner().meet();
    let queued = send(queue, alloc, &[1]);
    let waiting = queue.len();
    queue.inner().meet();
    queued?;
    Ok(waiting)
}

#[test]
fn the_lock_is_free_while_the_inner_transport_is_flushed(rt: HostRuntime) -> Result<(), Fail> {
    let alloc: Global = rt.alloc();
    let queue = queue_over_meeting(rt, alloc)?;
    let (is_flushed, first) = join(&rt, || queue.flush(1), || queue_in_flush(&queue, alloc));
    let (is_shut, second) = join(&rt, || queue.shutdown(1), || queue_in_flush(&queue, alloc));
    let (first, second) = (first?, second?);
    drop(queue);
    // what came meanwhile still waited at the end
    assert_eq!(rt; (is_flushed, is_shut), (false, false));
    assert_eq!(rt; (first, second), (1, 1));
    Ok(())
}
