//! A thread that pumps a queue.
use crate::workshop::{Meets, Queue, meeting_queue, send};
use sentry_base::protocol::Refusal;
use sentry_transport::pump::Pump;
use std::alloc::{AllocError, Global};
use std::sync::atomic::Ordering;
use std::sync::{Arc, Wait};
use std::test::Fail;
use std::thread::{Threads, join, sleep};
use std::time::{Clock, Duration};

// Lets the inner transport go on, when the pump was surely asked to end.
fn let_go<R: Wait + Clock + Drop>(rt: &R, queue: &Queue<R, Meets<R>>) {
    sleep(rt, Duration::from_millis(100));
    queue.inner().meet();
}

fn shared<R: Wait + Drop>(
    alloc: Global,
    queue: Queue<R, Meets<R>>,
) -> Result<Arc<Queue<R, Meets<R>>>, AllocError> {
    Ok(Arc::new(alloc, queue)?)
}

// Sends an event, and two more while the pump passes on the first. The pump is stopped meanwhile. Answers how many it
// passed on then, and how many wait.
fn pump_beside<R: Threads + Wait + Clock + Copy + Drop + Send + Sync + 'static>(
    rt: R,
    alloc: Global,
) -> Result<(u64, usize), Refusal> {
    let queue = shared(alloc, meeting_queue(rt, alloc)?)?;
    let pump = Pump::start(rt, alloc, queue.clone()?)?;
    send(&queue, alloc, &[1])?;
    queue.inner().meet();
    send(&queue, alloc, &[2, 3])?;
    join(&rt, || let_go(&rt, &queue), || pump.stop(&rt));
    Ok((queue.inner().sent.load(Ordering::SeqCst), queue.len()))
}

#[test]
fn a_stopped_pump_has_passed_on_what_waited(rt: HostRuntime) -> Result<(), Fail> {
    let (sent, waiting) = pump_beside(rt, rt.alloc())?;
    assert_eq!(rt; (sent, waiting), (3, 0));
    Ok(())
}
