//! Futures that are bound to hubs.
use crate::workshop::{Bench, Minute, Thread, fresh, set_tag};
use futures::executor::block_on;
use futures::task::{Context, Poll};
use sentry_core::protocol::Refusal;
use sentry_core::{Generator, HubFuture, Level, SentryFutureExt};
use sentry_hub::Hub;
use sentry_lock::CoreLock;
use std::alloc::AllocGlobal;
use std::random::RandomSource;
use std::sync::Wait;
use std::test::Fail;

/// Sends a message on each poll, on the hub that is then current. The second one gives 5.
#[derive(Drop)]
struct SendsTwice {
    was_polled: bool,
}

impl<L: CoreLock> HubFuture<Hub<L>, Minute, Generator> for SendsTwice {
    type Output = u8;

    fn poll(&mut self, thread: &mut Thread<L>, cx: &mut Context<'_>) -> Poll<u8> {
        let hub = &thread.current;
        drop(hub.capture_message("polled", Level::Info, fresh(1)));
        if !self.was_polled {
            self.was_polled = true;
            return cx.yield_now();
        }
        Poll::Ready(5)
    }
}

// Runs such a future, bound to a hub that has a tag more than the main one, and sends a message after it. Answers what it
// gave.
fn run_bound<R: Wait + RandomSource + AllocGlobal, L: CoreLock>(
    rt: &R,
    thread: &mut Thread<L>,
) -> Result<Option<u8>, Refusal> {
    set_tag(&thread.current, "a", "1")?;
    let other = Hub::new_from_top(&thread.current)?;
    set_tag(&other, "b", "2")?;
    let future = SendsTwice { was_polled: false };
    let answer = block_on(rt, future.bind_hub(other, thread)).ok();
    thread
        .current
        .capture_message("later", Level::Info, fresh(2))?;
    Ok(answer)
}

#[test]
fn a_future_is_polled_under_its_hub(rt: HostRuntime) -> Result<(), Fail> {
    let mut bench = Bench::new(rt, rt.alloc())?;
    let answer = run_bound(&rt, &mut bench.thread)?;
    let sent = bench.finish()?;
    let expected = "; event 1 Info at 1 polled a=1 b=2; event 1 Info at 1 polled a=1 b=2; \
        event 2 Info at 2 later a=1";
    assert_eq!(rt; (answer, sent.as_str()), (Some(5), expected));
    Ok(())
}
