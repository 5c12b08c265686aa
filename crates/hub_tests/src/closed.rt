//! Functions on a current hub whose client is closed, as far as what is sent can't show it.
use crate::workshop::{Bench, Callbacks, Thread};
use sentry_core::protocol::Refusal;
use sentry_core::{end_session, start_session, with_integration};
use sentry_lock::CoreLock;
use std::test::Fail;

fn close<L: CoreLock>(thread: &Thread<L>) -> Result<(), Refusal> {
    if let Some(client) = thread.current.client()? {
        client.close(None)?;
    }
    Ok(())
}

// How many sessions are held after an end and a start on a hub whose client was closed, and whether an integration is
// lent. The first session began before.
fn act_closed<L: CoreLock<Callbacks = Callbacks>>(
    thread: &mut Thread<L>,
) -> Result<([usize; 2], bool), Refusal> {
    start_session(thread)?;
    close(thread)?;
    end_session(thread)?;
    let after_end = thread.current.core().held().sessions;
    thread.current.end_session(1)?;
    start_session(thread)?;
    let after_start = thread.current.core().held().sessions;
    let is_lent = with_integration(thread, "adds", |_integration, _hub| true)?;
    Ok(([after_end, after_start], is_lent))
}

#[test]
fn functions_leave_the_sessions_of_a_closed_client(rt: HostRuntime) -> Result<(), Fail> {
    let mut bench = Bench::new(rt, rt.alloc())?;
    let found = act_closed(&mut bench.thread)?;
    drop(bench);
    assert_eq!(rt; found, ([1, 0], false));
    Ok(())
}
