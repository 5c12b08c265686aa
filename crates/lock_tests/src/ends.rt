//! What waits is sent before the transport is asked to flush or to shut down.
use crate::workshop::{Held, Note, capture_log, options};
use sentry_base::protocol::Refusal;
use sentry_lock::{Client, CoreLock};
use std::alloc::Global;
use std::test::Fail;

/// Flushes the client after a log, and closes it after another one.
fn log_and_end<L: CoreLock>(client: &Client<L>) -> Result<[bool; 2], Refusal> {
    capture_log(client)?;
    let is_flushed = client.flush(Some(7))?;
    capture_log(client)?;
    Ok([is_flushed, client.close(Some(9))?])
}

#[test]
fn what_waits_is_sent_before_an_end(rt: HostRuntime) -> Result<(), Fail> {
    let alloc: Global = rt.alloc();
    let (held, notebook) = Held::noted(rt, alloc, options(alloc, false)?, true)?;
    let answers = log_and_end(&held.client)?;
    assert!(rt; answers == [true; 2]);
    let expected = [
        Note::SendLogs(1),
        Note::Flush(7),
        Note::SendLogs(1),
        Note::Shutdown(9),
    ];
    assert!(rt; notebook.take(alloc).asked.as_slice() == expected.as_slice());
    Ok(())
}
