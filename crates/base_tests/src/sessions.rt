//! A session and a queue of sessions by themselves: an engine makes the calls of a queue in halves.
use sentry_base::protocol::{ClientKey, SessionAttributes, SessionStatus, Uuid};
use sentry_options::SessionMode;
use sentry_plain::{Shared, Text};
use sentry_sessions::{Session, SessionQueue};
use std::alloc::{AllocError, Global};
use std::test::Fail;

/// A session of a client with a release.
fn session(alloc: Global) -> Result<Session, AllocError> {
    let attributes = SessionAttributes {
        release: Text::new(alloc, "shop@1")?,
        environment: None,
    };
    let attributes = Shared::new(alloc, attributes)?;
    let client = ClientKey { tag: 0, number: 0 };
    Session::from_stack(client, &attributes, None, Uuid::nil(), 5)
}

/// How many envelopes a queue hands out as it is given a session, then as all is taken, and then once more.
fn queued(alloc: Global, session: &Session) -> Result<[usize; 3], AllocError> {
    let mut queue = SessionQueue::new(alloc, SessionMode::Application);
    let enqueued = queue.enqueue(session.update()?)?.len();
    let taken = queue.take()?.len();
    let rest = queue.take()?.len();
    Ok([enqueued, taken, rest])
}

#[test]
fn a_session_waits_in_a_queue(rt: HostRuntime) -> Result<(), Fail> {
    let session = session(rt.alloc())?;
    let envelopes = queued(rt.alloc(), &session)?;
    assert!(rt; envelopes == [0, 1, 0]);
    Ok(())
}

#[test]
fn a_session_is_closed_once(rt: HostRuntime) -> Result<(), Fail> {
    let mut session = session(rt.alloc())?;
    session.close(None, 9);
    session.close(Some(SessionStatus::Crashed), 11);
    let update = session.update()?;
    assert!(rt; update.status == SessionStatus::Exited && update.duration == Some(4));
    Ok(())
}
