//! Scopes that closures configure.
use crate::workshop::{Bench, at, fresh, set_tag};
use sentry_core::Level;
use sentry_core::protocol::{Refusal, Uuid};
use sentry_hub::Hub;
use sentry_lock::CoreLock;
use std::test::Fail;

// Sends a message by a closure, under a scope with a tag more.
fn send_within<L: CoreLock>(hub: &Hub<L>) -> Result<Uuid, Refusal> {
    hub.with_scope(
        at(1),
        |edits| edits.set_tag("b", "2"),
        || hub.capture_message("within", Level::Info, fresh(1)),
    )?
}

// Pushes a layer and pops it.
fn push_and_pop<L: CoreLock>(hub: &Hub<L>) -> Result<(), Refusal> {
    let guard = hub.push_scope()?;
    hub.pop_scope(guard, at(1))?;
    Ok(())
}

// Sends messages under a scope of its own and after it. Answers whether the hub's scope had no tags, before each of two
// is set.
fn send_both<L: CoreLock>(hub: &Hub<L>) -> Result<(bool, bool), Refusal> {
    let first = set_tag(hub, "a", "1")?;
    send_within(hub)?;
    push_and_pop(hub)?;
    let second = set_tag(hub, "c", "3")?;
    hub.capture_message("later", Level::Info, fresh(2))?;
    Ok((first, second))
}

#[test]
fn scopes_are_configured_by_closures(rt: HostRuntime) -> Result<(), Fail> {
    let bench = Bench::new(rt, rt.alloc())?;
    let had_none = send_both(&bench.thread.current)?;
    let sent = bench.finish()?;
    let expected = "; event 1 Info at 1 within a=1 b=2; event 2 Info at 2 later a=1 c=3";
    assert_eq!(rt; (had_none, sent.as_str()), ((true, false), expected));
    Ok(())
}
