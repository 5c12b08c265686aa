//! The forms in which breadcrumbs are added.
use crate::workshop::{Bench, at, fresh, unbind_client};
use sentry_core::protocol::Refusal;
use sentry_core::{Breadcrumb, Level};
use sentry_hub::Hub;
use sentry_lock::CoreLock;
use std::alloc::{AllocError, Global};
use std::test::Fail;

/// The breadcrumbs of the seconds 2 and 3.
pub(crate) fn two_breadcrumbs(alloc: Global) -> Result<Vec<Breadcrumb>, AllocError> {
    Ok(vec![in alloc;
        Breadcrumb::new(alloc, at(2))?,
        Breadcrumb::new(alloc, at(3))?,
    ]?)
}

// Adds breadcrumbs of the seconds 1 to 6: one, a list of two, none and one by options, one by a closure, and one by its
// words. Of the last alone the moment is that of the call.
fn add_in_each_form<L: CoreLock>(hub: &Hub<L>) -> Result<(), Refusal> {
    let alloc = hub.core().allocator();
    hub.add_breadcrumb(Breadcrumb::new(alloc, at(1))?, at(9))?;
    hub.add_breadcrumb(two_breadcrumbs(alloc)?, at(9))?;
    let nothing: Option<Breadcrumb> = None;
    hub.add_breadcrumb(nothing, at(9))?;
    hub.add_breadcrumb(Some(Breadcrumb::new(alloc, at(4))?), at(9))?;
    hub.add_breadcrumb_with(at(9), || Breadcrumb::new(alloc, at(5)))?;
    hub.add_breadcrumb(("till", "it is open"), at(6))
}

// Adds a breadcrumb by a closure that is refused its memory.
fn starve<L: CoreLock>(hub: &Hub<L>) -> Result<(), Refusal> {
    hub.add_breadcrumb_with(at(9), || -> Result<Breadcrumb, AllocError> {
        Err(AllocError)
    })
}

// Sends a message after the breadcrumbs. Then it has a closure refused its memory, while the hub has a client, and when
// it has none any more.
fn leave_trail<L: CoreLock>(hub: &Hub<L>) -> Result<[Result<(), Refusal>; 2], Refusal> {
    add_in_each_form(hub)?;
    hub.capture_message("boom", Level::Error, fresh(6))?;
    let first = starve(hub);
    unbind_client(hub)?;
    Ok([first, starve(hub)])
}

#[test]
fn breadcrumbs_are_added_in_each_form(rt: HostRuntime) -> Result<(), Fail> {
    let bench = Bench::new(rt, rt.alloc())?;
    let starved = leave_trail(&bench.thread.current)?;
    let sent = bench.finish()?;
    let expected = "; event 6 Error at 6 boom after 1 after 2 after 3 after 4 after 5 after 6";
    // without a client no breadcrumb is made
    let refused = [Err(Refusal::OutOfMemory), Ok(())];
    assert_eq!(rt; (starved, sent.as_str()), (refused, expected));
    Ok(())
}
