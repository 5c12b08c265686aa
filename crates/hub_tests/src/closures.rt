//! Closures, and breadcrumbs of a caller's own type, that call the hub which they were passed to: they run without the
//! lock.
use crate::workshop::{Bench, Callbacks, Thread, at, fresh};
use sentry_core::protocol::{Refusal, SpanId, TraceId};
use sentry_core::{Breadcrumb, Few, IntoBreadcrumbs, TransactionContext, add_breadcrumb};
use sentry_hub::Hub;
use sentry_lock::CoreLock;
use std::alloc::{AllocError, Global};
use std::test::Fail;

// Takes the lock.
fn is_active<L: CoreLock>(hub: &Hub<L>) -> bool {
    hub.is_active().unwrap_or(false)
}

// A breadcrumb, if the hub can be asked.
fn breadcrumb_of<L: CoreLock>(hub: &Hub<L>) -> Result<Breadcrumb, AllocError> {
    if is_active(hub) {
        Breadcrumb::new(hub.allocator(), at(1))
    } else {
        Err(AllocError)
    }
}

// A breadcrumb, if this hub can be asked.
struct Asking<'a, L: CoreLock>(&'a Hub<L>);

impl<L: CoreLock> Drop for Asking<'_, L> {
    fn drop(self) {
        let Asking(_) = self;
    }
}

impl<L: CoreLock> IntoBreadcrumbs for Asking<'_, L> {
    ghost use Rattle.std.specs.Prelude.{⊤};

    ghost breadcrumbs = { λ _ _. ⊤ };

    fn into_breadcrumbs(self, _alloc: Global) -> Result<Few<Breadcrumb>, AllocError> {
        Ok(Few::single(Some(breadcrumb_of(self.0)?)))
    }
}

// Adds such breadcrumbs by the method of a hub and by the function. Answers how many the hub has then.
fn ask_in_breadcrumbs<L: CoreLock>(thread: &mut Thread<L>) -> Result<usize, Refusal> {
    let asked = Hub::new_from_top(&thread.current)?;
    thread.current.add_breadcrumb(Asking(&asked), at(1))?;
    add_breadcrumb(thread, Asking(&asked))?;
    let scope = thread.current.scope()?;
    Ok(scope.breadcrumbs.get().map_or(0, |trail| trail.len()))
}

// Whether the hub answers in a closure that is lent the data of a transaction.
fn ask_in_data<L: CoreLock>(hub: &Hub<L>) -> Result<bool, Refusal> {
    let (trace_id, span_id) = (TraceId([1; 16]), SpanId([2; 8]));
    let context = TransactionContext::new(hub.allocator(), "order", "http", trace_id, span_id)?;
    let transaction = hub.start_transaction(context, fresh(1))?;
    transaction.data(|_data| Ok(is_active(hub)))
}

// Whether it answers in each closure.
fn ask_in_closures<L: CoreLock<Callbacks = Callbacks>>(hub: &Hub<L>) -> Result<[bool; 3], Refusal> {
    let configuring = hub.configure_scope(at(1), |_edits| Ok(is_active(hub)))?;
    hub.add_breadcrumb_with(at(1), || breadcrumb_of(hub))?;
    let lent = hub.with_integration("adds", |_integration| is_active(hub))?;
    Ok([configuring, lent, ask_in_data(hub)?])
}

#[test]
fn closures_run_without_the_lock(rt: HostRuntime) -> Result<(), Fail> {
    let alloc: Global = rt.alloc();
    let bench = Bench::new(rt, alloc)?;
    let answers = ask_in_closures(&bench.thread.current)?;
    drop(bench);
    assert_eq!(rt; answers, [true; 3]);
    Ok(())
}

#[test]
fn breadcrumbs_are_made_without_the_lock(rt: HostRuntime) -> Result<(), Fail> {
    let mut bench = Bench::new(rt, rt.alloc())?;
    let added = ask_in_breadcrumbs(&mut bench.thread)?;
    drop(bench);
    assert_eq!(rt; added, 2);
    Ok(())
}
