//! A sink of the crate `log` that tells the current hub of a thread what is logged.
ghost use Rattle.std.specs.Prelude.{◌≡◌, IfOk};
ghost use Rattle.sentry_log.specs.Filters.{default_levels};

use crate::filter::{Levels, LogFilter, RecordFilter};
use crate::mapping::{RecordMapping, map_record};
use log::kv::Source;
use log::span::Spans;
use log::{Log, Metadata, Record};
use rand_core::{Rng, SeedableRng};
use sentry_base::clock::Clock;
use sentry_base::protocol::Refusal;
use sentry_hub::Hub;
use sentry_hub::api::{add_breadcrumb, capture_event};
use sentry_lock::CoreLock;
use sentry_thread_hub::{Refused, ThreadHub};
use std::alloc::AllocError;
use std::cell::RefCell;
use std::fmt::Display;

/// Tells the current hub of a thread what is logged, after a filter. A logger can't fail: what a hub refuses is dropped,
/// and so is what is logged while another record is told.
///
/// Beside another sink it stands in a `log::sink::Tee`, and below a `log::filter::FilteredLog` for filters by text.
#[derive(Drop)]
pub struct SentryLogger<L, K, G, F> {
    thread: RefCell<ThreadHub<Hub<L>, K, G>>,
    filter: F,
}

impl<L: CoreLock, K, G> SentryLogger<L, K, G, Levels> {
    /// A sink for this thread, with the filter `Levels::new()`. Its hubs may be those of another `ThreadHub`, of which
    /// they are clones: then what is logged goes to the hubs that the program uses.
    pub fn new(thread: ThreadHub<Hub<L>, K, G>) -> SentryLogger<L, K, G, Levels>
        ensures { result.filter ≡ default_levels }
    {
        SentryLogger::with_filter(thread, Levels::new())
    }
}

impl<L: CoreLock, K: Clock + Drop, G: SeedableRng + Rng + Drop> SentryLogger<L, K, G, Levels> {
    /// A sink on the hubs of this thread, with a clock of its own: what is logged goes to the hub that is current here now,
    /// and its events tell of the request that the thread serves now.
    ///
    /// An allocation may fail.
    pub fn of<C: Clock>(
        thread: &mut ThreadHub<Hub<L>, C, G>,
        clock: K,
    ) -> Result<SentryLogger<L, K, G, Levels>, AllocError>
        ensures { IfOk result (λ sink. sink.filter ≡ default_levels) }
    {
        let main = Hub::current(thread)?;
        let current = Hub::current(thread)?;
        let request = thread.request.clone()?;
        let generator = G::from_rng(&mut thread.generator);
        Ok(SentryLogger::new(ThreadHub {
            main,
            current,
            clock,
            generator,
            request,
            refused: Refused::nothing(),
        }))
    }
}

impl<L: CoreLock, K, G, F: RecordFilter> SentryLogger<L, K, G, F> {
    /// The same with a filter.
    pub fn with_filter(thread: ThreadHub<Hub<L>, K, G>, filter: F) -> SentryLogger<L, K, G, F>
        ensures { result.filter ≡ filter }
    {
        SentryLogger {
            thread: RefCell::new(thread),
            filter,
        }
    }
}

impl<L: CoreLock, K: Clock + Drop, G: Rng + Drop, F: RecordFilter> Log
    for SentryLogger<L, K, G, F> {
    ghost use Rattle.std.specs.Prelude.{Some, [], not};
    ghost use Rattle.sentry_log.specs.Filters.{is_nothing};

    ghost enables = { λ logger level target. Some (not (is_nothing (F.becomes logger.filter level target))) };

    ghost target_of = { λ _. Some [] };

    fn enabled(&self, metadata: &Metadata<'_>) -> bool {
        !self.filter.filter(metadata).is_ignored()
    }

    fn log<D: Display, P: Source, S: Spans>(&self, record: &Record<'_, D, P, S>) {
        let becomes = self.filter.filter(record.metadata());
        if becomes.is_ignored() {
            return;
        }
        if let Ok(mut thread) = self.thread.try_borrow_mut() {
            drop(tell(&mut thread, record, becomes));
        }
    }

    // Nothing waits here: what the client holds back is sent by its own `flush`.
    fn flush(&self) {}

    fn target(&self) -> &str {
        ""
    }
}

/// Tells the current hub of a thread what becomes of a record, at the moment of its clock: `Levels`, `Within` or another
/// `RecordFilter` decides that.
///
/// `Stale`: the hub isn't held. `OutOfMemory`. What was told before a refusal stays.
pub fn tell<L: CoreLock, K: Clock, G: Rng, D: Display, P: Source, S: Spans>(
    thread: &mut ThreadHub<Hub<L>, K, G>,
    record: &Record<'_, D, P, S>,
    becomes: LogFilter,
) -> Result<(), Refusal>
    ensures main { thread.new.main ≡ thread.old.main }
    ensures current { thread.new.current ≡ thread.old.current }
{
    let alloc = thread.current.allocator();
    let now = thread.clock.now();
    let mapping = map_record(alloc, now, record, becomes)?;
    hand_over(thread, mapping)
}

// The log first, and the breadcrumb last, so that an event has no breadcrumb of its own record.
fn hand_over<L: CoreLock, K: Clock, G: Rng>(
    thread: &mut ThreadHub<Hub<L>, K, G>,
    mapping: RecordMapping,
) -> Result<(), Refusal>
    ensures main { thread.new.main ≡ thread.old.main }
    ensures current { thread.new.current ≡ thread.old.current }
{
    let RecordMapping {
        breadcrumb,
        event,
        log,
    } = mapping;
    if let Some(log) = log {
        thread.current.capture_log(log)?;
    }
    if let Some(event) = event {
        capture_event(thread, event)?;
    }
    match breadcrumb {
        None => Ok(()),
        Some(breadcrumb) => add_breadcrumb(thread, breadcrumb),
    }
}
