//! Integrations that are lent to closures.
use crate::workshop::{Bench, Callbacks, Thread, id};
use sentry_core::protocol::{Event, Refusal};
use sentry_core::{Integration, PlainOptions, with_integration};
use sentry_lock::CoreLock;
use std::alloc::{AllocError, Global};
use std::test::Fail;

/// Adds so many nanoseconds to the moment of each event.
#[derive(Drop)]
pub(crate) struct Adds(pub(crate) u64);

impl Integration for Adds {
    ghost use Rattle.std.specs.Prelude.{Some, ◌+◌, ◌%◌, ◌^◌, codes};

    ghost meaning = { λ s. record {
      name = codes "adds";
      setup = λ options. options;
      process_event = λ _ event. Some (record event { timestamp = (event.timestamp + s.0) % 2 ^ 64 });
    } };

    fn name(&self) -> &str {
        "adds"
    }

    fn setup(&self, _options: &mut PlainOptions) -> Result<(), AllocError> {
        Ok(())
    }

    fn process_event(
        &self,
        mut event: Event,
        _options: &PlainOptions,
    ) -> Result<Option<Event>, AllocError> {
        event.timestamp = event.timestamp.wrapping_add(self.0);
        Ok(Some(event))
    }
}

// What an integration adds to the moment 0.
fn add_by(integration: &Adds, alloc: Global) -> Result<u64, AllocError> {
    let event = Event::new(alloc, id(1), 0)?;
    match integration.process_event(event, &PlainOptions::new(alloc))? {
        Some(event) => Ok(event.timestamp),
        None => Ok(0),
    }
}

// What the integration of a name adds that the current hub lends, and the one that the function on it lends. Each is 0
// where the closure doesn't run.
fn add_by_name<L: CoreLock<Callbacks = Callbacks>>(
    thread: &Thread<L>,
    name: &str,
) -> Result<(u64, u64), Refusal> {
    let hub = &thread.current;
    let alloc = hub.core().allocator();
    let first = hub.with_integration(name, |lent| add_by(lent, alloc).unwrap_or(0))?;
    let second = with_integration(thread, name, |lent, _hub| add_by(lent, alloc).unwrap_or(0))?;
    Ok((first, second))
}

// Asks for a name that two integrations have, and for one that none has.
fn ask<L: CoreLock<Callbacks = Callbacks>>(thread: &Thread<L>) -> Result<[(u64, u64); 2], Refusal> {
    Ok([add_by_name(thread, "adds")?, add_by_name(thread, "none")?])
}

#[test]
fn the_first_integration_of_a_name_is_lent(rt: HostRuntime) -> Result<(), Fail> {
    let bench = Bench::apart(rt, rt.alloc())?;
    let added = ask(&bench.thread)?;
    drop(bench);
    assert_eq!(rt; added, [(5, 5), (0, 0)]);
    Ok(())
}
