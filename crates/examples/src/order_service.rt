//! A checkout service: three workers take orders, and tell Sentry of each.
use crate::orders::serve_orders;
use crate::setup::SEED;
use crate::tally::Tally;
use anyhow::{Result, ensure};
use sentry_core::filters::DropUnknownUsers;
use sentry_core::generic::{CoreLock, Hub, ThreadHub};
use sentry_core::protocol::Event;
use sentry_core::threads::{Task, for_each};
use sentry_core::{
    BoxedClock, BoxedEventCallback, BoxedGate, BoxedIntegration, BoxedTransport, ClientOptions,
    EventCallback, Generator, Integration, PlainOptions, SessionMode, SystemClock, Text,
    configure_scope, start,
};
use std::alloc::AllocError;
use std::sync::Arc;
use std::thread::Threads;
use std::time::Clock;

/// A `before_send` that takes the server's name and the request out.
#[derive(Drop)]
struct Scrub;

impl EventCallback for Scrub {
    ghost use Rattle.std.specs.Prelude.{Some, None};

    ghost gives = { λ _ event. Some (record event { server_name = None; request = None }) };

    fn call(&self, mut event: Event) -> Result<Option<Event>, AllocError> {
        event.server_name = None;
        event.request = None;
        Ok(Some(event))
    }
}

/// An integration that says where the program runs.
#[derive(Drop)]
struct Region(Text);

impl Integration for Region {
    ghost use Rattle.std.specs.Prelude.{Some, codes};

    ghost meaning = { λ s. record {
      name = codes "region";
      setup = λ options. options;
      process_event = λ _ event. Some (record event { environment = Some s.0 });
    } };

    fn name(&self) -> &str {
        "region"
    }

    fn setup(&self, _options: &mut PlainOptions) -> Result<(), AllocError> {
        Ok(())
    }

    fn process_event(
        &self,
        mut event: Event,
        _options: &PlainOptions,
    ) -> Result<Option<Event>, AllocError> {
        event.environment = Some(self.0.clone()?);
        Ok(Some(event))
    }
}

/// Runs the example.
pub fn run<R: Threads + Clock + Print + Copy + Drop + Send + Sync + 'static>(
    rt: R,
    host: HostRuntime,
    wait: BoxedGate,
) -> Result<()> {
    let alloc = host.alloc();
    let tally = Arc::new(alloc, Tally::new())?;
    let before_send: BoxedEventCallback = Box::new(alloc, Scrub)?;
    let region: BoxedIntegration = Box::new(alloc, Region(Text::new(alloc, "eu-1")?))?;
    let processor: BoxedEventCallback = Box::new(alloc, DropUnknownUsers)?;
    let options = ClientOptions::from_dsn(alloc, "https://public@sentry.invalid/7")?
        .release("checkout@2.1.0")?
        .environment("production")?
        .traces_sample_rate(1_000_000)?
        .before_send(before_send)?
        .add_integration(region)?
        .session_mode(SessionMode::Request);
    let transport: BoxedTransport = Box::new(alloc, tally.clone()?)?;
    let clock: BoxedClock = Box::new(alloc, SystemClock(host))?;
    let (sentry, mut thread) = start(alloc, wait, options, transport, clock, SEED)?;
    configure_scope(&mut thread, |scope| {
        scope.set_tag("service", "checkout")?;
        scope.add_event_processor(processor)
    })?;
    serve(rt, &mut thread)?;
    ensure!(sentry.close()?, "the transport has not sent all");
    Ok(tally.print(&rt)?)
}

/// All orders, by three workers at once.
fn serve<
    R: Threads + Clock + Copy + Drop + Send + Sync + 'static,
    L: CoreLock + Send + Sync + 'static,
>(rt: R, thread: &mut ThreadHub<Hub<L>, BoxedClock, Generator>) -> Result<()>
where
    L::Processor: Send + Sync + 'static,
    L::Callbacks: Send + Sync + 'static,
    L::Transport: Send + Sync + 'static,
{
    let workers = vec![in thread.current.allocator(); 0u64, 1, 2]?;
    let work = |task: Task<L, u64>| serve_orders(rt, task);
    for done in for_each(&rt, thread, workers, work)? {
        done?;
    }
    Ok(())
}
