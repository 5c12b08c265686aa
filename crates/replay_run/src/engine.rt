//! The engine of this program: its scopes have no processors, and its clients have no callbacks.
ghost use Rattle.replay_run.specs.Engines.{same_event, no_callbacks};

use sentry_base::callbacks::EventCallback;
use sentry_base::protocol::{Breadcrumb, Event, Log, Metric};
use sentry_engine::Engine;
use sentry_engine::call::{Answer, Call};
use sentry_options::{Callbacks, PlainOptions};
use sentry_plain::{Boxed, Few, Items, Text};
use sentry_trace::performance::TransactionContext;
use std::alloc::{AllocError, Global};

/// An engine on which no code of a user runs.
pub type ReplayEngine = Engine<NoProcessor, NoCallbacks>;

/// A call of such an engine, with its arguments.
pub type ReplayCall = Call<NoProcessor, NoCallbacks>;

/// What a call answers: its reply and envelopes, or why it was refused.
pub type ReplayAnswer = Answer<NoProcessor, NoCallbacks>;

/// An event processor that gives each event back. No scope of this program gets one.
#[derive(Drop)]
pub struct NoProcessor;

impl EventCallback for NoProcessor {
    ghost gives = { same_event };

    fn call(&self, event: Event) -> Result<Option<Event>, AllocError> {
        Ok(Some(event))
    }
}

/// The callbacks of a client that has none.
#[derive(Drop)]
pub struct NoCallbacks;

impl Callbacks for NoCallbacks {
    ghost meanings = { no_callbacks };

    fn integration_names(&self, alloc: Global) -> Result<Items<Text>, AllocError> {
        Ok(Items::new(alloc))
    }

    fn set_up(&self, _options: &mut PlainOptions) -> Result<(), AllocError> {
        Ok(())
    }

    fn process_event(
        &self,
        _event: &mut Option<Boxed<Event>>,
        _options: &PlainOptions,
    ) -> Result<(), AllocError> {
        Ok(())
    }

    fn enrich_event(&self, event: Event, _options: &PlainOptions) -> Result<Event, AllocError> {
        Ok(event)
    }

    fn before_send(&self, _event: &mut Option<Boxed<Event>>) -> Result<(), AllocError> {
        Ok(())
    }

    fn before_breadcrumb(
        &self,
        breadcrumbs: Few<Breadcrumb>,
    ) -> Result<Few<Breadcrumb>, AllocError> {
        Ok(breadcrumbs)
    }

    fn before_send_log(&self, log: Log) -> Result<Option<Log>, AllocError> {
        Ok(Some(log))
    }

    fn before_send_metric(&self, metric: Metric) -> Result<Option<Metric>, AllocError> {
        Ok(Some(metric))
    }

    fn traces_rate(&self, _context: &TransactionContext) -> Result<u32, AllocError> {
        Ok(0)
    }
}
