//! Scopes without processors.
ghost use Rattle.c_engine.specs.Engines.{same_event};

use sentry_base::callbacks::EventCallback;
use sentry_base::protocol::Event;
use std::alloc::AllocError;

/// An event processor that gives each event back. No scope of this program gets one.
#[derive(Drop)]
pub struct NoProcessor;

impl EventCallback for NoProcessor {
    ghost gives = { same_event };

    fn call(&self, event: Event) -> Result<Option<Event>, AllocError> {
        Ok(Some(event))
    }
}
