//! How events are captured on a hub.
use crate::answer::Answer;
use crate::caller::Caller;
use crate::copies::Copies;
use crate::fault::Failure;
use crate::rich::rich_event;
use crate::scenario::{Scenario, hub_key};
use scenario_commands::captures::{Capture, CaptureCommand, Message};
use sentry_base::protocol::{ErrorLink, Event, Exception, Fresh, HubKey, Level, Mechanism};
use sentry_engine::call::HubCall;
use sentry_plain::{Boxed, Items, Text};
use std::alloc::{AllocError, Global};

/// An exception. It has a mechanism where it is known whether it was handled.
fn exception(alloc: Global, handled: Option<bool>, value: &str) -> Result<Exception, AllocError> {
    let mut copies = Copies::new(alloc);
    let mechanism = match handled {
        Some(_) => Some(Mechanism {
            ty: copies.text("generic"),
            handled,
        }),
        None => None,
    };
    let exception = Exception {
        ty: copies.text("Type"),
        value: Some(copies.text(value)),
        mechanism,
    };
    copies.finish(exception)
}

/// An event without a message, of one exception.
fn exception_event(
    alloc: Global,
    level: Level,
    exception: Exception,
    fresh: Fresh,
) -> Result<Event, AllocError> {
    let mut event = Event::new(alloc, fresh.uuid, fresh.now)?;
    event.level = level;
    event.exception.push(exception)?;
    Ok(event)
}

/// An error with a cause.
fn error_links(alloc: Global, message: &str) -> Result<Items<ErrorLink>, AllocError> {
    let cause = format!(in alloc; "cause of {message}")?;
    let mut links = Items::new(alloc);
    links.push(ErrorLink::new(alloc, "Fault { .. }", message)?)?;
    links.push(ErrorLink::new(alloc, "Cause(..)", cause.as_str())?)?;
    Ok(links)
}

impl<E: Caller> Scenario<E> {
    /// Captures what a line asks for.
    pub fn capture<'a>(&mut self, command: &CaptureCommand<'_>) -> Result<Answer<'a>, Failure> {
        let hub = hub_key(command.hub);
        match command.capture {
            Capture::Message(message) => self.capture_message(hub, message),
            Capture::Exception {
                level,
                handled,
                value,
            } => {
                let exception = exception(self.alloc, handled, value)?;
                let event = exception_event(self.alloc, level, exception, self.fresh())?;
                self.capture_event(hub, event)
            }
            Capture::Error(message) => self.capture_error(hub, message),
            Capture::Rich(Message { level, text }) => {
                let event = rich_event(self.alloc, level, text, self.fresh())?;
                self.capture_event(hub, event)
            }
        }
    }

    fn capture_message<'a>(
        &mut self,
        hub: HubKey,
        message: Message<'_>,
    ) -> Result<Answer<'a>, Failure> {
        let fresh = self.fresh();
        let Message { level, text } = message;
        let message = Text::new(self.alloc, text)?;
        self.call_hub(HubCall::CaptureMessage {
            hub,
            message,
            level,
            fresh,
        })
    }

    fn capture_event<'a>(&mut self, hub: HubKey, event: Event) -> Result<Answer<'a>, Failure> {
        let fresh = self.fresh();
        let event = Boxed::new(self.alloc, event)?;
        self.call_hub(HubCall::CaptureEvent { hub, event, fresh })
    }

    fn capture_error<'a>(&mut self, hub: HubKey, message: &str) -> Result<Answer<'a>, Failure> {
        let fresh = self.fresh();
        let links = error_links(self.alloc, message)?;
        self.call_hub(HubCall::CaptureError { hub, links, fresh })
    }
}
