//! Events.
use crate::Shown;
use crate::contexts::CONTEXTS;
use crate::lists::{PLAIN, push_joined, push_labeled, push_list, push_map};
use sentry_base::protocol::{Breadcrumb, ClientSdkInfo, Event, Exception, Level, User};
use std::alloc::AllocError;

impl Shown for Event {
    fn push_to(&self, text: &mut String) -> Result<(), AllocError> {
        let id = self.event_id.simple();
        write!(text, "event {id} ")?;
        self.level.push_to(text)?;
        text.push_str(" ")?;
        push_map(text, &self.tags, PLAIN)?;
        text.push_str(" ")?;
        if let Some(message) = &self.message {
            message.push_to(text)?;
        }
        let at = self.timestamp;
        write!(text, " {{at={at}")?;
        push_names(text, self)?;
        push_details(text, self)?;
        text.push_str("}")
    }
}

fn push_names(text: &mut String, event: &Event) -> Result<(), AllocError> {
    push_labeled(text, " platform=", &event.platform)?;
    push_labeled(text, " release=", &event.release)?;
    push_labeled(text, " environment=", &event.environment)?;
    push_labeled(text, " server=", &event.server_name)?;
    push_labeled(text, " transaction=", &event.transaction)
}

fn push_details(text: &mut String, event: &Event) -> Result<(), AllocError> {
    text.push_str(" fingerprint=")?;
    push_joined(text, event.fingerprint.as_slice(), ",")?;
    push_labeled(text, " user=", &event.user)?;
    push_labeled(text, " extra=", &event.extra)?;
    text.push_str(" contexts=")?;
    push_map(text, &event.contexts, CONTEXTS)?;
    push_list(text, " crumbs=", &event.breadcrumbs, ";")?;
    push_list(text, " exceptions=", &event.exception, ";")?;
    push_labeled(text, " integrations=", &event.sdk)
}

impl Shown for Level {
    fn push_to(&self, text: &mut String) -> Result<(), AllocError> {
        text.push_str(self.as_str())
    }
}

impl Shown for User {
    fn push_to(&self, text: &mut String) -> Result<(), AllocError> {
        self.id.push_to(text)?;
        push_labeled(text, "/", &self.email)?;
        push_labeled(text, "/", &self.username)
    }
}

/// A breadcrumb is told by its message.
impl Shown for Breadcrumb {
    fn push_to(&self, text: &mut String) -> Result<(), AllocError> {
        self.message.push_to(text)
    }
}

impl Shown for Exception {
    fn push_to(&self, text: &mut String) -> Result<(), AllocError> {
        self.ty.push_to(text)?;
        push_labeled(text, ":", &self.value)?;
        let handled = match &self.mechanism {
            Some(mechanism) => mechanism.handled,
            None => None,
        };
        text.push_str(match handled {
            Some(true) => ":true",
            Some(false) => ":false",
            None => ":-",
        })
    }
}

/// An SDK is told by the names of its integrations, which may be none.
impl Shown for ClientSdkInfo {
    fn push_to(&self, text: &mut String) -> Result<(), AllocError> {
        push_joined(text, self.integrations.as_slice(), ",")
    }
}
