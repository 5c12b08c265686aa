//! How breadcrumbs are added.
use crate::answer::Answer;
use crate::caller::Caller;
use crate::fault::Failure;
use crate::scenario::{Scenario, hub_key};
use scenario_commands::breadcrumbs::{BreadcrumbCommand, Messages};
use sentry_base::protocol::Breadcrumb;
use sentry_engine::call::HubCall;
use sentry_plain::{Items, Text};
use std::alloc::{AllocError, Global};

fn breadcrumb(alloc: Global, now: u64, message: &str) -> Result<Breadcrumb, AllocError> {
    let mut breadcrumb = Breadcrumb::new(alloc, now)?;
    breadcrumb.message = Some(Text::new(alloc, message)?);
    Ok(breadcrumb)
}

fn breadcrumbs(
    alloc: Global,
    now: u64,
    messages: Messages<'_>,
) -> Result<Vec<Breadcrumb>, AllocError> {
    let mut list = Vec::new(alloc);
    match messages {
        Messages::One(message) => list.push(breadcrumb(alloc, now, message)?)?,
        Messages::Words("") => {}
        Messages::Words(text) => {
            for word in text.split(' ') {
                list.push(breadcrumb(alloc, now, word)?)?;
            }
        }
    }
    Ok(list)
}

impl<E: Caller> Scenario<E> {
    /// Adds breadcrumbs to the top scope of a hub.
    pub fn add_breadcrumbs<'a>(
        &mut self,
        command: BreadcrumbCommand<'_>,
    ) -> Result<Answer<'a>, Failure> {
        let added = breadcrumbs(self.alloc, self.moment(), command.messages)?;
        self.call_hub(HubCall::AddBreadcrumbs {
            hub: hub_key(command.hub),
            breadcrumbs: Items::from_vec(added),
        })
    }
}
