//! What is done with headers.
use crate::answer::{Answer, Reply};
use crate::caller::Caller;
use crate::copies::Copies;
use crate::fault::Failure;
use crate::scenario::{Scenario, hub_key};
use scenario_commands::headers::HeaderCommand;
use sentry_base::protocol::Refusal;
use sentry_plain::{Items, Text};
use sentry_trace::headers::{TraceHeadersIter, TracePropagationContext};
use std::alloc::{AllocError, Global};

/// A header that is kept for a later line, or printed.
#[derive(Drop)]
pub struct Header {
    pub name: Text,
    pub value: Text,
}

impl<E: Caller> Scenario<E> {
    /// Keeps a header, reads those that are kept, or makes those of a hub.
    pub fn perform_on_headers<'a>(
        &mut self,
        command: &HeaderCommand<'_>,
    ) -> Result<Answer<'a>, Failure> {
        let reply = match command {
            HeaderCommand::Keep { name, value } => {
                self.keep_header(name, value)?;
                Reply::Nothing
            }
            HeaderCommand::Parse => self.parse_headers(),
            HeaderCommand::OfHub(hub) => self.headers_of_hub(*hub)?,
        };
        Ok(Answer::new(self.alloc, reply))
    }

    // The headers that pass on the trace of a hub's top scope.
    fn headers_of_hub<'a>(&mut self, hub: u64) -> Result<Reply<'a>, Refusal> {
        let headers = self.caller.headers_of_hub(hub_key(hub))?;
        let headers = collect_headers(self.alloc, headers)?;
        Ok(Reply::HubHeaders { hub, headers })
    }
}

impl<E> Scenario<E> {
    fn keep_header(&mut self, name: &str, value: &str) -> Result<(), AllocError> {
        let mut copies = Copies::new(self.alloc);
        let name = copies.text(name);
        let value = copies.text(value);
        let header = copies.finish(Header { name, value })?;
        self.headers.push(header)
    }

    fn parse_headers<'a>(&mut self) -> Reply<'a> {
        let headers = self.headers.as_slice().iter();
        let parsed = TracePropagationContext::try_from_headers(headers.map(|header| (
            header.name.as_str(),
            header.value.as_str(),
        )));
        self.headers = Items::new(self.alloc);
        Reply::Headers(parsed)
    }
}

/// A list of the headers.
pub fn collect_headers(
    alloc: Global,
    headers: TraceHeadersIter,
) -> Result<Items<Header>, AllocError> {
    let mut list = Items::new(alloc);
    for (name, value) in headers {
        let name = Text::new(alloc, name)?;
        let value = Text::from_string(value)?;
        list.push(Header { name, value })?;
    }
    Ok(list)
}
