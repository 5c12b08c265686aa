//! What is answered of texts alone.
use crate::answer::{Answer, Reply};
use crate::fault::Failure;
use crate::scenario::Scenario;
use scenario_commands::texts::TextCommand;
use sentry_base::protocol::Refusal;
use sentry_texts::dsn::IntoDsn;
use sentry_texts::utils::{is_sensitive_header, parse_type_from_debug, scrub_pii_from_url};
use std::alloc::Global;
use url::{ParseError, Url};

fn read_dsn<'a>(alloc: Global, text: &str) -> Result<Reply<'a>, Refusal> {
    match text.into_dsn(alloc) {
        Ok(dsn) => Ok(Reply::Dsn(Ok(dsn))),
        Err(Refusal::InvalidDsn(cause)) => Ok(Reply::Dsn(Err(cause))),
        Err(refusal) => Err(refusal),
    }
}

/// A text that is no URL makes the line a bad command.
fn scrub<'a>(alloc: Global, text: &str) -> Result<Reply<'a>, Failure> {
    match Url::parse(alloc, text) {
        Ok(url) => Ok(Reply::Scrubbed(scrub_pii_from_url(url)?)),
        Err(ParseError::OutOfMemory) => Err(Failure::Refused(Refusal::OutOfMemory)),
        Err(_) => Err(Failure::BadCommand),
    }
}

impl<E> Scenario<E> {
    /// Answers what a line asks of a text.
    pub fn read_text<'a>(&self, command: &TextCommand<'a>) -> Result<Answer<'a>, Failure> {
        let reply = match command {
            TextCommand::Dsn(text) => read_dsn(self.alloc, text)?,
            TextCommand::DebugType(text) => Reply::DebugType(parse_type_from_debug(text)),
            TextCommand::Sensitive(text) => Reply::Sensitive(is_sensitive_header(text)),
            TextCommand::Scrub(text) => scrub(self.alloc, text)?,
        };
        Ok(Answer::new(self.alloc, reply))
    }
}
