//! The lines of what commands answer by themselves.
use crate::Shown;
use crate::lists::{push_joined, push_labeled};
use sentry_base::protocol::{ClientKey, ClientReport, OrganizationId, Refusal, Uuid};
use sentry_plain::Boxed;
use sentry_texts::dsn::{Dsn, ParseDsnError};
use sentry_trace::headers::{HeaderParseError, TracePropagationContext};
use std::alloc::AllocError;

/// Puts a line at the end of the text: the name of a reply, and its value.
pub fn push_line<T: Shown>(text: &mut String, name: &str, value: &T) -> Result<(), AllocError> {
    write!(text, "{name} ")?;
    value.push_to(text)?;
    text.push_str("\n")
}

/// The same for a value of something that is named, as a client or a hub by its number or a span by its key. The name
/// of that stands after the name of the reply.
pub fn push_line_of<K: Shown, T: Shown>(
    text: &mut String,
    name: &str,
    owner: &K,
    value: &T,
) -> Result<(), AllocError> {
    text.push_str(name)?;
    push_labeled(text, " ", owner)?;
    push_labeled(text, " ", value)?;
    text.push_str("\n")
}

/// The same with `none` where there is no value.
pub fn push_line_if_any<K: Shown, T: Shown>(
    text: &mut String,
    name: &str,
    owner: &K,
    value: &Option<T>,
) -> Result<(), AllocError> {
    match value {
        Some(value) => push_line_of(text, name, owner, value),
        None => push_line_of(text, name, owner, &"none"),
    }
}

impl Shown for Refusal {
    fn push_to(&self, text: &mut String) -> Result<(), AllocError> {
        let number = self.number();
        write!(text, "E{number}")
    }
}

impl Shown for &str {
    fn push_to(&self, text: &mut String) -> Result<(), AllocError> {
        text.push_str(self)
    }
}

impl<T: Shown> Shown for Boxed<T> {
    fn push_to(&self, text: &mut String) -> Result<(), AllocError> {
        self.get().push_to(text)
    }
}

impl Shown for ClientKey {
    fn push_to(&self, text: &mut String) -> Result<(), AllocError> {
        self.number.push_to(text)
    }
}

/// Puts the line of the report of the client of this number at the end of the text, or that it has none.
pub fn push_report(
    text: &mut String,
    client: u64,
    report: &Option<ClientReport>,
) -> Result<(), AllocError> {
    match report {
        None => writeln!(text, "report {client} none"),
        Some(report) => {
            write!(text, "report {client} ")?;
            push_joined(text, report.items.as_slice(), ",")?;
            text.push_str("\n")
        }
    }
}

/// Puts the line of the last event id of the hub of this number at the end of the text. An id of zeros is `nil`.
pub fn push_last_event(text: &mut String, hub: u64, id: Option<Uuid>) -> Result<(), AllocError> {
    match id {
        None => writeln!(text, "last {hub} none"),
        Some(id) if id.is_nil() => writeln!(text, "last {hub} nil"),
        Some(id) => {
            let id = id.simple();
            writeln!(text, "last {hub} {id}")
        }
    }
}

impl Shown for OrganizationId {
    fn push_to(&self, text: &mut String) -> Result<(), AllocError> {
        self.0.push_to(text)
    }
}

impl Shown for TracePropagationContext {
    fn push_to(&self, text: &mut String) -> Result<(), AllocError> {
        let trace = self.trace_id;
        let span = self.span_id;
        push_labeled(text, "org=", &self.org_id)?;
        write!(text, " sentry-trace T{trace}-S{span}")?;
        text.push_str(match self.sampled {
            Some(true) => "-1",
            Some(false) => "-0",
            None => "",
        })
    }
}

/// Puts the line of what headers were read as at the end of the text.
pub fn push_parsed_headers(
    text: &mut String,
    parsed: &Result<TracePropagationContext, HeaderParseError>,
) -> Result<(), AllocError> {
    text.push_str("headers parsed ")?;
    match parsed {
        Ok(context) => context.push_to(text)?,
        Err(cause) => write!(text, "{cause}")?,
    }
    text.push_str("\n")
}

impl Shown for Dsn {
    fn push_to(&self, text: &mut String) -> Result<(), AllocError> {
        let scheme = self.scheme();
        let key = self.public_key();
        let host = self.host();
        let port = self.port();
        let project = self.project_id().value();
        write!(text, "{scheme} {key} {host} {port} {project} org=")?;
        self.org_id().push_to(text)
    }
}

fn push_dsn(text: &mut String, dsn: &Option<Dsn>) -> Result<(), AllocError> {
    match dsn {
        Some(dsn) => dsn.push_to(text),
        None => text.push_str("none"),
    }
}

/// Puts the line of what a text was read as, a DSN or none, at the end of the text.
pub fn push_dsn_answer(
    text: &mut String,
    read: &Result<Option<Dsn>, ParseDsnError>,
) -> Result<(), AllocError> {
    text.push_str("dsn ")?;
    match read {
        Ok(dsn) => push_dsn(text, dsn)?,
        Err(cause) => write!(text, "{cause:?}")?,
    }
    text.push_str("\n")
}
