//! What is printed of answers.
use crate::answer::{Answer, Reply};
use crate::headers::Header;
use crate::originals::Originals;
use scenario_print::{
    Shown, push_bytes, push_dsn_answer, push_envelope, push_last_event, push_line,
    push_line_if_any, push_line_of, push_parsed_headers, push_report,
};
use std::alloc::{AllocError, Global};
use std::io;
use std::io::Write;

/// What is printed of an envelope.
#[derive(Clone, Copy)]
pub enum Envelopes {
    /// A line that tells each field.
    Lines,
    /// That line, and the bytes.
    LinesAndBytes,
}

/// What is printed of one command: text, and then bytes.
pub struct Printed {
    alloc: Global,
    envelopes: Envelopes,
    text: String,
    bytes: Vec<u8>,
}

impl Drop for Printed {
    fn drop(self) {
        let Printed {
            alloc: _,
            envelopes: _,
            text: _,
            bytes: _,
        } = self;
    }
}

impl Printed {
    /// Nothing yet. It takes no memory.
    pub fn new(alloc: Global, envelopes: Envelopes) -> Printed {
        Printed {
            alloc,
            envelopes,
            text: String::new(alloc),
            bytes: Vec::new(alloc),
        }
    }

    /// Makes what is printed of an answer, in place of what was there.
    pub fn make(&mut self, originals: &Originals, answer: &Answer<'_>) -> Result<(), AllocError> {
        self.text.clear();
        self.bytes.clear();
        push_answer(&mut self.text, originals, answer)?;
        match self.envelopes {
            Envelopes::Lines => Ok(()),
            Envelopes::LinesAndBytes => push_all_bytes(self.alloc, &mut self.bytes, answer),
        }
    }

    /// Writes it.
    pub fn write<W: Write>(&self, writer: &mut W) -> io::Result<()> {
        writer.write_all(self.text.as_bytes())?;
        match self.envelopes {
            Envelopes::Lines => Ok(()),
            Envelopes::LinesAndBytes => writer.write_all(self.bytes.as_slice()),
        }
    }
}

// The bytes of each envelope.
fn push_all_bytes(
    alloc: Global,
    bytes: &mut Vec<u8>,
    answer: &Answer<'_>,
) -> Result<(), AllocError> {
    for (_, envelope) in answer.sent.as_slice() {
        push_bytes(alloc, bytes, envelope)?;
    }
    Ok(())
}

// Puts the lines of an answer at the end of the text: the reply, and each envelope, under the client whose transport it
// goes through.
fn push_answer(
    text: &mut String,
    originals: &Originals,
    answer: &Answer<'_>,
) -> Result<(), AllocError> {
    answer.reply.push_to(text)?;
    for (client, envelope) in answer.sent.as_slice() {
        push_envelope(text, originals.of(client.number), envelope)?;
    }
    Ok(())
}

impl Shown for Reply<'_> {
    fn push_to(&self, text: &mut String) -> Result<(), AllocError> {
        match self {
            Reply::Nothing => Ok(()),
            Reply::Refused(refusal) => push_line(text, "refused", refusal),
            Reply::Sample(decision) => push_line(text, "sample", decision),
            Reply::Options { client, options } => {
                push_line_of(text, "options", client, options.get())
            }
            Reply::ClientDsn { client, dsn } => push_line_if_any(text, "clientdsn", client, dsn),
            Reply::Enabled { client, is_enabled } => {
                push_line_of(text, "enabled", client, is_enabled)
            }
            Reply::Prepared { client, event } => push_line_if_any(text, "prepare", client, event),
            Reply::Report { client, report } => push_report(text, *client, report),
            Reply::Bound { hub, client } => push_line_of(text, "bound", hub, client),
            Reply::LastEvent { hub, id } => push_last_event(text, *hub, *id),
            Reply::Active { hub, is_active } => push_line_of(text, "active", hub, is_active),
            Reply::Headers(parsed) => push_parsed_headers(text, parsed),
            Reply::HubHeaders { hub, headers } => push_headers(text, hub, headers.as_slice()),
            Reply::TraceContext { span, context } => push_line_of(text, "trace", span, context),
            Reply::Sampled { span, is_sampled } => push_line_of(text, "sampled", span, is_sampled),
            Reply::SpanHeaders { span, headers } => push_headers(text, span, headers.as_slice()),
            Reply::Status { span, status } => push_line_of(text, "getstatus", span, status),
            Reply::SpanId { span, id } => push_line_of(text, "spanid", span, id),
            Reply::Data { span, values } => push_line_of(text, "data", span, values),
            Reply::Dsn(read) => push_dsn_answer(text, read),
            Reply::DebugType(name) => push_line(text, "debugtype", name),
            Reply::Sensitive(is_sensitive) => push_line(text, "sensitive", is_sensitive),
            Reply::Scrubbed(url) => push_line(text, "scrub", &url.as_str()),
        }
    }
}

// The headers of a hub or of a span.
fn push_headers<K: Shown>(
    text: &mut String,
    owner: &K,
    headers: &[Header],
) -> Result<(), AllocError> {
    text.push_str("headers ")?;
    owner.push_to(text)?;
    for header in headers {
        push_header(text, header)?;
    }
    text.push_str("\n")
}

// A header's value is the id of the trace, and after a `-` that of the span and the decision on sampling.
fn push_header(text: &mut String, header: &Header) -> Result<(), AllocError> {
    let name = header.name.as_str();
    let value = header.value.as_str();
    match value.split_once('-') {
        Some((trace, rest)) => write!(text, " {name} T{trace}-S{rest}"),
        None => write!(text, " {name} {value}"),
    }
}
