//! What commands come to.
use crate::callbacks::Callbacks;
use crate::headers::Header;
use sentry_base::protocol::{
    ClientKey, ClientReport, Envelope, Event, Refusal, SpanId, SpanStatus, TraceContext,
    TransactionOrSpanKey, Uuid, ValueMap,
};
use sentry_engine::Out;
use sentry_options::ClientOptions;
use sentry_plain::{Boxed, Items, Shared};
use sentry_texts::dsn::{Dsn, ParseDsnError};
use sentry_trace::headers::{HeaderParseError, TracePropagationContext};
use std::alloc::Global;
use url::Url;

/// What is to be printed of a command: the reply, and then a line for each envelope.
pub struct Answer<'a> {
    pub reply: Reply<'a>,
    pub sent: Items<(ClientKey, Envelope)>,
}

impl Drop for Answer<'_> {
    fn drop(self) {
        let Answer { reply: _, sent: _ } = self;
    }
}

/// What a command answers by itself.
#[derive(Drop)]
pub enum Reply<'a> {
    /// Nothing is printed.
    Nothing,
    Refused(Refusal),
    Sample(bool),
    Options {
        client: u64,
        options: Shared<ClientOptions<Callbacks>>,
    },
    ClientDsn {
        client: u64,
        dsn: Option<Dsn>,
    },
    Enabled {
        client: u64,
        is_enabled: bool,
    },
    Prepared {
        client: u64,
        event: Option<Boxed<Event>>,
    },
    Report {
        client: u64,
        report: Option<ClientReport>,
    },
    Bound {
        hub: u64,
        client: Option<ClientKey>,
    },
    LastEvent {
        hub: u64,
        id: Option<Uuid>,
    },
    Active {
        hub: u64,
        is_active: bool,
    },
    Headers(Result<TracePropagationContext, HeaderParseError>),
    HubHeaders {
        hub: u64,
        headers: Items<Header>,
    },
    TraceContext {
        span: TransactionOrSpanKey,
        context: TraceContext,
    },
    Sampled {
        span: TransactionOrSpanKey,
        is_sampled: bool,
    },
    SpanHeaders {
        span: TransactionOrSpanKey,
        headers: Items<Header>,
    },
    Status {
        span: TransactionOrSpanKey,
        status: Option<SpanStatus>,
    },
    SpanId {
        span: TransactionOrSpanKey,
        id: SpanId,
    },
    Data {
        span: TransactionOrSpanKey,
        values: ValueMap,
    },
    Dsn(Result<Option<Dsn>, ParseDsnError>),
    DebugType(&'a str),
    Sensitive(bool),
    Scrubbed(Url),
}

impl<'a> Answer<'a> {
    /// A reply without envelopes. It takes no memory.
    pub fn new(alloc: Global, reply: Reply<'a>) -> Answer<'a> {
        Answer {
            reply,
            sent: Items::new(alloc),
        }
    }

    /// What a call handed out, whose reply isn't printed.
    pub fn of_sent<T: Drop>(out: Out<T>) -> Answer<'a> {
        Answer {
            reply: Reply::Nothing,
            sent: out.sent,
        }
    }
}
