//! What is answered of the replies to what was asked of clients, hubs and spans. A reply of another kind than can be
//! asked of them is no engine's.
use crate::answer::{Answer, Reply};
use crate::callbacks::{Callbacks, Handler};
use crate::caller::{CallReply, Caller};
use crate::fault::Failure;
use crate::headers::collect_headers;
use crate::scenario::Scenario;
use sentry_base::protocol::TransactionOrSpanKey;
use sentry_engine::call::{Call, ClientCall, HubCall, SpanCall, SpanReply};
use sentry_trace::headers::TraceHeadersIter;
use std::alloc::{AllocError, Global};

fn of_client<'a>(client: u64, reply: CallReply) -> Result<Reply<'a>, Failure> {
    match reply {
        CallReply::Options(options) => Ok(Reply::Options { client, options }),
        CallReply::Dsn(dsn) => Ok(Reply::ClientDsn { client, dsn }),
        CallReply::Decision(is_enabled) => Ok(Reply::Enabled { client, is_enabled }),
        CallReply::Prepared(event) => Ok(Reply::Prepared { client, event }),
        CallReply::Report(report) => Ok(Reply::Report { client, report }),
        _other => Err(Failure::OtherReply),
    }
}

fn of_hub<'a>(hub: u64, reply: CallReply) -> Result<Reply<'a>, Failure> {
    match reply {
        CallReply::HubClient(client) => Ok(Reply::Bound { hub, client }),
        CallReply::Decision(is_active) => Ok(Reply::Active { hub, is_active }),
        CallReply::LastEvent(id) => Ok(Reply::LastEvent { hub, id }),
        _other => Err(Failure::OtherReply),
    }
}

fn of_headers<'a>(
    alloc: Global,
    span: TransactionOrSpanKey,
    headers: TraceHeadersIter,
) -> Result<Reply<'a>, AllocError> {
    let headers = collect_headers(alloc, headers)?;
    Ok(Reply::SpanHeaders { span, headers })
}

fn of_span<'a>(
    alloc: Global,
    span: TransactionOrSpanKey,
    reply: SpanReply,
) -> Result<Reply<'a>, Failure> {
    match reply {
        SpanReply::TraceContext(context) => Ok(Reply::TraceContext { span, context }),
        SpanReply::Decision(is_sampled) => Ok(Reply::Sampled { span, is_sampled }),
        SpanReply::Headers(headers) => Ok(of_headers(alloc, span, headers)?),
        SpanReply::Status(status) => Ok(Reply::Status { span, status }),
        SpanReply::SpanId(id) => Ok(Reply::SpanId { span, id }),
        SpanReply::Data(values) => Ok(Reply::Data { span, values }),
        _other => Err(Failure::OtherReply),
    }
}

impl<E: Caller> Scenario<E> {
    /// Asks something of a client, or of its label.
    pub fn ask_client<'a>(
        &mut self,
        client: u64,
        call: ClientCall<Handler, Callbacks>,
    ) -> Result<Answer<'a>, Failure> {
        let reply = self.ask(Call::Client(call))?;
        Ok(Answer::new(self.alloc, of_client(client, reply)?))
    }

    /// Asks something of a hub.
    pub fn ask_hub<'a>(&mut self, hub: u64, call: HubCall<Handler>) -> Result<Answer<'a>, Failure> {
        let reply = self.ask(Call::Hub(call))?;
        Ok(Answer::new(self.alloc, of_hub(hub, reply)?))
    }

    /// Asks something of a transaction or a span.
    pub fn ask_of_span<'a>(
        &mut self,
        span: TransactionOrSpanKey,
        call: SpanCall,
    ) -> Result<Answer<'a>, Failure> {
        let reply = self.ask_span(call)?;
        Ok(Answer::new(self.alloc, of_span(self.alloc, span, reply)?))
    }
}
