//! The calls on transactions and spans as values, and their replies.
use sentry_base::protocol::{
    Fresh, HubKey, Request, SpanId, SpanKey, SpanStatus, TraceContext, TransactionKey,
    TransactionOrSpanKey,
};
use sentry_plain::{Boxed, Text, Value, ValueMap};
use sentry_trace::headers::TraceHeadersIter;
use sentry_trace::performance::TransactionContext;

/// A call on transactions and spans, with its arguments: each variant stands for the function of its name.
#[derive(Drop)]
pub enum SpanCall {
    StartTransaction {
        hub: HubKey,
        context: Boxed<TransactionContext>,
        fresh: Fresh,
    },
    StartTransactionWithTimestamp {
        hub: HubKey,
        context: Boxed<TransactionContext>,
        /// When it starts, in nanoseconds since the epoch.
        start: u64,
        fresh: Fresh,
    },
    StartChild {
        parent: TransactionOrSpanKey,
        op: Text,
        /// The empty text is none.
        description: Text,
        fresh: Fresh,
    },
    StartChildWithDetails {
        parent: TransactionOrSpanKey,
        op: Text,
        /// The empty text is none.
        description: Text,
        id: SpanId,
        /// When it starts, in nanoseconds since the epoch.
        start: u64,
    },
    ContinueFromSpan {
        name: Text,
        op: Text,
        span: Option<TransactionOrSpanKey>,
        fresh: Fresh,
    },
    SetData {
        span: TransactionOrSpanKey,
        key: Text,
        value: Value,
    },
    SetTag {
        span: TransactionOrSpanKey,
        key: Text,
        value: Text,
    },
    SetExtra {
        transaction: TransactionKey,
        key: Text,
        value: Value,
    },
    SetStatus {
        span: TransactionOrSpanKey,
        status: SpanStatus,
    },
    SetOp {
        span: TransactionOrSpanKey,
        op: Text,
    },
    SetName {
        span: TransactionOrSpanKey,
        /// The name of a transaction, and the description of a span.
        name: Text,
    },
    SetRequest {
        span: TransactionOrSpanKey,
        request: Boxed<Request>,
    },
    SetOrigin {
        transaction: TransactionKey,
        origin: Text,
    },
    GetStatus(TransactionOrSpanKey),
    GetTraceContext(TransactionOrSpanKey),
    GetSpanId(SpanKey),
    Data(TransactionOrSpanKey),
    IterHeaders(TransactionOrSpanKey),
    IsSampled(TransactionOrSpanKey),
    FinishTransaction {
        transaction: TransactionKey,
        /// The hub whose top scope applies.
        hub: HubKey,
        /// When it finishes, in nanoseconds since the epoch.
        moment: u64,
    },
    FinishSpan {
        span: SpanKey,
        /// When it finishes, in nanoseconds since the epoch.
        moment: u64,
    },
    Discard(TransactionOrSpanKey),
}

/// What a call on transactions and spans replies.
#[derive(Drop)]
pub enum SpanReply {
    Transaction(TransactionKey),
    Span(SpanKey),
    Context(TransactionContext),
    Done,
    Status(Option<SpanStatus>),
    TraceContext(TraceContext),
    SpanId(SpanId),
    Data(ValueMap),
    Headers(TraceHeadersIter),
    /// The reply of `is_sampled`.
    Decision(bool),
}
