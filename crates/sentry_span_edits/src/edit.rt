//! What a setter of transactions and spans writes.
use sentry_base::protocol::{Request, SpanStatus};
use sentry_plain::{Text, Value};

/// One change of a transaction or of a span.
#[derive(Drop)]
pub enum SpanEdit {
    /// Data of a span, or of a transaction while it is unfinished.
    Data { key: Text, value: Value },
    /// A tag of a span, or of a transaction while it is unfinished.
    Tag { key: Text, value: Text },
    /// Extra data of a transaction while it is unfinished. A span has none.
    Extra { key: Text, value: Value },
    Status(SpanStatus),
    /// The operation.
    Op(Text),
    /// The name of a transaction while it is unfinished, and the description of a span.
    Name(Text),
    /// The request of a transaction while it is unfinished, and the data that a span has of it.
    Request(Request),
    /// What created the transaction. A span has no origin.
    Origin(Text),
}
