//! How transactions and spans are changed.
use crate::answer::Answer;
use crate::caller::Caller;
use crate::copies::Copies;
use crate::fault::Failure;
use crate::scenario::Scenario;
use crate::spans::{span_key, transaction_key};
use scenario_commands::scopes::Entry;
use scenario_commands::span_edits::{RequestWords, SpanEdit, SpanEditCommand, TransactionEdit};
use sentry_base::protocol::{Request, TransactionKey, TransactionOrSpanKey};
use sentry_engine::call::SpanCall;
use sentry_plain::{Boxed, TextMap};
use std::alloc::{AllocError, Global};

/// A request with this method, this URL and this body.
fn request(alloc: Global, copies: &mut Copies, words: RequestWords<'_>) -> Request {
    Request {
        method: Some(copies.text(words.method)),
        url: Some(copies.text(words.url)),
        data_: Some(copies.text(words.body)),
        query_string: None,
        cookies: None,
        headers: TextMap::new(alloc),
        env: TextMap::new(alloc),
    }
}

// The call of an edit of a transaction or a span.
fn edit_of_span(
    alloc: Global,
    copies: &mut Copies,
    span: TransactionOrSpanKey,
    edit: SpanEdit<'_>,
) -> Result<SpanCall, AllocError> {
    match edit {
        SpanEdit::SetTag(Entry { key, value }) => Ok(SpanCall::SetTag {
            span,
            key: copies.text(key),
            value: copies.text(value),
        }),
        SpanEdit::SetData(Entry { key, value }) => Ok(SpanCall::SetData {
            span,
            key: copies.text(key),
            value: copies.value(value),
        }),
        SpanEdit::SetName(name) => Ok(SpanCall::SetName {
            span,
            name: copies.text(name),
        }),
        SpanEdit::SetOp(op) => Ok(SpanCall::SetOp {
            span,
            op: copies.text(op),
        }),
        SpanEdit::SetStatus(status) => Ok(SpanCall::SetStatus { span, status }),
        SpanEdit::SetRequest(words) => Ok(SpanCall::SetRequest {
            span,
            request: Boxed::new(alloc, request(alloc, copies, words))?,
        }),
    }
}

// The call of an edit of a transaction alone.
fn edit_of_transaction(
    copies: &mut Copies,
    transaction: TransactionKey,
    edit: TransactionEdit<'_>,
) -> SpanCall {
    match edit {
        TransactionEdit::SetExtra(Entry { key, value }) => SpanCall::SetExtra {
            transaction,
            key: copies.text(key),
            value: copies.value(value),
        },
        TransactionEdit::SetOrigin(origin) => SpanCall::SetOrigin {
            transaction,
            origin: copies.text(origin),
        },
    }
}

impl<E: Caller> Scenario<E> {
    /// Changes a transaction or a span.
    pub fn edit_span<'a>(&mut self, command: &SpanEditCommand<'_>) -> Result<Answer<'a>, Failure> {
        let mut copies = Copies::new(self.alloc);
        let call = match command {
            SpanEditCommand::Span { span, edit } => {
                edit_of_span(self.alloc, &mut copies, span_key(*span), *edit)?
            }
            SpanEditCommand::Transaction { transaction, edit } => {
                edit_of_transaction(&mut copies, transaction_key(*transaction), *edit)
            }
        };
        let call = copies.finish(call)?;
        self.call_span(call)
    }
}
