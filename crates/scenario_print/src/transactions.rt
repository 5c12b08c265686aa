//! Transactions, their spans and their requests, and the names of both.
use crate::Shown;
use crate::contexts::CONTEXTS;
use crate::lists::{PLAIN, push_labeled, push_list, push_map};
use sentry_base::protocol::{Request, Span, Transaction, TransactionOrSpanKey};
use std::alloc::AllocError;

impl Shown for Transaction {
    fn push_to(&self, text: &mut String) -> Result<(), AllocError> {
        let id = self.event_id.simple();
        write!(text, "transaction {id} ")?;
        push_map(text, &self.tags, PLAIN)?;
        let count = self.spans.len();
        write!(text, " spans={count}")?;
        push_labeled(text, " ", &self.name)?;
        push_labeled(text, " {start=", &self.start_timestamp)?;
        push_names(text, self)?;
        push_details(text, self)?;
        text.push_str("}")
    }
}

fn push_names(text: &mut String, transaction: &Transaction) -> Result<(), AllocError> {
    push_labeled(text, " platform=", &transaction.platform)?;
    push_labeled(text, " release=", &transaction.release)?;
    push_labeled(text, " environment=", &transaction.environment)?;
    push_labeled(text, " server=", &transaction.server_name)
}

fn push_details(text: &mut String, transaction: &Transaction) -> Result<(), AllocError> {
    push_labeled(text, " user=", &transaction.user)?;
    push_labeled(text, " extra=", &transaction.extra)?;
    text.push_str(" contexts=")?;
    push_map(text, &transaction.contexts, CONTEXTS)?;
    push_labeled(text, " request=", &transaction.request)?;
    push_labeled(text, " end=", &transaction.timestamp)?;
    push_list(text, " spans=", &transaction.spans, ";")
}

impl Shown for Span {
    fn push_to(&self, text: &mut String) -> Result<(), AllocError> {
        self.trace_id.push_to(text)?;
        push_labeled(text, "/", &self.span_id)?;
        push_labeled(text, "/", &self.parent_span_id)?;
        push_labeled(text, "/op=", &self.op)?;
        push_labeled(text, "/description=", &self.description)?;
        push_labeled(text, "/status=", &self.status)?;
        text.push_str("/tags=")?;
        push_map(text, &self.tags, PLAIN)?;
        push_labeled(text, "/data=", &self.data_)?;
        push_labeled(text, "/start=", &self.start_timestamp)?;
        push_labeled(text, "/end=", &self.timestamp)
    }
}

/// A request is told by its method, its URL and its body.
impl Shown for Request {
    fn push_to(&self, text: &mut String) -> Result<(), AllocError> {
        self.method.push_to(text)?;
        push_labeled(text, " ", &self.url)?;
        push_labeled(text, " ", &self.data_)
    }
}

/// `t` and the number of a transaction, or `s` and the number of a span.
impl Shown for TransactionOrSpanKey {
    fn push_to(&self, text: &mut String) -> Result<(), AllocError> {
        match self {
            TransactionOrSpanKey::Transaction(key) => push_labeled(text, "t", &key.number),
            TransactionOrSpanKey::Span(key) => push_labeled(text, "s", &key.number),
        }
    }
}
