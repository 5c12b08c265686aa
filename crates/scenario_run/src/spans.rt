//! What is done with transactions and spans once they have started, and how spans are.
use crate::answer::Answer;
use crate::caller::Caller;
use crate::copies::Copies;
use crate::fault::Failure;
use crate::scenario::{Scenario, TAG, hub_key};
use scenario_commands::spans::{Child, ChildDetails, Question, SpanCommand, SpanName};
use sentry_base::protocol::{SpanId, SpanKey, TransactionKey, TransactionOrSpanKey};
use sentry_engine::call::SpanCall;

/// The key of the transaction of this number.
pub fn transaction_key(number: u64) -> TransactionKey {
    TransactionKey { tag: TAG, number }
}

fn key_of_span(number: u64) -> SpanKey {
    SpanKey { tag: TAG, number }
}

/// The key of a transaction or a span that a line names.
pub fn span_key(span: SpanName) -> TransactionOrSpanKey {
    match span {
        SpanName::Transaction(number) => {
            TransactionOrSpanKey::Transaction(transaction_key(number))
        }
        SpanName::Span(number) => TransactionOrSpanKey::Span(key_of_span(number)),
    }
}

// The call that asks a question of a transaction or a span.
fn call_of(question: Question, span: TransactionOrSpanKey) -> SpanCall {
    match question {
        Question::TraceContext => SpanCall::GetTraceContext(span),
        Question::IsSampled => SpanCall::IsSampled(span),
        Question::Headers => SpanCall::IterHeaders(span),
        Question::Status => SpanCall::GetStatus(span),
        Question::Data => SpanCall::Data(span),
    }
}

impl<E: Caller> Scenario<E> {
    /// Does a command on transactions and spans.
    pub fn perform_on_span<'a>(
        &mut self,
        command: &SpanCommand<'_>,
    ) -> Result<Answer<'a>, Failure> {
        match command {
            SpanCommand::StartChild(child) => self.start_child(child),
            SpanCommand::Finish { span, hub } => self.finish(*span, *hub),
            SpanCommand::Discard(span) => self.call_span(SpanCall::Discard(span_key(*span))),
            SpanCommand::Ask(question, span) => {
                let span = span_key(*span);
                self.ask_of_span(span, call_of(*question, span))
            }
            SpanCommand::SpanId(number) => {
                let key = key_of_span(*number);
                self.ask_of_span(TransactionOrSpanKey::Span(key), SpanCall::GetSpanId(key))
            }
        }
    }

    fn start_child<'a>(&mut self, child: &Child<'_>) -> Result<Answer<'a>, Failure> {
        let Child {
            parent,
            op,
            details,
            description,
        } = *child;
        let parent = span_key(parent);
        let mut copies = Copies::new(self.alloc);
        let op = copies.text(op);
        let description = copies.text(description);
        let fresh = self.fresh();
        let call = match details {
            None => SpanCall::StartChild {
                parent,
                op,
                description,
                fresh,
            },
            Some(ChildDetails { span_id, start }) => SpanCall::StartChildWithDetails {
                parent,
                op,
                description,
                id: SpanId(span_id.to_be_bytes()),
                start,
            },
        };
        let call = copies.finish(call)?;
        self.call_span(call)
    }

    // A transaction finishes under the top scope of the hub.
    fn finish<'a>(&mut self, span: SpanName, hub: u64) -> Result<Answer<'a>, Failure> {
        let moment = self.moment();
        let call = match span {
            SpanName::Transaction(number) => SpanCall::FinishTransaction {
                transaction: transaction_key(number),
                hub: hub_key(hub),
                moment,
            },
            SpanName::Span(number) => SpanCall::FinishSpan {
                span: key_of_span(number),
                moment,
            },
        };
        self.call_span(call)
    }
}
