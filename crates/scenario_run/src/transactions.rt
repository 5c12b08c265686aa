//! How transactions are started.
use crate::answer::Answer;
use crate::caller::Caller;
use crate::copies::Copies;
use crate::fault::Failure;
use crate::scenario::{Scenario, hub_key};
use crate::spans::span_key;
use scenario_commands::spans::SpanName;
use scenario_commands::transactions::{Origin, TransactionCommand};
use sentry_base::protocol::Fresh;
use sentry_engine::call::{SpanCall, SpanReply};
use sentry_plain::{Boxed, Items};
use sentry_trace::performance::TransactionContext;
use std::alloc::AllocError;

impl<E: Caller> Scenario<E> {
    /// Starts the transaction that a line asks for.
    pub fn start_transaction<'a>(
        &mut self,
        command: &TransactionCommand<'_>,
    ) -> Result<Answer<'a>, Failure> {
        let TransactionCommand {
            hub,
            name,
            op,
            origin,
        } = *command;
        match origin {
            Origin::NewTrace => self.start_new_trace(hub, name, op, None),
            Origin::Decision(decision) => self.start_new_trace(hub, name, op, decision),
            Origin::Moment(moment) => self.start_at(hub, name, op, moment),
            Origin::Span(span) => {
                let context = self.continue_from_span(name, op, span)?;
                self.start(hub, context)
            }
            Origin::Headers => self.continue_from_headers(hub, name, op),
        }
    }

    fn start<'a>(&mut self, hub: u64, context: TransactionContext) -> Result<Answer<'a>, Failure> {
        let fresh = self.fresh();
        let context = Boxed::new(self.alloc, context)?;
        self.call_span(SpanCall::StartTransaction {
            hub: hub_key(hub),
            context,
            fresh,
        })
    }

    // A context that goes on with the trace of a transaction or a span, or with none.
    fn continue_from_span(
        &mut self,
        name: &str,
        op: &str,
        span: Option<SpanName>,
    ) -> Result<TransactionContext, Failure> {
        let fresh = self.fresh();
        let mut copies = Copies::new(self.alloc);
        let name = copies.text(name);
        let op = copies.text(op);
        let span = span.map(span_key);
        let call = copies.finish(SpanCall::ContinueFromSpan {
            name,
            op,
            span,
            fresh,
        })?;
        match self.ask_span(call)? {
            SpanReply::Context(context) => Ok(context),
            _other => Err(Failure::OtherReply),
        }
    }

    fn start_new_trace<'a>(
        &mut self,
        hub: u64,
        name: &str,
        op: &str,
        decision: Option<bool>,
    ) -> Result<Answer<'a>, Failure> {
        let mut context = self.new_trace(name, op)?;
        context.set_sampled(decision);
        self.start(hub, context)
    }

    fn start_at<'a>(
        &mut self,
        hub: u64,
        name: &str,
        op: &str,
        moment: u64,
    ) -> Result<Answer<'a>, Failure> {
        let context = self.new_trace(name, op)?;
        let context = Boxed::new(self.alloc, context)?;
        let fresh = self.fresh();
        self.call_span(SpanCall::StartTransactionWithTimestamp {
            hub: hub_key(hub),
            context,
            start: moment,
            fresh,
        })
    }

    // The headers are forgotten once the transaction has started, so that what is refused has changed nothing.
    fn continue_from_headers<'a>(
        &mut self,
        hub: u64,
        name: &str,
        op: &str,
    ) -> Result<Answer<'a>, Failure> {
        let Fresh {
            trace_id,
            span_id,
            ..
        } = self.fresh();
        let headers = self.headers.as_slice().iter();
        let context = TransactionContext::continue_from_headers(
            self.alloc,
            name,
            op,
            headers.map(|header| (header.name.as_str(), header.value.as_str())),
            trace_id,
            span_id,
        )?;
        let answer = self.start(hub, context)?;
        self.headers = Items::new(self.alloc);
        Ok(answer)
    }
}

impl<E> Scenario<E> {
    // A context of a trace of the line's own.
    fn new_trace(&self, name: &str, op: &str) -> Result<TransactionContext, AllocError> {
        let Fresh {
            trace_id,
            span_id,
            ..
        } = self.fresh();
        TransactionContext::new(self.alloc, name, op, trace_id, span_id)
    }
}
