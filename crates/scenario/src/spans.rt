//! Calls on transactions and spans.
use crate::locked::{Locked, SpanCalls};
use crate::threads::thread_of;
use sentry_base::protocol::{
    Fresh, Refusal, Request, SpanId, SpanKey, SpanStatus, TraceContext, TransactionKey,
    TransactionOrSpanKey, Value,
};
use sentry_engine::call::{Call, Reply, SpanCall, SpanReply};
use sentry_hub::Hub;
use sentry_hub::performance::{Span, Transaction, TransactionOrSpan};
use sentry_lock::CoreLock;
use sentry_plain::{Text, ValueMap};
use sentry_trace::headers::TraceHeadersIter;
use std::alloc::{AllocError, Global};
use std::collections::btree_map::Iter;

// Makes one call on a transaction or a span by its own type, or by the one that is either. The call has the same name
// and arguments for all three types.
macro_rules! call {
    ($lock:expr, $span:expr, $value:ident => $call:expr) => {{
        let lock = $lock;
        match (lock.span_calls, $span) {
            (SpanCalls::Either, span) => {
                let $value = TransactionOrSpan::new(&lock.core, span)?;
                $call
            }
            (_, TransactionOrSpanKey::Transaction(key)) => {
                let $value = Transaction::new(&lock.core, key)?;
                $call
            }
            (_, TransactionOrSpanKey::Span(key)) => {
                let $value = Span::new(&lock.core, key)?;
                $call
            }
        }
    }};
}

impl<L: CoreLock> Locked<L> {
    /// Makes a call that starts a transaction, or one on a transaction or a span.
    pub(crate) fn call_span(&self, call: SpanCall) -> Result<SpanReply, Refusal> {
        match call {
            SpanCall::StartTransaction {
                hub,
                context,
                fresh,
            } => {
                let hub = self.hub(hub)?;
                let started = hub.start_transaction(context.into_inner(), fresh)?;
                Ok(SpanReply::Transaction(started.key()))
            }
            SpanCall::StartTransactionWithTimestamp {
                hub,
                context,
                start,
                fresh,
            } => {
                let hub = self.hub(hub)?;
                let context = context.into_inner();
                let started = hub.start_transaction_with_timestamp(context, start, fresh)?;
                Ok(SpanReply::Transaction(started.key()))
            }
            call => self.change_spans(call),
        }
    }

    // A call that starts or ends a span, or ends a transaction.
    fn change_spans(&self, call: SpanCall) -> Result<SpanReply, Refusal> {
        match call {
            SpanCall::StartChild {
                parent,
                op,
                description,
                fresh,
            } => self.start_child(parent, &op, &description, fresh),
            SpanCall::StartChildWithDetails {
                parent,
                op,
                description,
                id,
                start,
            } => self.start_child_with_details(parent, &op, &description, id, start),
            SpanCall::FinishTransaction {
                transaction,
                hub,
                moment,
            } => {
                let span = TransactionOrSpanKey::Transaction(transaction);
                self.finish(span, self.hub(hub)?, moment)
            }
            SpanCall::FinishSpan { span, moment } => self.finish_span(span, moment),
            SpanCall::Discard(span) => self.discard(span),
            call => self.edit_span(call),
        }
    }

    fn start_child(
        &self,
        parent: TransactionOrSpanKey,
        op: &Text,
        description: &Text,
        fresh: Fresh,
    ) -> Result<SpanReply, Refusal> {
        let (op, description) = (op.as_str(), description.as_str());
        let child = call!(
            self, parent,
            value => value.start_child(op, description, fresh)
        )?;
        Ok(SpanReply::Span(child.key()))
    }

    fn start_child_with_details(
        &self,
        parent: TransactionOrSpanKey,
        op: &Text,
        description: &Text,
        id: SpanId,
        start: u64,
    ) -> Result<SpanReply, Refusal> {
        let (op, description) = (op.as_str(), description.as_str());
        let child = call!(
            self, parent,
            value => value.start_child_with_details(op, description, id, start)
        )?;
        Ok(SpanReply::Span(child.key()))
    }

    fn finish(
        &self,
        span: TransactionOrSpanKey,
        hub: &Hub<L>,
        moment: u64,
    ) -> Result<SpanReply, Refusal> {
        let mut thread = thread_of(hub, moment)?;
        call!(self, span, value => value.finish(&mut thread))?;
        Ok(SpanReply::Done)
    }

    // A span asks for no hub, so that any will do: there is one, since a transaction has started.
    fn finish_span(&self, span: SpanKey, moment: u64) -> Result<SpanReply, Refusal> {
        match self.hubs.first() {
            Some(hub) => self.finish(TransactionOrSpanKey::Span(span), hub, moment),
            None => Err(Refusal::Stale),
        }
    }

    fn discard(&self, span: TransactionOrSpanKey) -> Result<SpanReply, Refusal> {
        call!(self, span, value => value.discard())?;
        Ok(SpanReply::Done)
    }

    // A call of a setter that transactions and spans have.
    fn edit_span(&self, call: SpanCall) -> Result<SpanReply, Refusal> {
        match call {
            SpanCall::SetData { span, key, value } => self.set_data(span, &key, value)?,
            SpanCall::SetTag { span, key, value } => self.set_tag(span, &key, &value)?,
            SpanCall::SetStatus { span, status } => self.set_status(span, status)?,
            SpanCall::SetOp { span, op } => self.set_op(span, &op)?,
            SpanCall::SetName { span, name } => self.set_name(span, &name)?,
            SpanCall::SetRequest { span, request } => {
                self.set_request(span, request.into_inner())?
            }
            call => return self.edit_transaction(call),
        }
        Ok(SpanReply::Done)
    }

    fn set_data(&self, span: TransactionOrSpanKey, key: &Text, data: Value) -> Result<(), Refusal> {
        match self.span_calls {
            SpanCalls::Lent => self.set_lent_data(span, key, data),
            _other => { call!(self, span, value => value.set_data(key.as_str(), data)) }
        }
    }

    fn set_lent_data(
        &self,
        span: TransactionOrSpanKey,
        key: &Text,
        data: Value,
    ) -> Result<(), Refusal> {
        let key = key.as_str();
        let either = TransactionOrSpan::new(&self.core, span)?;
        either.data(|lent| lent.set_data(key, data))
    }

    fn set_tag(&self, span: TransactionOrSpanKey, key: &Text, tag: &Text) -> Result<(), Refusal> {
        match self.span_calls {
            SpanCalls::Lent => self.set_lent_tag(span, key, tag),
            _other => {
                let (key, tag) = (key.as_str(), tag.as_str());
                call!(self, span, value => value.set_tag(key, tag))
            }
        }
    }

    fn set_lent_tag(
        &self,
        span: TransactionOrSpanKey,
        key: &Text,
        tag: &Text,
    ) -> Result<(), Refusal> {
        let (key, tag) = (key.as_str(), tag.as_str());
        let either = TransactionOrSpan::new(&self.core, span)?;
        either.data(|lent| lent.set_tag(key, tag))
    }

    fn set_status(&self, span: TransactionOrSpanKey, status: SpanStatus) -> Result<(), Refusal> {
        call!(self, span, value => value.set_status(status))
    }

    fn set_op(&self, span: TransactionOrSpanKey, op: &Text) -> Result<(), Refusal> {
        call!(self, span, value => value.set_op(op.as_str()))
    }

    fn set_name(&self, span: TransactionOrSpanKey, name: &Text) -> Result<(), Refusal> {
        call!(self, span, value => value.set_name(name.as_str()))
    }

    fn set_request(&self, span: TransactionOrSpanKey, request: Request) -> Result<(), Refusal> {
        call!(self, span, value => value.set_request(request))
    }

    // A call of a setter that transactions alone have.
    fn edit_transaction(&self, call: SpanCall) -> Result<SpanReply, Refusal> {
        match call {
            SpanCall::SetExtra {
                transaction,
                key,
                value,
            } => {
                let transaction = self.transaction(transaction)?;
                transaction.set_extra(key.as_str(), value)?;
                Ok(SpanReply::Done)
            }
            SpanCall::SetOrigin {
                transaction,
                origin,
            } => {
                let transaction = self.transaction(transaction)?;
                transaction.set_origin(origin.as_str())?;
                Ok(SpanReply::Done)
            }
            call => self.ask_span(call),
        }
    }

    fn transaction(&self, key: TransactionKey) -> Result<Transaction<L>, Refusal> {
        Ok(Transaction::new(&self.core, key)?)
    }

    // A call that changes nothing.
    fn ask_span(&self, call: SpanCall) -> Result<SpanReply, Refusal> {
        match call {
            SpanCall::GetStatus(span) => Ok(SpanReply::Status(self.get_status(span)?)),
            SpanCall::GetTraceContext(span) => {
                Ok(SpanReply::TraceContext(self.get_trace_context(span)?))
            }
            SpanCall::GetSpanId(span) => Ok(SpanReply::SpanId(self.get_span_id(span)?)),
            SpanCall::Data(span) => Ok(SpanReply::Data(self.data(span)?)),
            SpanCall::IterHeaders(span) => Ok(SpanReply::Headers(self.iter_headers(span)?)),
            SpanCall::IsSampled(span) => Ok(SpanReply::Decision(self.is_sampled(span)?)),
            call => self.call_as_value(call),
        }
    }

    fn get_status(&self, span: TransactionOrSpanKey) -> Result<Option<SpanStatus>, Refusal> {
        call!(self, span, value => value.get_status())
    }

    fn get_trace_context(&self, span: TransactionOrSpanKey) -> Result<TraceContext, Refusal> {
        call!(self, span, value => value.get_trace_context())
    }

    fn get_span_id(&self, key: SpanKey) -> Result<SpanId, Refusal> {
        Span::new(&self.core, key)?.get_span_id()
    }

    fn data(&self, span: TransactionOrSpanKey) -> Result<ValueMap, Refusal> {
        let alloc = self.alloc;
        call!(self, span, value => value.data(|lent| copy_entries(alloc, lent.iter())))
    }

    /// The headers that pass on the trace of a transaction or a span.
    pub(crate) fn iter_headers(
        &self,
        span: TransactionOrSpanKey,
    ) -> Result<TraceHeadersIter, Refusal> {
        call!(self, span, value => value.iter_headers())
    }

    fn is_sampled(&self, span: TransactionOrSpanKey) -> Result<bool, Refusal> {
        call!(self, span, value => value.is_sampled())
    }

    // The call that continues a trace: no value has it.
    fn call_as_value(&self, call: SpanCall) -> Result<SpanReply, Refusal> {
        match self.core.call(Call::Span(call))? {
            Reply::Span(reply) => Ok(reply),
            // No call on spans replies otherwise.
            _other => Err(Refusal::Stale),
        }
    }
}

// A map of these entries.
fn copy_entries(alloc: Global, entries: Iter<'_, String, Value>) -> Result<ValueMap, AllocError> {
    let mut map = ValueMap::new(alloc);
    for (key, value) in entries {
        map.insert(Text::new(alloc, key.as_str())?, value.clone()?)?;
    }
    Ok(map)
}
