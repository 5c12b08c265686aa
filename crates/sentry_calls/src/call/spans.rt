//! The calls on transactions and spans, their replies, and one call of a state.
ghost use Rattle.std.specs.Prelude.{◌≡◌};
ghost use Rattle.sentry_calls.specs.SpanCalls.{span_step, needs};
ghost use Rattle.sentry_calls.specs.Replies.{IsMapped, map_answer};
ghost use Rattle.sentry_calls.specs.declared.call.spans.records.SpanReply.TheVariants as reply;
ghost use Rattle.sentry_span_edits.specs.Setters.{set_request};
ghost use Rattle.sentry_spans.specs.Spans.{start_transaction, start_transaction_with_timestamp};
ghost use Rattle.sentry_state.specs.Outcomes.{Does, DoesWith};

mod records;

pub use records::{SpanCall, SpanReply};
use sentry_base::protocol::{
    Fresh, HubKey, Refusal, Request, TransactionKey, TransactionOrSpanKey,
};
use sentry_options::Callbacks;
use sentry_plain::Boxed;
use sentry_span_edits::edit::SpanEdit;
use sentry_span_edits::reads::{
    data, get_span_id, get_status, get_trace_context, is_sampled, iter_headers,
};
use sentry_span_edits::setters::change;
use sentry_spans::discards::discard;
use sentry_spans::finishes::{finish_span, finish_transaction};
use sentry_spans::starts::{
    continue_from_span, start_child, start_child_with_details, start_transaction,
    start_transaction_with_timestamp,
};
use sentry_state::{Out, State};
use sentry_trace::performance::TransactionContext;

// The answer with its reply put into the one type of replies.
fn answer_of<T, F: FnOnce(T) -> SpanReply>(
    answer: Result<Out<T>, Refusal>,
    reply: F,
) -> Result<Out<SpanReply>, Refusal>
    requires { F.IsAlwaysCallable reply }
    ensures { IsMapped (F.post reply) answer result }
{
    let Out { reply: value, sent } = answer?;
    Ok(Out {
        reply: reply(value),
        sent,
    })
}

// The answer of a call that replies nothing.
fn done(answer: Result<Out<()>, Refusal>) -> Result<Out<SpanReply>, Refusal>
    ensures { result ≡ map_answer (λ _. reply.Done) answer }
{
    let Out { reply: _, sent } = answer?;
    Ok(Out {
        reply: SpanReply::Done,
        sent,
    })
}

// The same as `start_transaction`, of a context in a box.
fn start_boxed_transaction<P: Drop, C: Callbacks>(
    state: &mut State<P, C>,
    hub: HubKey,
    context: Boxed<TransactionContext>,
    fresh: Fresh,
) -> Result<Out<TransactionKey>, Refusal>
    ensures { Does state.old state.new result (start_transaction C.meanings hub context fresh) }
{
    let mut context = context.into_inner();
    start_transaction(state, hub, &mut context, fresh)
}

// The same as `start_transaction_with_timestamp`, of a context in a box.
fn start_boxed_transaction_at<P: Drop, C: Callbacks>(
    state: &mut State<P, C>,
    hub: HubKey,
    context: Boxed<TransactionContext>,
    start: u64,
    fresh: Fresh,
) -> Result<Out<TransactionKey>, Refusal>
    ensures { Does state.old state.new result
        (start_transaction_with_timestamp C.meanings hub context start fresh) }
{
    let mut context = context.into_inner();
    start_transaction_with_timestamp(state, hub, &mut context, start, fresh)
}

// The same as `set_request`, of a request in a box.
fn set_boxed_request<P: Drop, C: Callbacks>(
    state: &mut State<P, C>,
    span: TransactionOrSpanKey,
    request: Boxed<Request>,
) -> Result<Out<()>, Refusal>
    ensures { Does state.old state.new result (set_request span request) }
{
    change(state, span, SpanEdit::Request(request.into_inner()))
}

/// Makes one call, by the function of its name.
#[tactic(auto, unfolding(crate::specs::SpanCalls::span_step))]
pub fn apply_span_call<P: Drop, C: Callbacks>(
    state: &mut State<P, C>,
    call: SpanCall,
) -> Result<Out<SpanReply>, Refusal>
    ensures { DoesWith (needs call) state.old state.new result (span_step C.meanings call) }
{
    match call {
        SpanCall::StartTransaction {
            hub,
            context,
            fresh,
        } => answer_of(
            start_boxed_transaction(state, hub, context, fresh),
            SpanReply::Transaction,
        ),
        SpanCall::StartTransactionWithTimestamp {
            hub,
            context,
            start,
            fresh,
        } => answer_of(
            start_boxed_transaction_at(state, hub, context, start, fresh),
            SpanReply::Transaction,
        ),
        SpanCall::StartChild {
            parent,
            op,
            description,
            fresh,
        } => answer_of(
            start_child(state, parent, op.as_str(), description.as_str(), fresh),
            SpanReply::Span,
        ),
        SpanCall::StartChildWithDetails {
            parent,
            op,
            description,
            id,
            start,
        } => answer_of(
            start_child_with_details(state, parent, op.as_str(), description.as_str(), id, start),
            SpanReply::Span,
        ),
        SpanCall::ContinueFromSpan {
            name,
            op,
            span,
            fresh,
        } => answer_of(
            continue_from_span(state, name.as_str(), op.as_str(), span, fresh),
            SpanReply::Context,
        ),
        SpanCall::SetData { span, key, value } => {
            done(change(state, span, SpanEdit::Data { key, value }))
        }
        SpanCall::SetTag { span, key, value } => {
            done(change(state, span, SpanEdit::Tag { key, value }))
        }
        SpanCall::SetExtra {
            transaction,
            key,
            value,
        } => done(change(
            state,
            TransactionOrSpanKey::Transaction(transaction),
            SpanEdit::Extra { key, value },
        )),
        SpanCall::SetStatus { span, status } => done(change(state, span, SpanEdit::Status(status))),
        SpanCall::SetOp { span, op } => done(change(state, span, SpanEdit::Op(op))),
        SpanCall::SetName { span, name } => done(change(state, span, SpanEdit::Name(name))),
        SpanCall::SetRequest { span, request } => done(set_boxed_request(state, span, request)),
        SpanCall::SetOrigin {
            transaction,
            origin,
        } => done(change(
            state,
            TransactionOrSpanKey::Transaction(transaction),
            SpanEdit::Origin(origin),
        )),
        SpanCall::GetStatus(span) => answer_of(get_status(state, span), SpanReply::Status),
        SpanCall::GetTraceContext(span) => {
            answer_of(get_trace_context(state, span), SpanReply::TraceContext)
        }
        SpanCall::GetSpanId(span) => answer_of(get_span_id(state, span), SpanReply::SpanId),
        SpanCall::Data(span) => answer_of(data(state, span), SpanReply::Data),
        SpanCall::IterHeaders(span) => answer_of(iter_headers(state, span), SpanReply::Headers),
        SpanCall::IsSampled(span) => answer_of(is_sampled(state, span), SpanReply::Decision),
        SpanCall::FinishTransaction {
            transaction,
            hub,
            moment,
        } => done(finish_transaction(state, transaction, hub, moment)),
        SpanCall::FinishSpan { span, moment } => done(finish_span(state, span, moment)),
        SpanCall::Discard(span) => done(discard(state, span)),
    }
}
