//! Contexts of transactions, where no command makes the call.
use sentry_base::protocol::{SpanId, TraceId};
use sentry_plain::{Text, Value};
use sentry_trace::headers::{SentryTrace, TracePropagationContext, parse_headers};
use sentry_trace::performance::TransactionContext;
use std::alloc::{AllocError, Global};
use std::test::Fail;

const TRACE_ID: TraceId = TraceId([1; 16]);

const SPAN_ID: SpanId = SpanId([2; 8]);

const PARENT: SpanId = SpanId([3; 8]);

/// The ids of a context, if it was made: those of its trace, of its parent and of its span.
fn ids(made: Result<TransactionContext, AllocError>) -> Option<(TraceId, Option<SpanId>, SpanId)> {
    match made {
        Ok(context) => Some((
            context.trace_id(),
            context.parent_span_id,
            context.span_id(),
        )),
        Err(_) => None,
    }
}

#[test]
fn contexts_have_the_ids_that_they_are_handed(rt: HostRuntime) -> Result<(), Fail> {
    let alloc = rt.alloc();
    let root = ids(TransactionContext::new_with_trace_id(alloc, "sell", "till", TRACE_ID, SPAN_ID));
    let parent = Some(PARENT);
    let child = ids(TransactionContext::new_with_details(
        alloc, "sell", "till", TRACE_ID, SPAN_ID, parent,
    ));
    let trace = SentryTrace::new(TRACE_ID, PARENT, Some(true));
    let continued = ids(TransactionContext::continue_from_sentry_trace(
        alloc, "sell", "till", &trace, SPAN_ID,
    ));
    assert!(rt; root == Some((TRACE_ID, None, SPAN_ID)));
    assert!(rt; child == Some((TRACE_ID, parent, SPAN_ID)));
    assert!(rt; continued == Some((TRACE_ID, parent, SPAN_ID)));
    Ok(())
}

/// A trace that isn't sampled, as its header has it.
const PRINTED: &str = "01010101010101010101010101010101-0202020202020202-0";

#[test]
fn a_printed_trace_is_read_back(rt: HostRuntime) -> Result<(), Fail> {
    let context = TracePropagationContext::new(TRACE_ID, SPAN_ID).with_sampled(false);
    let header = context.sentry_trace_header(rt.alloc())?;
    assert!(rt; header.as_str() == PRINTED);
    let read = parse_headers([("Sentry-Trace", PRINTED)]);
    assert!(rt; read == Some(SentryTrace::new(TRACE_ID, SPAN_ID, Some(false))));
    Ok(())
}

/// A context that is made of other parts than it begins with.
fn rebuilt(alloc: Global) -> Result<TransactionContext, AllocError> {
    let builder = TransactionContext::builder(alloc, "sell", "till", TRACE_ID, SPAN_ID)?
        .with_name(Text::new(alloc, "buy")?)
        .with_op(Text::new(alloc, "shop")?)
        .with_trace_id(TraceId([4; 16]))
        .with_parent_span_id(Some(PARENT))
        .with_span_id(SpanId([5; 8]))
        .with_sampled(Some(false));
    Ok(builder.finish())
}

#[test]
fn a_builder_sets_each_part(rt: HostRuntime) -> Result<(), Fail> {
    let context = rebuilt(rt.alloc())?;
    assert!(rt; context.name() == "buy" && context.operation() == "shop");
    assert!(rt; context.sampled() == Some(false));
    let ids = ids(Ok(context));
    assert!(rt; ids == Some((TraceId([4; 16]), Some(PARENT), SpanId([5; 8]))));
    Ok(())
}

/// A context of which the sampler is told a weight of 1.
fn weighed(alloc: Global) -> Result<TransactionContext, AllocError> {
    let builder = TransactionContext::builder(alloc, "sell", "till", TRACE_ID, SPAN_ID)?;
    let builder = builder.with_custom(alloc, Text::new(alloc, "weight")?, Value::Int(1))?;
    Ok(builder.finish())
}

/// Whether the clone of a context tells the sampler a weight of 2.
fn is_clone_weighed(context: &TransactionContext) -> Result<bool, AllocError> {
    let copy = context.clone()?;
    match copy.custom() {
        Some(custom) => Ok(custom.get("weight") == Some(&Value::Int(2))),
        None => Ok(false),
    }
}

#[test]
fn a_sampler_is_told_of_values(rt: HostRuntime) -> Result<(), Fail> {
    let alloc = rt.alloc();
    let mut context = weighed(alloc)?;
    let key = Text::new(alloc, "weight")?;
    let before = context.custom_insert(alloc, key, Value::Int(2))?;
    let is_told = is_clone_weighed(&context)?;
    *context.custom_mut() = None;
    assert!(rt; is_told && before == Some(Value::Int(1)) && context.custom().is_none());
    Ok(())
}
