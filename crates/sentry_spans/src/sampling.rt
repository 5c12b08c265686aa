//! Which incoming traces are continued, and which traces are sampled.
ghost use Rattle.std.specs.Prelude.{◌≡◌, ◌≤◌, IfOk, min};
ghost use Rattle.sentry_spans.specs.Sampling.{continues, own_organization, continues_incoming, accepted_context, rate_after, traces_rate, tracing_at, tracing_of};

use sentry_base::protocol::{Draw, OrganizationId, SampleRate, TraceId};
use sentry_options::{Callbacks, ClientOptions, PlainOptions, TracesSamplingStrategy};
use sentry_span_table::TracingState;
use sentry_trace::performance::{IncomingTrace, TransactionContext};
use std::alloc::AllocError;

// Whether an incoming trace of an organization is continued.
fn continues(incoming: Option<OrganizationId>, own: Option<OrganizationId>, strict: bool) -> bool
    ensures { result ≡ continues incoming own strict }
{
    match (incoming, own) {
        (Some(incoming), Some(own)) => incoming.0 == own.0,
        (Some(_), None) => !strict,
        (None, Some(_)) => !strict,
        (None, None) => true,
    }
}

// The organization of a client: that of its options, or else of its DSN.
fn own_organization(options: &PlainOptions) -> Option<OrganizationId>
    ensures { result ≡ own_organization options.now }
{
    if options.org_id.is_some() {
        return options.org_id;
    }
    match &options.dsn {
        None => None,
        Some(dsn) => dsn.org_id(),
    }
}

// Whether an incoming trace, if there is one, is continued.
fn continues_incoming(options: &PlainOptions, incoming: Option<IncomingTrace>) -> bool
    ensures { result ≡ continues_incoming options.now incoming }
{
    match incoming {
        None => true,
        Some(incoming) => continues(
            incoming.org_id,
            own_organization(options),
            options.strict_trace_continuation,
        ),
    }
}

/// Rejects the incoming trace of a context, if the client doesn't continue it: the context starts a trace of this id
/// then.
pub fn accept_context(options: &PlainOptions, trace_id: TraceId, context: &mut TransactionContext)
    ensures { context.new ≡ accepted_context options.now trace_id context.old }
{
    if continues_incoming(options, context.incoming_trace) {
        return;
    }
    context.reject_incoming_trace(trace_id);
}

// A rate of so many millionths.
fn rate_at(millionths: u32) -> SampleRate
    requires { millionths ≤ 1000000 }
    ensures { result ≡ millionths }
{
    match SampleRate::new(millionths) {
        Ok(rate) => rate,
        Err(_) => SampleRate::all(),
    }
}

// A rate of so many millionths, where more than a million count as a million.
fn rate_at_most(millionths: u32) -> SampleRate
    ensures { result ≡ min millionths 1000000 }
{
    if millionths > SampleRate::ALL {
        return SampleRate::all();
    }
    rate_at(millionths)
}

// The rate of a trace of which a decision was made before, or none.
fn rate_after(decision: Option<bool>, rate: SampleRate) -> SampleRate
    ensures { result ≡ rate_after decision rate }
{
    match decision {
        None => rate,
        Some(true) => SampleRate::all(),
        Some(false) => rate_at(0),
    }
}

// The rate at which a trace is sampled, if the client traces.
fn traces_rate<C: Callbacks>(
    options: &ClientOptions<C>,
    context: &TransactionContext,
) -> Result<Option<SampleRate>, AllocError>
    ensures { IfOk result (λ rate. rate ≡ traces_rate (C.meanings options.now.callbacks)
        options.now.traces_sampling_strategy context.now) }
{
    match &options.traces_sampling_strategy {
        TracesSamplingStrategy::Disabled => Ok(None),
        TracesSamplingStrategy::FixedRate(rate) => Ok(Some(rate_after(context.sampled, *rate))),
        TracesSamplingStrategy::Function => {
            let rate = options.callbacks.traces_rate(context)?;
            Ok(Some(rate_at_most(rate)))
        }
    }
}

// Whether a trace of a draw is sampled at a rate, or what was decided of it before.
fn tracing_at(rate: Option<SampleRate>, decision: Option<bool>, draw: Draw) -> TracingState
    ensures { result ≡ tracing_at rate decision draw }
{
    match rate {
        None => TracingState::Disabled(decision),
        Some(rate) => TracingState::Enabled {
            sampled: rate.keeps(draw),
            rate,
        },
    }
}

/// Decides whether the trace of a transaction that starts is sampled.
#[tactic(auto, unfolding(crate::specs::Sampling::tracing_of))]
pub fn tracing_of<C: Callbacks>(
    options: &ClientOptions<C>,
    context: &TransactionContext,
    draw: Draw,
) -> Result<TracingState, AllocError>
    ensures { IfOk result (λ tracing. tracing ≡ tracing_of (C.meanings options.now.callbacks)
        options.now.traces_sampling_strategy context.now draw) }
{
    let rate = traces_rate(options, context)?;
    Ok(tracing_at(rate, context.sampled, draw))
}
