//! Names that no command can hand in, what a refused call hands back, and a list of calls.
use crate::engines::{TextCallbacks, engine_with_a_span, fresh, options, scope};
use crate::promises::run_calls;
use scenario_run::callbacks::Handler;
use sentry_base::callbacks::EventCallback;
use sentry_core::client_report::LossWords;
use sentry_core::protocol::{
    ClientKey, Draw, Event, HubKey, Label, Log, LogLevel, Refusal, SampleRate, SpanId, SpanKey,
    TraceId, TransactionOrSpanKey, Uuid,
};
use sentry_core::{SpanTable, TransactionContext};
use sentry_engine::call::{Answer, Call, ClientCall, HubCall, Reply};
use sentry_engine::{Engine, Out};
use sentry_options::{Callbacks, ClientOptions};
use sentry_scope::Scope;
use std::alloc::{AllocError, Global};
use std::test::Fail;

const CLIENT: ClientKey = ClientKey { tag: 0, number: 0 };

const HUB: HubKey = HubKey { tag: 0, number: 0 };

const SPAN: TransactionOrSpanKey = TransactionOrSpanKey::Span(SpanKey { tag: 0, number: 0 });

/// Why an event and a hub are refused whose scope names a span that was discarded.
fn refusals_of_a_discarded_name<P: EventCallback + Drop, C: Callbacks>(
    alloc: Global,
    options: ClientOptions<C>,
) -> Result<[Option<Refusal>; 2], Refusal> {
    let mut engine: Engine<P, C> = engine_with_a_span(alloc, 0, options)?;
    engine.discard(SPAN)?;
    let event = Event::new(alloc, Uuid::nil(), 1)?;
    let mut scope = scope(alloc);
    scope.set_span(Some(SPAN));
    let captured = engine.client_capture_event(CLIENT, event, Some(&scope), fresh());
    let captured = captured.err();
    Ok([captured, engine.new_hub(Some(CLIENT), scope).err()])
}

/// Whether a log under a scope whose span the table lacks is filled in as under one without a span.
fn is_filled_alike<P: Drop>(alloc: Global) -> Result<bool, AllocError> {
    let spans = SpanTable::new(alloc);
    let mut filled = Log::new(alloc, LogLevel::Info, "x", 1)?;
    let mut expected = filled.clone()?;
    let mut scope: Scope<P> = scope(alloc);
    scope.apply_to_log(&spans, &mut expected)?;
    scope.set_span(Some(SPAN));
    scope.apply_to_log(&spans, &mut filled)?;
    Ok(filled == expected && filled.trace_id.is_some())
}

#[test]
fn scopes_can_name_what_is_not_held(rt: HostRuntime) -> Result<(), Fail> {
    let options = options(rt.alloc())?;
    let refusals = refusals_of_a_discarded_name::<Handler, TextCallbacks>(rt.alloc(), options)?;
    let stale = Some(Refusal::Stale);
    assert_eq!(rt; refusals, [stale, stale]);
    assert!(rt; is_filled_alike::<Handler>(rt.alloc())?);
    Ok(())
}

/// Why the first engine refuses the guard of the second, and the hub and the depth of the guard that comes back.
fn foreign_guard<P: Drop, C: Callbacks>(
    alloc: Global,
    options: ClientOptions<C>,
) -> Result<Option<(Refusal, (HubKey, usize))>, Refusal> {
    let mut second: Engine<P, C> = engine_with_a_span(alloc, 4, options)?;
    let guard = second.push_scope(HubKey { tag: 4, number: 0 })?.reply;
    let mut first: Engine<P, C> = Engine::new(alloc, 0);
    match first.pop_scope(guard, 1) {
        Ok(_) => Ok(None),
        Err((refusal, guard)) => Ok(Some((refusal, guard.into_parts()))),
    }
}

#[test]
fn a_guard_of_another_engine_is_handed_back(rt: HostRuntime) -> Result<(), Fail> {
    let back = foreign_guard::<Handler, TextCallbacks>(rt.alloc(), options(rt.alloc())?)?;
    let guard = (HubKey { tag: 4, number: 0 }, 1);
    assert!(rt; back == Some((Refusal::Stale, guard)));
    Ok(())
}

/// The trace and the parent of a context that goes on from the span.
fn continued<P: Drop, C: Callbacks>(
    alloc: Global,
    options: ClientOptions<C>,
) -> Result<(TraceId, Option<SpanId>), Refusal> {
    let engine: Engine<P, C> = engine_with_a_span(alloc, 0, options)?;
    let context = engine
        .continue_from_span("name", "op", Some(SPAN), fresh())?
        .reply;
    Ok((context.trace_id(), context.parent_span_id))
}

#[test]
fn a_trace_goes_on_from_a_span(rt: HostRuntime) -> Result<(), Fail> {
    let found = continued::<Handler, TextCallbacks>(rt.alloc(), options(rt.alloc())?)?;
    let ids = fresh();
    assert!(rt; found == (ids.trace_id, Some(ids.span_id)));
    Ok(())
}

/// The trace, the span and the parent of a transaction whose headers name an organization. The span's id is handed in with
/// the headers.
fn not_continued<P: EventCallback + Drop, C: Callbacks>(
    alloc: Global,
    options: ClientOptions<C>,
    span_id: SpanId,
) -> Result<(TraceId, SpanId, Option<SpanId>), Refusal> {
    let mut engine: Engine<P, C> = engine_with_a_span(alloc, 0, options)?;
    let headers = [
        (
            "sentry-trace",
            "09e04486820349518ac7b5d2adbf6ba5-9cf635fa5b870b3a-1",
        ),
        ("baggage", "sentry-org_id=43"),
    ];
    let context = TransactionContext::continue_from_headers(
        alloc,
        "name",
        "op",
        headers.iter().copied(),
        TraceId([5; 16]),
        span_id,
    )?;
    let transaction = engine.start_transaction(HUB, context, fresh())?.reply;
    let key = TransactionOrSpanKey::Transaction(transaction);
    let place = engine.get_trace_context(key)?.reply;
    Ok((place.trace_id, place.span_id, place.parent_span_id))
}

#[test]
fn a_trace_that_is_not_continued_keeps_the_span(rt: HostRuntime) -> Result<(), Fail> {
    // the DSN names another organization
    let strict = options(rt.alloc())?
        .dsn("https://public@o42.ingest.us.sentry.io/1")?
        .strict_trace_continuation(true);
    let own = SpanId([6; 8]);
    let found = not_continued::<Handler, TextCallbacks>(rt.alloc(), strict, own)?;
    assert!(rt; found == (fresh().trace_id, own, None));
    Ok(())
}

/// Why an engine doesn't absorb losses of this label, and the label of those that come back.
fn unabsorbed<P: Drop, C: Callbacks>(
    alloc: Global,
    options: ClientOptions<C>,
    label: Label,
) -> Result<Option<(Refusal, Label)>, Refusal> {
    let mut engine: Engine<P, C> = engine_with_a_span(alloc, 0, options)?;
    let (_recorder, mut drainer) = LossWords::new(alloc, label)?;
    match engine.absorb(drainer.drain()) {
        Ok(_) => Ok(None),
        Err((refusal, drained)) => {
            let (label, _) = drained.into_parts();
            Ok(Some((refusal, label)))
        }
    }
}

#[test]
fn losses_of_another_label_are_handed_back(rt: HostRuntime) -> Result<(), Fail> {
    let alloc = rt.alloc();
    let (held, other) = (Label { tag: 0, number: 0 }, Label { tag: 0, number: 1 });
    let back = unabsorbed::<Handler, TextCallbacks>(alloc, options(alloc)?, held)?;
    assert!(rt; back.is_none());
    let back = unabsorbed::<Handler, TextCallbacks>(alloc, options(alloc)?, other)?;
    assert!(rt; back == Some((Refusal::ForeignLosses, other)));
    Ok(())
}

/// Whether the first of two calls decided true, and the second was refused as stale.
fn is_end<P: Drop, C: Drop>(answers: &[Answer<P, C>]) -> bool {
    match answers {
        [Ok(out), Err(Refusal::Stale)] => matches!(out.reply, Reply::Decision(true)),
        _ => false,
    }
}

/// Whether a list of two such calls is answered so.
fn run_two<P: EventCallback + Drop, C: Callbacks>(alloc: Global) -> Result<bool, Refusal> {
    let first: Call<P, C> = Call::Client(ClientCall::SampleShouldSend {
        rate: SampleRate::all(),
        draw: Draw::new(0).unwrap(),
    });
    let mut calls = Vec::with_capacity(alloc, 2)?;
    calls.push_reserved(first);
    calls.push_reserved(Call::Hub(HubCall::LastEventId(HUB)));
    let (_, answers) = run_calls(alloc, 0, calls)?;
    Ok(is_end(answers.as_slice()))
}

#[test]
fn a_list_of_calls_answers_one_by_one(rt: HostRuntime) -> Result<(), Fail> {
    assert!(rt; run_two::<Handler, TextCallbacks>(rt.alloc())?);
    Ok(())
}
