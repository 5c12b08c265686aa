//! A callback that is out of memory for one message: its capture is refused, and counts nothing.
use crate::boxes::DSN;
use sentry_base::callbacks::EventCallback;
use sentry_core::protocol::{
    Draw, EnvelopeItem, Event, Fresh, Label, Refusal, SessionStatus, SpanId, TraceId, Uuid,
};
use sentry_core::{BoxedEventCallback, ClientCallbacks, ClientOptions, Level};
use sentry_engine::Engine;
use sentry_options::{Callbacks, clientoptions};
use sentry_scope::Scope;
use std::alloc::{AllocError, Global};
use std::test::Fail;

/// Is out of memory for the message `oom`, and passes every other event on.
#[derive(Drop)]
struct Starves;

impl EventCallback for Starves {
    ghost use Rattle.std.specs.Prelude.{Some};

    ghost gives = { λ _ event. Some event };

    fn call(&self, event: Event) -> Result<Option<Event>, AllocError> {
        let starves = match &event.message {
            Some(message) => message.as_str() == "oom",
            None => false,
        };
        if starves {
            return Err(AllocError);
        }
        Ok(Some(event))
    }
}

fn fresh(byte: u8) -> Fresh {
    Fresh {
        now: 1,
        uuid: Uuid::from_bytes([byte; 16]),
        trace_id: TraceId([1; 16]),
        span_id: SpanId([1; 8]),
        draw: Draw::new(0).unwrap(),
    }
}

// The errors of a session that goes on, and whether its update is the first, if these items are an event and its update.
fn session_of(items: &[EnvelopeItem]) -> Option<(u64, bool)> {
    match items {
        [EnvelopeItem::Event(..), EnvelopeItem::SessionUpdate(update)] => {
            (update.status == SessionStatus::Ok).then_some((update.errors, update.init))
        }
        _ => None,
    }
}

/// Why the first message is refused, the id of the last event then, and the session that the second message tells of.
type Found = (Option<Refusal>, Option<Uuid>, Option<(u64, bool)>);

fn send_two<P: EventCallback + Drop, C: Callbacks>(
    alloc: Global,
    options: clientoptions::ClientOptions<C>,
) -> Result<Found, Refusal> {
    let mut engine: Engine<P, C> = Engine::new(alloc, 0);
    let client = engine
        .add_client(options, true, Label { tag: 0, number: 0 }, 0)?
        .reply;
    let scope = Scope::new(alloc, TraceId([7; 16]), SpanId([8; 8]));
    let hub = engine.new_hub(Some(client), scope)?.reply;
    engine.start_session(hub, fresh(1))?;
    let refusal = engine
        .capture_message(hub, "oom", Level::Error, fresh(2))
        .err();
    let last = engine.last_event_id(hub)?.reply;
    let out = engine.capture_message(hub, "boom", Level::Error, fresh(3))?;
    let session = match out.sent.as_slice() {
        [(_, envelope)] => session_of(envelope.items.as_slice()),
        _ => None,
    };
    Ok((refusal, last, session))
}

#[test]
fn a_starved_capture_counts_nothing(rt: HostRuntime) -> Result<(), Fail> {
    let alloc = rt.alloc();
    let callback: BoxedEventCallback = Box::new(alloc, Starves)?;
    let options = ClientOptions::from_dsn(alloc, DSN)?
        .release("r")?
        .before_send(callback)?;
    let found = send_two::<BoxedEventCallback, ClientCallbacks>(alloc, options)?;
    assert!(rt; found == (Some(Refusal::OutOfMemory), None, Some((1, true))));
    Ok(())
}
