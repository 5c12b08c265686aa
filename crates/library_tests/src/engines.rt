//! Texts that are played on engines which no program makes: with another tag than the keys that the text names, with
//! few numbers left, or with something that they hold before the first line.
use scenario_run::callbacks::Handler;
use scenario_run::caller::Caller;
use scenario_run::{Envelopes, TAG, run_scenario_by};
use sentry_core::TransactionContext;
use sentry_core::protocol::{
    Draw, Fresh, Label, Refusal, SpanId, TraceId, TransactionOrSpanKey, Uuid,
};
use sentry_engine::Engine;
use sentry_options::{Callbacks, ClientOptions};
use sentry_scope::Scope;
use std::alloc::Global;
use std::test::Fail;

/// What the clients of a text call.
pub(crate) type TextCallbacks = scenario_run::callbacks::Callbacks;

/// An engine on which texts are played.
type TextEngine = Engine<Handler, TextCallbacks>;

/// A tag that no key of a text has.
const OTHER_TAG: u64 = 4;

/// A scope that sets nothing.
pub(crate) fn scope<P>(alloc: Global) -> Scope<P> {
    Scope::new(alloc, TraceId([7; 16]), SpanId([8; 8]))
}

/// What a call is handed.
pub(crate) fn fresh() -> Fresh {
    Fresh {
        now: 1,
        uuid: Uuid::from_bytes([9; 16]),
        trace_id: TraceId([1; 16]),
        span_id: SpanId([2; 8]),
        draw: Draw::new(0).unwrap(),
    }
}

/// Options with a DSN.
pub(crate) fn options(alloc: Global) -> Result<ClientOptions<TextCallbacks>, Refusal> {
    ClientOptions::from_dsn(alloc, "https://public@sentry.invalid/1")
}

/// An engine that holds a client with these options, a hub of it, a transaction, and a span of that, each under the
/// number 0.
pub(crate) fn engine_with_a_span<P: Drop, C: Callbacks>(
    alloc: Global,
    tag: u64,
    options: ClientOptions<C>,
) -> Result<Engine<P, C>, Refusal> {
    let mut engine = Engine::new(alloc, tag);
    let client = engine.add_client(options, true, Label { tag, number: 0 }, 0)?;
    let hub = engine.new_hub(Some(client.reply), scope(alloc))?;
    let ids = fresh();
    let context = TransactionContext::new(alloc, "name", "op", ids.trace_id, ids.span_id)?;
    let transaction = engine.start_transaction(hub.reply, context, ids)?;
    let parent = TransactionOrSpanKey::Transaction(transaction.reply);
    engine.start_child(parent, "op", "", fresh())?;
    Ok(engine)
}

/// What a text prints that is played by a caller, if it is played to its end.
fn play<E: Caller>(alloc: Global, caller: E, text: &str) -> Option<Vec<u8>> {
    let mut text = text.as_bytes();
    let mut written: Vec<u8> = Vec::new(alloc);
    match run_scenario_by(alloc, caller, Envelopes::Lines, &mut text, &mut written) {
        Ok(()) => Some(written),
        Err(_) => None,
    }
}

fn prints<E: Caller>(alloc: Global, caller: E, text: &str, expected: &str) -> bool {
    match play(alloc, caller, text) {
        Some(written) => written.as_slice() == expected.as_bytes(),
        None => false,
    }
}

/// Each call that takes a key, as a line that names the number 0. The calls that take a transaction or a span are there
/// with both.
const CALLS_WITH_KEYS: &str = "options 0
clientdsn 0
enabled 0
prepare 0 info x
send 0 info x
sendlog 0 info x
sendmetric 0 counter x 1 -
empty 0
flush 0
tick 0
close 0
clone 0
drop 0
hub 0
message 0 info x
exception 0 error - x
error 0 x
log 0 x
metric 0 counter x 1 -
level 0 error
crumb 0 x
last 0
bound 0
active 0
headers 0
push 0
pop 0 1
top 0
bind 0 -
session 0
end 0
release 0
tx 0 n o
txat 0 n o 1
child t0 o x
child s0 o x
childwith t0 o 1 1 x
childwith s0 o 1 1 x
txfrom 0 n o t0
txfrom 0 n o s0
setdata t0 k v
setdata s0 k v
settag t0 k v
settag s0 k v
setname t0 n
setname s0 n
setop t0 o
setop s0 o
status t0 ok
status s0 ok
request t0 GET https://shop.invalid/ x
request s0 GET https://shop.invalid/ x
trace t0
trace s0
sampled t0
sampled s0
iter t0
iter s0
getstatus t0
getstatus s0
data t0
data s0
discard t0
discard s0
spanid s0
setextra t0 k v
setorigin t0 o
finish t0 0
finish s0 0
";

/// What each of these lines prints.
const STALE: &[u8] = b"refused E2\n";

/// Whether this is what so many lines print.
fn are_stale(lines: usize, written: &[u8]) -> bool {
    let mut all = written.len() == lines.saturating_mul(STALE.len());
    for (place, byte) in written.iter().enumerate() {
        all &= *byte == STALE[place % STALE.len()];
    }
    all
}

#[test]
fn each_call_refuses_the_keys_of_another_engine(rt: HostRuntime) -> Result<(), Fail> {
    let alloc = rt.alloc();
    let other: TextEngine = engine_with_a_span(alloc, OTHER_TAG, options(alloc)?)?;
    let Some(written) = play(alloc, other, CALLS_WITH_KEYS) else {
        panic!(rt; "not played to its end")
    };
    assert!(rt; are_stale(69, written.as_slice()));
    Ok(())
}

/// On an engine with one number left of each kind.
const UP_TO_THE_LAST_NUMBER: &str = "hub 0
client app traces=1
client app
clone 18446744073709551614
hub 18446744073709551614
hub -
top 18446744073709551614
session 18446744073709551614
session 18446744073709551614
message 18446744073709551614 error boom
tx 18446744073709551614 n o
tx 18446744073709551614 n o
child t18446744073709551614 o x
child t18446744073709551614 o x
";

/// Where no client is held, none is found for a hub. Nothing gets a second number. The session that stands stays where
/// a second one is refused.
const USED_UP: &str = "refused E2
refused E9
refused E9
refused E9
refused E9
refused E9
envelope 18446744073709551614 event 0000000000000000000000000000000a error - boom {at=10000000000 platform=native \
release=app environment=- server=- transaction=- fingerprint={{ default }} user=- extra=- \
contexts=trace:T00000000000000000000000000000005/S0000000000000005/-/op=-/description=-/status=-/origin=-/data=- \
crumbs=- exceptions=- integrations=} | session ok errors=1 init=true {id=00000000000000000000000000000008 distinct=- \
release=app environment=- started=8000000000 duration=-}
refused E9
refused E9
";

#[test]
fn numbers_are_used_up(rt: HostRuntime) -> Result<(), Fail> {
    let alloc = rt.alloc();
    let engine: TextEngine = Engine::starting_at(alloc, TAG, u64::MAX - 1);
    assert!(rt; prints(alloc, engine, UP_TO_THE_LAST_NUMBER, USED_UP));
    // the label is asked before the numbers, and so is the client of a hub
    let engine: TextEngine = Engine::starting_at(alloc, OTHER_TAG, u64::MAX);
    assert!(rt;
        prints(
            alloc,
            engine,
            "client app\nhub 0\nhub -\n",
            "refused E8\nrefused E2\nrefused E9\n"
        )
    );
    Ok(())
}

/// On an engine with a client under the number 0, of which a second one has the label.
const DROPPED_BY_THE_SECOND: &str = "client app before_send=no
hub 1
message 1 info no
empty 0
";

#[test]
fn a_client_reports_what_another_of_its_label_dropped(rt: HostRuntime) -> Result<(), Fail> {
    let alloc = rt.alloc();
    let engine: TextEngine = engine_with_a_span(alloc, TAG, options(alloc)?)?;
    let expected = "envelope 0 report error/before_send=1\n";
    assert!(rt; prints(alloc, engine, DROPPED_BY_THE_SECOND, expected));
    Ok(())
}
