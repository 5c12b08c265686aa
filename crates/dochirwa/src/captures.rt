//! Events, logs, metrics and sessions.
ghost use Rattle.std.specs.Prelude.{◌≡◌};
ghost use Rattle.sentry_calls.specs.Hubs as hubs;
ghost use Rattle.sentry_calls.specs.Sessions as sessions;
ghost use Rattle.sentry_calls.specs.Telemetry as telemetry;
ghost use Rattle.sentry_events.specs.Captures.{capture_event};
ghost use Rattle.c_base.specs.Numbers.{id_of, id_or_nil, level_of, status_of};
ghost use Rattle.c_engine.specs.Calls.{anything};
ghost use Rattle.c_engine.specs.Engines.{same_event};
ghost use Rattle.c_records.specs.Filters.{filter_meanings};
ghost use Rattle.c_engine.specs.Keys.{hub_key};
ghost use Rattle.c_engine.specs.Moments.{fresh_of};
ghost use Rattle.dochirwa.specs.Exports.{IsCalled, IsSomeCall, IsSomeCallWith};

use crate::CLOSED;
use crate::seat::Seat;
use c_base::fault::code;
use c_base::ids::{FreshNumbers, Id};

/// Captures a message, and sets the id of its event, which is nil where none was sent.
#[unsafe(no_mangle)]
pub extern "C" fn dochirwa_capture_message(
    seat: &mut Seat,
    hub: u64,
    level: u32,
    message: &[u8],
    fresh: &FreshNumbers,
    id: &mut Id,
) -> u32
    ensures { IsCalled seat.old.engine seat.new.engine result (λ reply. id.new ≡ id_of reply)
        (hubs.capture_message same_event filter_meanings (hub_key hub) message.now (level_of level)
        (fresh_of fresh.entry.now)) }
{
    if seat.is_closed() {
        return CLOSED;
    }
    code(seat.lend().capture_message(hub, level, message, fresh, id))
}

/// Sets the id that the last capture on a hub answered, which is nil where there was none.
#[unsafe(no_mangle)]
pub extern "C" fn dochirwa_last_event_id(seat: &mut Seat, hub: u64, id: &mut Id) -> u32
    ensures { IsCalled seat.old.engine seat.new.engine result (λ reply. id.new ≡ id_or_nil reply)
        (hubs.last_event_id (hub_key hub)) }
{
    if seat.is_closed() {
        return CLOSED;
    }
    code(seat.lend().last_event_id(hub, id))
}

/// Starts a session.
#[unsafe(no_mangle)]
pub extern "C" fn dochirwa_start_session(seat: &mut Seat, hub: u64, fresh: &FreshNumbers) -> u32
    ensures { IsCalled seat.old.engine seat.new.engine result anything
        (sessions.start_session (hub_key hub) (fresh_of fresh.entry.now)) }
{
    if seat.is_closed() {
        return CLOSED;
    }
    code(seat.lend().start_session(hub, fresh))
}

/// Ends the session of the top layer.
#[unsafe(no_mangle)]
pub extern "C" fn dochirwa_end_session(seat: &mut Seat, hub: u64, status: u32, now: u64) -> u32
    ensures { IsCalled seat.old.engine seat.new.engine result anything
        (sessions.end_session_with_status (hub_key hub) (status_of status) now) }
{
    if seat.is_closed() {
        return CLOSED;
    }
    code(seat.lend().end_session(hub, status, now))
}

/// Captures the event of a JSON object, with the stack traces that it has, and sets its id, which is nil where none was
/// sent.
#[unsafe(no_mangle)]
pub extern "C" fn dochirwa_capture_event(
    seat: &mut Seat,
    hub: u64,
    event: &[u8],
    fresh: &FreshNumbers,
    id: &mut Id,
) -> u32
    ensures { IsSomeCallWith seat.old.engine seat.new.engine result (λ reply. id.new ≡ id_of reply)
        (λ event. capture_event same_event filter_meanings (hub_key hub) event (fresh_of fresh.entry.now)) }
{
    if seat.is_closed() {
        return CLOSED;
    }
    code(seat.lend().capture_event(hub, event, fresh, id))
}

/// Captures a log with the attributes of a JSON object.
#[unsafe(no_mangle)]
pub extern "C" fn dochirwa_capture_log(
    seat: &mut Seat,
    hub: u64,
    level: u32,
    body: &[u8],
    attributes: &[u8],
    now: u64,
) -> u32
    ensures { IsSomeCall seat.old.engine seat.new.engine result anything
        (λ log. telemetry.capture_log filter_meanings (hub_key hub) log) }
{
    if seat.is_closed() {
        return CLOSED;
    }
    code(seat.lend().capture_log(hub, level, body, attributes, now))
}

/// Captures a metric with the attributes of a JSON object.
#[unsafe(no_mangle)]
pub extern "C" fn dochirwa_capture_metric(
    seat: &mut Seat,
    hub: u64,
    kind: u32,
    name: &[u8],
    value: i64,
    unit: &[u8],
    attributes: &[u8],
    now: u64,
) -> u32
    ensures { IsSomeCall seat.old.engine seat.new.engine result anything
        (λ draft. telemetry.capture_metric filter_meanings (hub_key hub) draft now) }
{
    if seat.is_closed() {
        return CLOSED;
    }
    code(
        seat.lend()
            .capture_metric(hub, kind, name, value, unit, attributes, now),
    )
}
