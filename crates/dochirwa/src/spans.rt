//! Transactions and spans.
ghost use Rattle.std.specs.Prelude.{◌≡◌, if◌then◌else◌};
ghost use Rattle.std.specs.Result.{is_err};
ghost use Rattle.sentry_spans.specs.Discards as discards;
ghost use Rattle.sentry_span_edits.specs.Setters as setters;
ghost use Rattle.sentry_spans.specs.Ends as ends;
ghost use Rattle.sentry_spans.specs.Spans as spans;
ghost use Rattle.sentry_trace.specs.Contexts.{new_context};
ghost use Rattle.c_engine.specs.Calls.{anything};
ghost use Rattle.c_records.specs.Filters.{filter_meanings};
ghost use Rattle.c_engine.specs.Keys.{hub_key, span_key, transaction_key, either_key};
ghost use Rattle.c_engine.specs.Moments.{fresh_of};
ghost use Rattle.c_engine.specs.Named.{StatusNamed};
ghost use Rattle.c_engine.specs.Rates.{with_rate};
ghost use Rattle.dochirwa.specs.Exports.{IsCalled, IsSomeCall, IsRead};

use crate::CLOSED;
use crate::seat::Seat;
use c_base::fault::code;
use c_base::ids::FreshNumbers;

/// Starts a transaction of a new trace.
#[unsafe(no_mangle)]
pub extern "C" fn dochirwa_start_transaction(
    seat: &mut Seat,
    hub: u64,
    name: &[u8],
    op: &[u8],
    fresh: &FreshNumbers,
    transaction: &mut u64,
) -> u32
    ensures { IsCalled seat.old.engine seat.new.engine result (λ key. transaction.new ≡ key.number)
        (spans.start_transaction filter_meanings (hub_key hub)
        (new_context name.now op.now (fresh_of fresh.entry.now).trace_id (fresh_of fresh.entry.now).span_id)
        (fresh_of fresh.entry.now)) }
{
    if seat.is_closed() {
        return CLOSED;
    }
    code(
        seat.lend()
            .start_transaction(hub, name, op, fresh, transaction),
    )
}

/// Starts a span under a transaction or a span.
#[unsafe(no_mangle)]
pub extern "C" fn dochirwa_start_child(
    seat: &mut Seat,
    is_span: bool,
    parent: u64,
    op: &[u8],
    description: &[u8],
    fresh: &FreshNumbers,
    span: &mut u64,
) -> u32
    ensures { IsCalled seat.old.engine seat.new.engine result (λ key. span.new ≡ key.number)
        (spans.start_child (either_key is_span parent) op.now description.now (fresh_of fresh.entry.now)) }
{
    if seat.is_closed() {
        return CLOSED;
    }
    code(
        seat.lend()
            .start_child(is_span, parent, op, description, fresh, span),
    )
}

/// Finishes a span.
#[unsafe(no_mangle)]
pub extern "C" fn dochirwa_finish_span(seat: &mut Seat, span: u64, now: u64) -> u32
    ensures { IsCalled seat.old.engine seat.new.engine result anything
        (spans.finish_span (span_key span) now) }
{
    if seat.is_closed() {
        return CLOSED;
    }
    code(seat.lend().finish_span(span, now))
}

/// Finishes a transaction under the top scope of a hub.
#[unsafe(no_mangle)]
pub extern "C" fn dochirwa_finish_transaction(
    seat: &mut Seat,
    transaction: u64,
    hub: u64,
    now: u64,
) -> u32
    ensures { IsCalled seat.old.engine seat.new.engine result anything
        (spans.finish_transaction (transaction_key transaction) (hub_key hub) now) }
{
    if seat.is_closed() {
        return CLOSED;
    }
    code(seat.lend().finish_transaction(transaction, hub, now))
}

/// Finishes a span and gives it back. Sets 0, or 1 where it is still held, since a scope has it.
#[unsafe(no_mangle)]
pub extern "C" fn dochirwa_end_span(seat: &mut Seat, span: u64, now: u64, held: &mut u32) -> u32
    ensures { IsCalled seat.old.engine seat.new.engine result
        (λ discarded. held.new ≡ (if is_err discarded then 1 else 0)) (ends.end_span (span_key span) now) }
{
    if seat.is_closed() {
        return CLOSED;
    }
    code(seat.lend().end_span(span, now, held))
}

/// Finishes a transaction under the top scope of a hub, and gives it back. Sets 0, or 1 where it is still held, since a
/// scope has it, or a span of it is held.
#[unsafe(no_mangle)]
pub extern "C" fn dochirwa_end_transaction(
    seat: &mut Seat,
    transaction: u64,
    hub: u64,
    now: u64,
    held: &mut u32,
) -> u32
    ensures { IsCalled seat.old.engine seat.new.engine result
        (λ discarded. held.new ≡ (if is_err discarded then 1 else 0))
        (ends.end_transaction (transaction_key transaction) (hub_key hub) now) }
{
    if seat.is_closed() {
        return CLOSED;
    }
    code(seat.lend().end_transaction(transaction, hub, now, held))
}

/// Gives a transaction or a span back.
#[unsafe(no_mangle)]
pub extern "C" fn dochirwa_discard(seat: &mut Seat, is_span: bool, number: u64) -> u32
    ensures { IsCalled seat.old.engine seat.new.engine result anything
        (discards.discard (either_key is_span number)) }
{
    if seat.is_closed() {
        return CLOSED;
    }
    code(seat.lend().discard(is_span, number))
}

/// Starts a transaction that continues the trace of the headers `sentry-trace` and `baggage`.
#[unsafe(no_mangle)]
pub extern "C" fn dochirwa_continue_transaction(
    seat: &mut Seat,
    hub: u64,
    name: &[u8],
    op: &[u8],
    sentry_trace: &[u8],
    baggage: &[u8],
    fresh: &FreshNumbers,
    transaction: &mut u64,
) -> u32
    ensures { IsSomeCall seat.old.engine seat.new.engine result (λ key. transaction.new ≡ key.number)
        (λ context. spans.start_transaction filter_meanings (hub_key hub) context (fresh_of fresh.entry.now)) }
{
    if seat.is_closed() {
        return CLOSED;
    }
    code(
        seat.lend()
            .continue_transaction(hub, name, op, sentry_trace, baggage, fresh, transaction),
    )
}

/// The same, at this rate in place of the client's.
#[unsafe(no_mangle)]
pub extern "C" fn dochirwa_sample_transaction(
    seat: &mut Seat,
    hub: u64,
    name: &[u8],
    op: &[u8],
    sentry_trace: &[u8],
    baggage: &[u8],
    rate: &[u8],
    fresh: &FreshNumbers,
    transaction: &mut u64,
) -> u32
    ensures { IsSomeCall seat.old.engine seat.new.engine result (λ key. transaction.new ≡ key.number)
        (λ context. spans.start_transaction filter_meanings (hub_key hub) (with_rate rate.now context)
        (fresh_of fresh.entry.now)) }
{
    if seat.is_closed() {
        return CLOSED;
    }
    code(
        seat.lend().sample_transaction(
            hub,
            name,
            op,
            sentry_trace,
            baggage,
            rate,
            fresh,
            transaction,
        ),
    )
}

/// Sets a piece of data to the value of a JSON text.
#[unsafe(no_mangle)]
pub extern "C" fn dochirwa_set_span_data(
    seat: &mut Seat,
    is_span: bool,
    number: u64,
    key: &[u8],
    json: &[u8],
) -> u32
    ensures { IsSomeCall seat.old.engine seat.new.engine result anything
        (λ value. setters.set_data (either_key is_span number) key.now value) }
{
    if seat.is_closed() {
        return CLOSED;
    }
    code(seat.lend().set_span_data(is_span, number, key, json))
}

/// Sets a tag of a transaction or a span.
#[unsafe(no_mangle)]
pub extern "C" fn dochirwa_set_span_tag(
    seat: &mut Seat,
    is_span: bool,
    number: u64,
    key: &[u8],
    value: &[u8],
) -> u32
    ensures { IsCalled seat.old.engine seat.new.engine result anything
        (setters.set_tag (either_key is_span number) key.now value.now) }
{
    if seat.is_closed() {
        return CLOSED;
    }
    code(seat.lend().set_span_tag(is_span, number, key, value))
}

/// Sets the name of a transaction, or the description of a span.
#[unsafe(no_mangle)]
pub extern "C" fn dochirwa_set_span_name(
    seat: &mut Seat,
    is_span: bool,
    number: u64,
    name: &[u8],
) -> u32
    ensures { IsCalled seat.old.engine seat.new.engine result anything
        (setters.set_name (either_key is_span number) name.now) }
{
    if seat.is_closed() {
        return CLOSED;
    }
    code(seat.lend().set_span_name(is_span, number, name))
}

/// Sets the operation of a transaction or a span.
#[unsafe(no_mangle)]
pub extern "C" fn dochirwa_set_span_op(
    seat: &mut Seat,
    is_span: bool,
    number: u64,
    op: &[u8],
) -> u32
    ensures { IsCalled seat.old.engine seat.new.engine result anything
        (setters.set_op (either_key is_span number) op.now) }
{
    if seat.is_closed() {
        return CLOSED;
    }
    code(seat.lend().set_span_op(is_span, number, op))
}

/// Sets the status of this name.
#[unsafe(no_mangle)]
pub extern "C" fn dochirwa_set_span_status(
    seat: &mut Seat,
    is_span: bool,
    number: u64,
    name: &[u8],
) -> u32
    ensures { IsSomeCall seat.old.engine seat.new.engine result anything
        (λ (named : StatusNamed name.now). setters.set_status (either_key is_span number) named.0) }
{
    if seat.is_closed() {
        return CLOSED;
    }
    code(seat.lend().set_span_status(is_span, number, name))
}

/// Sets the request of a JSON object.
#[unsafe(no_mangle)]
pub extern "C" fn dochirwa_set_span_request(
    seat: &mut Seat,
    is_span: bool,
    number: u64,
    request: &[u8],
) -> u32
    ensures { IsSomeCall seat.old.engine seat.new.engine result anything
        (λ request. setters.set_request (either_key is_span number) request) }
{
    if seat.is_closed() {
        return CLOSED;
    }
    code(seat.lend().set_span_request(is_span, number, request))
}

/// Sets how long the value of the header `sentry-trace` is by which another program continues the trace, and copies it
/// where the room holds it.
#[unsafe(no_mangle)]
pub extern "C" fn dochirwa_trace_header(
    seat: &mut Seat,
    is_span: bool,
    number: u64,
    room: &mut [u8],
    length: &mut usize,
) -> u32
    ensures { IsRead seat.old.engine seat.new.engine result }
{
    if seat.is_closed() {
        return CLOSED;
    }
    code(seat.lend().trace_header(is_span, number, room, length))
}

/// Sets how long the value of the header `baggage` is that goes with it, and copies it where the room holds it.
#[unsafe(no_mangle)]
pub extern "C" fn dochirwa_baggage(
    seat: &mut Seat,
    is_span: bool,
    number: u64,
    room: &mut [u8],
    length: &mut usize,
) -> u32
    ensures { IsRead seat.old.engine seat.new.engine result }
{
    if seat.is_closed() {
        return CLOSED;
    }
    code(seat.lend().baggage(is_span, number, room, length))
}
