//! Clients.
ghost use Rattle.std.specs.Prelude.{◌≡◌, true, if◌then◌else◌};
ghost use Rattle.sentry_base.specs.Losses.{category_at, loss_of, reason_at};
ghost use Rattle.sentry_calls.specs.Clients as clients;
ghost use Rattle.sentry_calls.specs.Losses as losses;
ghost use Rattle.c_engine.specs.Calls.{anything};
ghost use Rattle.c_records.specs.Filters.{filter_meanings};
ghost use Rattle.c_engine.specs.Keys as key;
ghost use Rattle.c_engine.specs.Keys.{client_key};
ghost use Rattle.dochirwa.specs.Exports.{IsCalled, IsSomeCall};

use crate::CLOSED;
use crate::seat::Seat;
use c_base::fault::code;

/// Adds a client with the options of another, and queues of its own.
#[unsafe(no_mangle)]
pub extern "C" fn dochirwa_clone_client(
    seat: &mut Seat,
    client: u64,
    now: u64,
    clone: &mut u64,
) -> u32
    ensures { IsCalled seat.old.engine seat.new.engine result (λ key. clone.new ≡ key.number)
        (clients.clone_client (client_key client) now) }
{
    if seat.is_closed() {
        return CLOSED;
    }
    code(seat.lend().clone_client(client, now, clone))
}

/// Gives a client back.
#[unsafe(no_mangle)]
pub extern "C" fn dochirwa_drop_client(seat: &mut Seat, client: u64) -> u32
    ensures { IsCalled seat.old.engine seat.new.engine result anything
        (clients.drop_client (client_key client)) }
{
    if seat.is_closed() {
        return CLOSED;
    }
    code(seat.lend().drop_client(client))
}

/// Sets 1 where a client sends, and 0 where it doesn't.
#[unsafe(no_mangle)]
pub extern "C" fn dochirwa_is_enabled(seat: &mut Seat, client: u64, enabled: &mut u32) -> u32
    ensures { IsCalled seat.old.engine seat.new.engine result (λ is. enabled.new ≡ (if is then 1 else 0))
        (clients.is_enabled (client_key client)) }
{
    if seat.is_closed() {
        return CLOSED;
    }
    code(seat.lend().is_enabled(client, enabled))
}

/// Sends what waits in the client's queues.
#[unsafe(no_mangle)]
pub extern "C" fn dochirwa_flush(seat: &mut Seat, client: u64) -> u32
    ensures { IsCalled seat.old.engine seat.new.engine result anything
        (clients.flush (client_key client)) }
{
    if seat.is_closed() {
        return CLOSED;
    }
    code(seat.lend().flush(client))
}

/// Sends what is due.
#[unsafe(no_mangle)]
pub extern "C" fn dochirwa_tick(seat: &mut Seat, client: u64, now: u64) -> u32
    ensures { IsCalled seat.old.engine seat.new.engine result anything
        (clients.tick (client_key client) now) }
{
    if seat.is_closed() {
        return CLOSED;
    }
    code(seat.lend().tick(client, now))
}

/// Sends for the last time.
#[unsafe(no_mangle)]
pub extern "C" fn dochirwa_close(seat: &mut Seat, client: u64) -> u32
    ensures { IsCalled seat.old.engine seat.new.engine result anything
        (clients.close (client_key client)) }
{
    if seat.is_closed() {
        return CLOSED;
    }
    code(seat.lend().close(client))
}

/// Adds a client of the options that a text sets, a line `NAME=VALUE` each, under a label.
#[unsafe(no_mangle)]
pub extern "C" fn dochirwa_add_client(
    seat: &mut Seat,
    options: &[u8],
    label: u64,
    now: u64,
    client: &mut u64,
) -> u32
    ensures { IsSomeCall seat.old.engine seat.new.engine result (λ key. client.new ≡ key.number)
        (λ options. clients.add_client filter_meanings options true (key.label label) now) }
{
    if seat.is_closed() {
        return CLOSED;
    }
    code(seat.lend().add_client(options, label, now, client))
}

/// Counts what a transport lost of a category, for a reason.
#[unsafe(no_mangle)]
pub extern "C" fn dochirwa_record_loss(
    seat: &mut Seat,
    label: u64,
    category: u32,
    reason: u32,
    quantity: u64,
) -> u32
    ensures { IsCalled seat.old.engine seat.new.engine result anything
        (losses.absorb (key.label label) (loss_of (category_at category) (reason_at reason) quantity)) }
{
    if seat.is_closed() {
        return CLOSED;
    }
    code(seat.lend().record_loss(label, category, reason, quantity))
}
