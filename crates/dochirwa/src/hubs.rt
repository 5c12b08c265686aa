//! Hubs and their layers.
ghost use Rattle.std.specs.Prelude.{◌≡◌, Some};
ghost use Rattle.sentry_calls.specs.Hubs as hubs;
ghost use Rattle.sentry_calls.specs.Layers as layers;
ghost use Rattle.sentry_scope.specs.Scopes.{new_scope};
ghost use Rattle.c_engine.specs.Calls.{anything};
ghost use Rattle.c_engine.specs.Keys.{client_key, hub_key};
ghost use Rattle.c_engine.specs.Moments.{fresh_of};
ghost use Rattle.dochirwa.specs.Exports.{IsCalled};

use crate::CLOSED;
use crate::seat::Seat;
use c_base::fault::code;
use c_base::ids::FreshNumbers;

/// Adds a hub on a client, with a new scope of the ids of `fresh`.
#[unsafe(no_mangle)]
pub extern "C" fn dochirwa_new_hub(
    seat: &mut Seat,
    client: u64,
    fresh: &FreshNumbers,
    hub: &mut u64,
) -> u32
    ensures { IsCalled seat.old.engine seat.new.engine result (λ key. hub.new ≡ key.number)
        (hubs.new_hub (Some (client_key client))
        (new_scope (fresh_of fresh.entry.now).trace_id (fresh_of fresh.entry.now).span_id)) }
{
    if seat.is_closed() {
        return CLOSED;
    }
    code(seat.lend().new_hub(client, fresh, hub))
}

/// Adds a hub with the client and a copy of the top scope of another.
#[unsafe(no_mangle)]
pub extern "C" fn dochirwa_new_hub_from_top(seat: &mut Seat, hub: u64, copy: &mut u64) -> u32
    ensures { IsCalled seat.old.engine seat.new.engine result (λ key. copy.new ≡ key.number)
        (layers.new_hub_from_top (hub_key hub)) }
{
    if seat.is_closed() {
        return CLOSED;
    }
    code(seat.lend().new_hub_from_top(hub, copy))
}

/// Gives the top layer of a hub another client.
#[unsafe(no_mangle)]
pub extern "C" fn dochirwa_bind_client(seat: &mut Seat, hub: u64, client: u64) -> u32
    ensures { IsCalled seat.old.engine seat.new.engine result anything
        (layers.bind_client (hub_key hub) (Some (client_key client))) }
{
    if seat.is_closed() {
        return CLOSED;
    }
    code(seat.lend().bind_client(hub, client))
}

/// Releases a hub.
#[unsafe(no_mangle)]
pub extern "C" fn dochirwa_release_hub(seat: &mut Seat, hub: u64, now: u64) -> u32
    ensures { IsCalled seat.old.engine seat.new.engine result anything
        (layers.release_hub (hub_key hub) now) }
{
    if seat.is_closed() {
        return CLOSED;
    }
    code(seat.lend().release_hub(hub, now))
}

/// Pushes a layer, and sets the depth of the hub, which `dochirwa_pop_scope` takes.
#[unsafe(no_mangle)]
pub extern "C" fn dochirwa_push_scope(seat: &mut Seat, hub: u64, depth: &mut usize) -> u32
    ensures { IsCalled seat.old.engine seat.new.engine result (λ guard. depth.new ≡ guard.1)
        (layers.push_scope (hub_key hub)) }
{
    if seat.is_closed() {
        return CLOSED;
    }
    code(seat.lend().push_scope(hub, depth))
}

/// Pops the layer of this depth.
#[unsafe(no_mangle)]
pub extern "C" fn dochirwa_pop_scope(seat: &mut Seat, hub: u64, depth: usize, now: u64) -> u32
    ensures { IsCalled seat.old.engine seat.new.engine result anything
        (layers.pop_scope (hub_key hub) depth now) }
{
    if seat.is_closed() {
        return CLOSED;
    }
    code(seat.lend().pop_scope(hub, depth, now))
}
