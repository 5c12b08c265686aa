//! Opening and closing.
ghost use Rattle.std.specs.Prelude.{◌≡◌, None};
ghost use Rattle.dochirwa.specs.Exports.{IsOpened};

use crate::seat::Seat;
use crate::{ALREADY_OPEN, OUT_OF_MEMORY, VERSION};
use c_engine::OutboxEngine;
use std::alloc::Global;

/// The version of the library, as the header of the same one has it.
#[unsafe(no_mangle)]
pub extern "C" fn dochirwa_version() -> u32
    ensures { result ≡ 200 }
{
    VERSION
}

/// Makes an engine that holds nothing where there is none; one that is open stays as it is.
#[unsafe(no_mangle)]
pub extern "C" fn dochirwa_open(alloc: Global, seat: &mut Seat) -> u32
    ensures { IsOpened seat.old.engine seat.new.engine result }
{
    if !seat.is_closed() {
        return ALREADY_OPEN;
    }
    match OutboxEngine::new(alloc) {
        Ok(engine) => {
            seat.put(engine);
            0
        }
        Err(_) => OUT_OF_MEMORY,
    }
}

/// Frees the engine, if there is one, and is closed. What waits is lost.
#[unsafe(no_mangle)]
pub extern "C" fn dochirwa_free(alloc: Global, seat: &mut Seat)
    ensures { seat.new.engine ≡ None }
{
    if seat.is_closed() {
        return;
    }
    drop(seat.take(alloc));
}
