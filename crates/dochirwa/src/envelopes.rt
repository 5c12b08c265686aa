//! What calls handed out.
ghost use Rattle.dochirwa.specs.Exports.{IsEmptied};
ghost use Rattle.dochirwa.specs.Fetches.{IsFetched};

use crate::CLOSED;
use crate::seat::Seat;
use c_base::fault::code;

/// Sets how many bytes the text of the next envelope has in Sentry's format (0: no envelope waits), and the number of
/// its client. If the room holds the text, it is copied there, and the envelope is taken; otherwise it goes on waiting.
#[unsafe(no_mangle)]
pub extern "C" fn dochirwa_next_envelope(
    seat: &mut Seat,
    client: &mut u64,
    room: &mut [u8],
    length: &mut usize,
) -> u32
    ensures { IsFetched seat.old.engine seat.new.engine result (client.old, client.new)
        (room.old, room.new) length.new }
{
    if seat.is_closed() {
        return CLOSED;
    }
    code(seat.lend().next_envelope(client, room, length))
}

/// Forgets the envelopes that wait.
#[unsafe(no_mangle)]
pub extern "C" fn dochirwa_drop_envelopes(seat: &mut Seat) -> u32
    ensures { IsEmptied seat.old.engine seat.new.engine result }
{
    if seat.is_closed() {
        return CLOSED;
    }
    seat.lend().drop_envelopes();
    0
}
