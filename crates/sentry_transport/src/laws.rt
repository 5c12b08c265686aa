//! What holds after every list of calls on a queue.
ghost use Rattle.std.specs.Prelude.{◌≡◌, ◌+◌, ℕ, List, length};
ghost use Rattle.sentry_transport.specs.QueueHistories.{QueueCall, queued_envelopes, taken_envelopes};
ghost use Rattle.sentry_transport.specs.QueueCounts.{offered_count, emptied_count, turned_away_count};

use crate::queueing::queue_keeps_order;

/// Whatever calls came to a queue: each envelope that was offered was taken, waits, was turned away because the queue was
/// full, or had limited items alone, so that nothing was left of it.
pub fn envelopes_add_up()
    ensures { (capacity : ℕ) (history : List QueueCall)
        → offered_count history
        ≡ length (taken_envelopes capacity history) + length (queued_envelopes capacity history)
        + turned_away_count capacity history + emptied_count history }
{
    queue_keeps_order();
}
