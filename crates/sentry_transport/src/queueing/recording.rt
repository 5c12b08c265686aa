//! What a queue records of envelopes that don't wait in it.
ghost use Rattle.std.specs.Prelude.{◌≡◌, map, [], ◌∷◌, option_map};
ghost use Rattle.sentry_base.specs.declared.protocol.losses.Reason.TheVariants.{RatelimitBackoff, QueueOverflow};
ghost use Rattle.sentry_base.specs.RecordLosses.{item_losses, envelope_losses};
ghost use Rattle.sentry_transport.specs.Limits.{limited_items};
ghost use Rattle.sentry_transport.specs.QueueHistories.{is_limited_by, recorder_after};

use crate::queueing::limits::Limits;
use sentry_base::protocol::{Envelope, EnvelopeItem};
use sentry_client_reports::{Recorder, TransportLossReason};

// Records an item if it is limited.
fn record_if_limited(recorder: &mut Recorder, limits: &Limits, item: &EnvelopeItem, now: u64)
    ensures { recorder.new ≡ recorder_after
        (map (item_losses RatelimitBackoff) (limited_items (is_limited_by limits.now.until now) (item.now ∷ []))) recorder.old }
{
    if limits.is_item_limited(item, now) {
        recorder.record_lost_data(item, TransportLossReason::RatelimitBackoff);
    }
}

// Records each limited item once, in order.
fn record_limited(recorder: &mut Recorder, limits: &Limits, items: &[EnvelopeItem], now: u64)
    ensures { recorder.new ≡ recorder_after
        (map (item_losses RatelimitBackoff) (limited_items (is_limited_by limits.now.until now) items.now)) recorder.old }
{
    for item in items {
        record_if_limited(recorder, limits, item, now);
    }
}

/// The recorder, if there is one, after it recorded each limited item once, in order.
pub(crate) fn after_limited(
    recorder: Option<Recorder>,
    limits: &Limits,
    items: &[EnvelopeItem],
    now: u64,
) -> Option<Recorder>
    ensures { result ≡ option_map (recorder_after
        (map (item_losses RatelimitBackoff) (limited_items (is_limited_by limits.now.until now) items.now))) recorder }
{
    match recorder {
        None => None,
        Some(mut recorder) => {
            record_limited(&mut recorder, limits, items, now);
            Some(recorder)
        }
    }
}

/// The recorder, if there is one, after it recorded an envelope once for which the queue had no room.
pub(crate) fn after_turned_away(recorder: Option<Recorder>, envelope: &Envelope) -> Option<Recorder>
    ensures { result ≡ option_map (recorder_after (envelope_losses QueueOverflow envelope.now.items ∷ [])) recorder }
{
    match recorder {
        None => None,
        Some(mut recorder) => {
            recorder.record_lost_data(envelope, TransportLossReason::QueueOverflow);
            Some(recorder)
        }
    }
}
