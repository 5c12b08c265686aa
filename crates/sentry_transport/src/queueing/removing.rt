//! Envelopes without their limited items.
ghost use Rattle.std.specs.Prelude.{◌≡◌};
ghost use Rattle.sentry_transport.specs.Limits.{other_items, without_limited};
ghost use Rattle.sentry_transport.specs.QueueHistories.{is_limited_by};

use crate::queueing::limits::Limits;
use sentry_base::protocol::{Envelope, EnvelopeItem};
use sentry_plain::Items;
use std::mem;

// The items that are not limited, in place of all. It takes no memory.
fn other_items(limits: &Limits, items: Items<EnvelopeItem>, now: u64) -> Items<EnvelopeItem>
    ensures { result ≡ other_items (is_limited_by limits.now.until now) items }
{
    let mut items = items.into_vec();
    items.retain(|item| !limits.is_item_limited(item, now));
    Items::from_vec(items)
}

/// The envelope without its limited items. It takes no memory.
pub(crate) fn without_limited(limits: &Limits, envelope: Envelope, now: u64) -> Envelope
    ensures { result ≡ without_limited (is_limited_by limits.now.until now) envelope }
{
    let mut envelope = envelope;
    let nothing = Items::new(envelope.items.allocator());
    let items = mem::replace(&mut envelope.items, nothing);
    envelope.items = other_items(limits, items, now);
    envelope
}
