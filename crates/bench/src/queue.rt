//! A queue of envelopes, which are offered and taken.
use sentry_core::protocol::{EnvelopeItem, Event, Refusal, Uuid};
use sentry_core::queueing::QueueCore;
use sentry_core::{Boxed, Envelope};
use std::alloc::{AllocError, Global};

/// An envelope of an event.
pub fn event_alone(alloc: Global) -> Result<Envelope, AllocError> {
    let event = Event::new(alloc, Uuid::nil(), 0)?;
    let mut envelope = Envelope::new(alloc);
    envelope.add_item(EnvelopeItem::Event(Boxed::new(alloc, event)?))?;
    Ok(envelope)
}

fn is_offered_again(core: &mut QueueCore, now: u64) -> bool {
    match core.take() {
        Some(envelope) => {
            core.offer(envelope, now);
            true
        }
        None => false,
    }
}

/// In how many of the turns an envelope of an event is taken out of a queue of 30 and offered again. The turns take no
/// memory.
pub fn take_and_offer(alloc: Global, turns: u64) -> Result<u64, Refusal> {
    let mut core = QueueCore::new(alloc, 30, None)?;
    core.offer(event_alone(alloc)?, 0);
    let mut taken = 0u64;
    for now in 0..turns {
        taken = taken.wrapping_add(u64::from(is_offered_again(&mut core, now)));
    }
    Ok(taken)
}
