//! A queue of envelopes: what is queued, what is taken out and what is recorded, in one run of calls.
use crate::items::{alone, attachment, event_alone, id, report, transaction};
use sentry_base::protocol::{Category, Envelope, Label, Losses, Refusal};
use sentry_client_reports::{Drainer, LossWords};
use sentry_transport::queueing::QueueCore;
use std::alloc::{AllocError, Global};
use std::test::Fail;

const LABEL: Label = Label { tag: 7, number: 4 };

/// An envelope of an event with this id and an attachment.
fn event_with_attachment(alloc: Global, byte: u8) -> Result<Envelope, AllocError> {
    let mut envelope = event_alone(alloc, byte)?;
    envelope.add_item(attachment(alloc)?)?;
    Ok(envelope)
}

/// A queue, and a drainer of what it records.
#[derive(Drop)]
struct Watched {
    core: QueueCore,
    drainer: Drainer,
}

fn new_queue(alloc: Global, capacity: usize) -> Result<Watched, Refusal> {
    let (recorder, drainer) = LossWords::new(alloc, LABEL)?;
    let core = QueueCore::new(alloc, capacity, Some(recorder))?;
    Ok(Watched { core, drainer })
}

/// Losses of these quantities at these places.
fn losses_at(pairs: &[(usize, u64)]) -> Losses {
    let mut losses = Losses::none();
    for (place, quantity) in pairs {
        if *place < losses.quantities.len() {
            losses.quantities[*place] = *quantity;
        }
    }
    losses
}

/// Whether an offer of the envelope that was made records just these losses, and leaves so many envelopes waiting.
fn offers(
    queue: &mut Watched,
    made: Result<Envelope, AllocError>,
    now: u64,
    lost: &[(usize, u64)],
    waiting: usize,
) -> bool {
    let Ok(envelope) = made else {
        return false;
    };
    queue.core.offer(envelope, now);
    let (_label, losses) = queue.drainer.drain().into_parts();
    losses == losses_at(lost) && queue.core.len() == waiting
}

/// Whether a take gives an envelope of so many items whose event has or had this id.
fn gives(queue: &mut Watched, byte: Option<u8>, items: usize) -> bool {
    match queue.core.take() {
        Some(taken) => taken.header.event_id == byte.map(id) && taken.items.len() == items,
        None => false,
    }
}

/// What offers come to where there is room for one: those of an event, of a transaction and of a report.
fn overfill(queue: &mut Watched, alloc: Global) -> [bool; 3] {
    [
        offers(queue, event_alone(alloc, 1), 0, &[], 1),
        offers(
            queue,
            alone(alloc, transaction(alloc)),
            0,
            &[(17, 1), (26, 3)],
            1,
        ),
        offers(queue, alone(alloc, report(alloc)), 0, &[(1, 1)], 1),
    ]
}

/// What follows while errors are limited until 10: what waits already is given whole, and of what comes then, no error
/// is kept before 10.
fn offer_under_a_limit(queue: &mut Watched, alloc: Global) -> [bool; 6] {
    queue.core.limit(Some(Category::Error), 10);
    // a limit that ends sooner changes nothing
    queue.core.limit(Some(Category::Error), 5);
    [
        gives(queue, Some(1), 1),
        offers(queue, event_with_attachment(alloc, 3), 9, &[(7, 1)], 1),
        gives(queue, Some(3), 1),
        offers(queue, event_alone(alloc, 4), 9, &[(7, 1)], 0),
        offers(queue, event_alone(alloc, 4), 10, &[], 1),
        gives(queue, Some(4), 1),
    ]
}

/// The same of an empty envelope and of a report, which nothing limits.
fn offer_what_is_not_limited(queue: &mut Watched, alloc: Global) -> [bool; 4] {
    queue.core.limit(None, 30);
    [
        offers(queue, Ok(Envelope::new(alloc)), 29, &[], 1),
        gives(queue, None, 0),
        offers(queue, alone(alloc, report(alloc)), 29, &[], 1),
        gives(queue, None, 1),
    ]
}

#[test]
fn a_queue_records_what_it_turns_away_and_takes_out(rt: HostRuntime) -> Result<(), Fail> {
    let alloc = rt.alloc();
    // a capacity of 0 counts as 1
    let mut queue = new_queue(alloc, 0)?;
    let overfilled = overfill(&mut queue, alloc);
    let limited = offer_under_a_limit(&mut queue, alloc);
    let not_limited = offer_what_is_not_limited(&mut queue, alloc);
    let is_empty = queue.core.take().is_none() && queue.core.capacity() == 1;
    drop(queue);
    assert_eq!(rt; overfilled, [true; 3]);
    assert_eq!(rt; limited, [true; 6]);
    assert_eq!(rt; not_limited, [true; 4]);
    assert!(rt; is_empty);
    Ok(())
}
