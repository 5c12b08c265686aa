//! Losses: calls succeed with enough memory, a drain finds what was recorded before it, and threads lose nothing.
ghost use Rattle.std.specs.Prelude.{◌≡◌};

use crate::items::{event, transaction};
use sentry_base::protocol::{
    CATEGORIES, Category, Envelope, EnvelopeItem, Label, Log, LogLevel, LossSource, Losses, Reason,
    Refusal,
};
use sentry_client_reports::{
    CountedDrainer, Drainer, LossBook, LossWords, Recorder, TransportLossReason,
};
use sentry_plain::{Boxed, Items};
use std::alloc::{AllocError, Global};
use std::test::Fail;
use std::thread::{join, map_vec};

const LABEL: Label = Label { tag: 7, number: 3 };

/// The loss of so many items of a category, without the items.
#[derive(Clone, Copy)]
struct Loss {
    category: Category,
    quantity: u64,
}

impl LossSource for Loss {
    ghost use Rattle.sentry_base.specs.Losses.{loss_of};

    ghost losses_under = { λ lost reason. loss_of lost.category reason lost.quantity };

    fn losses(&self, reason: Reason) -> Losses {
        Losses::of(self.category, reason, self.quantity)
    }
}

fn lost(category: Category, quantity: u64) -> Loss {
    Loss { category, quantity }
}

/// Whether a drain finds just this, which is recorded before it.
fn finds(recorder: &mut Recorder, drainer: &mut CountedDrainer, lost: Loss) -> bool {
    recorder.record_lost_data(&lost, TransportLossReason::NetworkError);
    let (label, losses) = drainer.drain().into_parts();
    label == LABEL && losses == lost.losses(Reason::NetworkError)
}

/// Whether a drain into losses writes just this over them, which is recorded before it.
fn finds_into(recorder: &mut Recorder, drainer: &mut CountedDrainer, lost: Loss) -> bool {
    recorder.record_lost_data(&lost, TransportLossReason::NetworkError);
    let mut losses = lost.losses(Reason::QueueOverflow);
    drainer.drain_into(&mut losses) && losses == lost.losses(Reason::NetworkError)
}

/// Whether drains of both kinds find five losses in each category, one after the other.
fn finds_each(recorder: &mut Recorder, drainer: &mut CountedDrainer) -> bool {
    let mut all = true;
    for category in 0..CATEGORIES {
        let five = lost(Category::at(category), 5);
        all &= finds(recorder, drainer, five) && finds_into(recorder, drainer, five);
    }
    all
}

/// Whether a book gives a report of what it absorbed, once.
fn is_reported_once(alloc: Global, losses: &Losses) -> Result<bool, Refusal> {
    let mut book = LossBook::new();
    book.absorb(losses);
    let is_reported = book.take_report(alloc)?.is_some();
    Ok(is_reported && book.take_report(alloc)?.is_none() && is_balanced(&book, losses))
}

/// Whether all that a book absorbed is this, all of which it reported, and it recorded nothing.
fn is_balanced(book: &LossBook, losses: &Losses) -> bool {
    *book.absorbed() == *losses && *book.reported() == *losses && *book.recorded() == Losses::none()
}

#[test]
fn a_drain_finds_what_was_recorded_since_the_last(rt: HostRuntime) -> Result<(), Fail> {
    let (mut recorder, drainer) = LossWords::new(rt.alloc(), LABEL)?;
    let mut drainer = CountedDrainer::new(drainer);
    let finds_five = finds_each(&mut recorder, &mut drainer);
    // a counter counts modulo 2^64
    let most = lost(Category::Error, u64::MAX);
    recorder.record_lost_data(&most, TransportLossReason::NetworkError);
    recorder.record_lost_data(&lost(Category::Error, 1), TransportLossReason::NetworkError);
    let finds_one = finds(&mut recorder, &mut drainer, lost(Category::Error, 1));
    assert!(rt; finds_five && finds_one);
    assert!(rt; is_reported_once(rt.alloc(), &most.losses(Reason::NetworkError))?);
    Ok(())
}

/// A drainer, and a recorder of the same words, without which they don't close.
#[derive(Drop)]
struct Ends {
    recorder: Recorder,
    drainer: Drainer,
    ghost same: { drainer.words ≡ recorder.words },
}

impl Ends {
    fn drain(&mut self) -> Losses {
        let (_label, losses) = self.drainer.drain().into_parts();
        losses
    }

    /// What stands in the words, unless there is another part of them.
    fn close(self) -> Option<Losses> {
        let Ends { recorder, drainer } = self;
        match LossWords::close(recorder, drainer) {
            Ok(standing) => Some(standing),
            Err(_) => None,
        }
    }
}

fn drain_many(mut ends: Ends, times: u64) -> (Ends, Losses) {
    let mut sums = Losses::none();
    for _ in 0..times {
        sums.add(&ends.drain());
    }
    (ends, sums)
}

/// What one thread records: so many single losses of a category.
#[derive(Drop)]
struct Job {
    recorder: Recorder,
    category: Category,
    times: u64,
}

fn record_job(job: Job) {
    let Job {
        mut recorder,
        category,
        times,
    } = job;
    for _ in 0..times {
        recorder.record_lost_data(&lost(category, 1), TransportLossReason::NetworkError);
    }
}

/// A job for each number of losses, in categories of their own, with recorders that are split from one.
fn jobs(alloc: Global, recorder: Recorder, quantities: &[u64]) -> Result<Vec<Job>, Fail> {
    let mut jobs = Vec::new(alloc);
    let mut rest = recorder;
    for (place, times) in quantities.iter().enumerate() {
        let (recorder, other) = rest.split().map_err(|(refusal, _)| refusal)?;
        let category = Category::at(place % CATEGORIES);
        jobs.push(Job {
            recorder,
            category,
            times: *times,
        })?;
        rest = other;
    }
    Ok(jobs)
}

/// The losses that those jobs record.
fn recorded(quantities: &[u64]) -> Losses {
    let mut sums = Losses::none();
    for (place, quantity) in quantities.iter().enumerate() {
        let category = Category::at(place % CATEGORIES);
        sums.add(&Losses::of(category, Reason::NetworkError, *quantity));
    }
    sums
}

#[test]
fn nothing_is_lost_between_five_recorders_and_a_drainer(rt: HostRuntime) -> Result<(), Fail> {
    let alloc: Global = rt.alloc();
    let quantities = [10000, 1000, 1000, 1000, 1000].as_slice();
    let (recorder, drainer) = LossWords::new(alloc, LABEL)?;
    let Ok((recorder, other)) = recorder.split() else {
        panic!(rt; "no second recorder")
    };
    let ends = Ends { recorder, drainer };
    let jobs = jobs(alloc, other, quantities)?;
    let (done, (ends, mut sums)) = join(
        &rt,
        || map_vec(&rt, jobs, &|job: Job| record_job(job)),
        move || drain_many(ends, 20000),
    );
    done?;
    let Some(standing) = ends.close() else {
        panic!(rt; "not closed")
    };
    sums.add(&standing);
    assert!(rt; sums == recorded(quantities));
    Ok(())
}

#[test]
fn a_counted_drainer_knows_what_it_took(rt: HostRuntime) -> Result<(), Fail> {
    let two = lost(Category::Span, 2);
    let (mut recorder, drainer) = LossWords::new(rt.alloc(), LABEL)?;
    let mut counted = CountedDrainer::new(drainer);
    recorder.record_lost_data(&two, TransportLossReason::SendError);
    let mut losses = Losses::none();
    assert!(rt; counted.drain_into(&mut losses));
    recorder.record_lost_data(&two, TransportLossReason::SendError);
    let (_, more) = counted.drain().into_parts();
    let four = lost(Category::Span, 4).losses(Reason::SendError);
    assert!(rt; losses == more && *counted.taken() == four);
    recorder.record_lost_data(&two, TransportLossReason::SendError);
    let Err(counted) = counted.close() else {
        panic!(rt; "closed beside a recorder")
    };
    drop(recorder);
    let Ok(standing) = counted.close() else {
        panic!(rt; "not closed")
    };
    assert!(rt; standing == two.losses(Reason::SendError));
    Ok(())
}

#[test]
fn words_close_once_no_other_part_is_left(rt: HostRuntime) -> Result<(), Fail> {
    let one = lost(Category::Error, 1);
    let (recorder, drainer) = LossWords::new(rt.alloc(), LABEL)?;
    let Ok((recorder, mut other)) = recorder.split() else {
        panic!(rt; "no second recorder")
    };
    other.record_lost_data(&one, TransportLossReason::SendError);
    let Err((mut recorder, drainer)) = LossWords::close(recorder, drainer) else {
        panic!(rt; "closed beside a second recorder")
    };
    recorder.join(other);
    let Err(drainer) = LossWords::close_drainer(drainer) else {
        panic!(rt; "closed beside a recorder")
    };
    let Ok((mut drainer, second)) = drainer.split() else {
        panic!(rt; "no second drainer")
    };
    drainer.join(second);
    let Ok(standing) = LossWords::close(recorder, drainer) else {
        panic!(rt; "not closed")
    };
    assert!(rt; standing == one.losses(Reason::SendError));
    Ok(())
}

/// An event, a transaction with two spans, and a batch of three logs.
fn envelope(alloc: Global) -> Result<Envelope, AllocError> {
    let mut logs = Items::new(alloc);
    for _ in 0..3 {
        logs.push(Log::new(alloc, LogLevel::Info, "x", 1)?)?;
    }
    let mut envelope = Envelope::new(alloc);
    envelope.add_item(EnvelopeItem::Event(Boxed::new(alloc, event(alloc, 1)?)?))?;
    envelope.add_item(transaction(alloc)?)?;
    envelope.add_item(EnvelopeItem::Logs(logs))?;
    Ok(envelope)
}

#[test]
fn each_item_of_a_lost_envelope_counts(rt: HostRuntime) -> Result<(), Fail> {
    let (mut recorder, mut drainer) = LossWords::new(rt.alloc(), LABEL)?;
    recorder.record_lost_data(&envelope(rt.alloc())?, TransportLossReason::QueueOverflow);
    let (_, losses) = drainer.drain().into_parts();
    let mut expected = [0u64; 63];
    expected[8] = 1;
    expected[17] = 1;
    expected[26] = 3;
    expected[53] = 3;
    assert!(rt; losses.quantities == expected);
    Ok(())
}

/// What a book reports of the greatest quantity and of so many errors more.
fn reported_past_the_greatest(alloc: Global, more: u64) -> Result<Option<u64>, Refusal> {
    let mut book = LossBook::new();
    book.record(&Losses::of(Category::Error, Reason::EventProcessor, u64::MAX));
    book.record(&Losses::of(Category::Error, Reason::EventProcessor, more));
    let report = book.take_report(alloc)?;
    Ok(report.map(|report| report
        .items
        .as_slice()
        .iter()
        .fold(0, |sum, item| { item.quantity.wrapping_add(sum) })))
}

#[test]
fn a_quantity_begins_anew_after_the_greatest(rt: HostRuntime) -> Result<(), Fail> {
    assert!(rt; reported_past_the_greatest(rt.alloc(), 1)?.is_none());
    assert!(rt; reported_past_the_greatest(rt.alloc(), 2)? == Some(1));
    Ok(())
}
