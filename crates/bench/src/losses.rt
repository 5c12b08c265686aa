//! Recorders in threads of their own, and drains.
use sentry_core::client_report::{Drainer, LossWords, Recorder, TransportLossReason};
use sentry_core::protocol::{CATEGORIES, Category, Label, LossSource, Losses, Reason, Refusal};
use std::alloc::Global;
use std::thread;
use std::thread::Threads;

const LABEL: Label = Label { tag: 1, number: 0 };

// What is recorded: the loss of an item of a category, without the item.
#[derive(Drop)]
struct LostItem {
    category: Category,
}

impl LossSource for LostItem {
    ghost use Rattle.sentry_base.specs.Losses.{loss_of};

    ghost losses_under = { λ item reason. loss_of item.category reason 1 };

    fn losses(&self, reason: Reason) -> Losses {
        Losses::of(self.category, reason, 1)
    }
}

// A thread's recorder, and what it loses.
#[derive(Drop)]
struct Job {
    recorder: Recorder,
    category: Category,
}

fn record_many(job: Job, times: u64) {
    let Job {
        mut recorder,
        category,
    } = job;
    let item = LostItem { category };
    for _ in 0..times {
        recorder.record_lost_data(&item, TransportLossReason::NetworkError);
    }
}

fn drain_many(drainer: &mut Drainer, drains: u64) -> Losses {
    let mut sums = Losses::none();
    for _ in 0..drains {
        let (_label, losses) = drainer.drain().into_parts();
        sums.add(&losses);
    }
    sums
}

/// Into which counters threads record.
#[derive(Clone, Copy)]
pub enum Spread {
    /// All into one.
    OneCategory,
    /// Each into one of its own category, for up to seven threads.
    OwnCategories,
}

fn category_of(spread: Spread, thread: u64) -> Category {
    match spread {
        Spread::OneCategory => Category::Error,
        Spread::OwnCategories => Category::at(thread as usize % CATEGORIES),
    }
}

fn split_many(
    alloc: Global,
    first: Recorder,
    threads: u64,
    spread: Spread,
) -> Result<Vec<Job>, Refusal> {
    let mut jobs = Vec::new(alloc);
    let mut last = first;
    for thread in 1..threads {
        let (recorder, other) = last.split().map_err(|(refusal, _)| refusal)?;
        let category = category_of(spread, thread);
        jobs.push(Job { recorder, category })
            .map_err(|_| Refusal::OutOfMemory)?;
        last = other;
    }
    let category = category_of(spread, 0);
    jobs.push(Job {
        recorder: last,
        category,
    })
    .map_err(|_| Refusal::OutOfMemory)?;
    Ok(jobs)
}

// The losses of all categories.
fn total(losses: &Losses) -> u64 {
    let mut sum = 0u64;
    for category in 0..CATEGORIES {
        sum = sum.wrapping_add(losses.get(Category::at(category), Reason::NetworkError));
    }
    sum
}

/// Records so many losses in each thread, while there are so many drains. Answers the losses that these found and what
/// stood at the end, which is that of all threads.
pub fn record<R: Threads + Sync>(
    rt: &R,
    alloc: Global,
    spread: Spread,
    losses: u64,
    threads: u64,
    drains: u64,
) -> Result<u64, Refusal> {
    let (recorder, mut drainer) = LossWords::new(alloc, LABEL)?;
    let jobs = split_many(alloc, recorder, threads, spread)?;
    let lent = &mut drainer;
    let (recorded, mut sums) = thread::join(
        rt,
        || thread::map_vec(rt, jobs, &|job: Job| record_many(job, losses)),
        || drain_many(lent, drains),
    );
    let _ = recorded?;
    if let Ok(standing) = LossWords::close_drainer(drainer) {
        sums.add(&standing);
    }
    Ok(total(&sums))
}

/// The losses that so many drains of words without any find, which is none.
pub fn drain_quiet(alloc: Global, drains: u64) -> Result<u64, Refusal> {
    let (_recorder, mut drainer) = LossWords::new(alloc, LABEL)?;
    Ok(total(&drain_many(&mut drainer, drains)))
}

/// The losses that so many drains find, where one is recorded before each.
pub fn drain_raised(alloc: Global, drains: u64) -> Result<u64, Refusal> {
    let (mut recorder, mut drainer) = LossWords::new(alloc, LABEL)?;
    let item = LostItem {
        category: Category::Error,
    };
    let mut found = 0u64;
    for _ in 0..drains {
        recorder.record_lost_data(&item, TransportLossReason::NetworkError);
        let (_label, losses) = drainer.drain().into_parts();
        found = found.wrapping_add(losses.get(Category::Error, Reason::NetworkError));
    }
    Ok(found)
}
