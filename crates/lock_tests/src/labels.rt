//! Losses that threads record while their label is drained, reported and ended, and its clients come and go: at each
//! index what was recorded is what was told.
use crate::workshop::{Held, Lock, add_report, options};
use sentry_base::protocol::{
    CATEGORIES, Category, ClientReport, Envelope, EnvelopeItem, LossSource, Losses, Reason, Refusal,
};
use sentry_client_reports::{Recorder, TransportLossReason};
use sentry_lock::{CoreLock, SharedCore, Waiting};
use sentry_options::ClientOptions;
use sentry_transport::Transport;
use std::alloc::{AllocError, Global};
use std::sync::{Arc, Mutex, Wait};
use std::test::Fail;
use std::thread::{Threads, join, map_vec, yield_now};

/// How often each part records, and how many calls are made meanwhile.
const RECORDS: u64 = 200;

const CALLS: u64 = 60;

/// Adds up the reports of what it is to send.
#[derive(Drop)]
struct Sums<R: Wait + Drop> {
    rt: R,
    told: Mutex<Losses>,
}

impl<R: Wait + Drop> Transport for Sums<R> {
    fn send_envelope(&self, envelope: Envelope) {
        let mut told = self.told.lock(&self.rt);
        for item in envelope.items.as_slice() {
            if let EnvelopeItem::ClientReport(report) = item {
                add_report(&mut told, report);
            }
        }
    }
}

/// Losses of several categories at once.
#[derive(Clone, Copy)]
struct Loss(Losses);

impl LossSource for Loss {
    ghost losses_under = { λ lost _. lost.0.quantities };

    fn losses(&self, _reason: Reason) -> Losses {
        self.0
    }
}

/// What a step records: something in each category but one, under one reason.
fn loss_of(step: u64) -> Losses {
    let mut all = Losses::none();
    for category in 0..CATEGORIES {
        if category as u64 != step % 8 {
            let reason = Reason::at((step % 9) as usize);
            all.add(&Losses::of(Category::at(category), reason, step % 3 + 1));
        }
    }
    all
}

/// A recorder, and the number of its first step.
#[derive(Drop)]
struct Part {
    recorder: Recorder,
    first: u64,
}

fn record(part: Part) -> Losses {
    let Part {
        mut recorder,
        first,
    } = part;
    let mut sums = Losses::none();
    for step in 0..RECORDS {
        let lost = loss_of(first.wrapping_add(step));
        recorder.record_lost_data(&Loss(lost), TransportLossReason::NetworkError);
        sums.add(&lost);
        if step % 50 == 0 {
            yield_now();
        }
    }
    sums
}

/// Three parts of a recorder, whose rest is dropped.
fn split(alloc: Global, recorder: Recorder) -> Result<Vec<Part>, Refusal> {
    let mut parts = Vec::new(alloc);
    let mut rest = recorder;
    for number in 0..3u64 {
        match rest.split() {
            Ok((recorder, other)) => {
                let first = number.wrapping_mul(7);
                parts
                    .push(Part { recorder, first })
                    .map_err(|failed| AllocError::from(failed))?;
                rest = other;
            }
            Err((refusal, _rest)) => return Err(refusal),
        }
    }
    Ok(parts)
}

/// One call that drains, reports or ends the words of a label, by its number; what it tells beside the transport.
fn make_call<L: CoreLock>(held: &Held<L>, number: u64) -> Result<Losses, Refusal> {
    let mut told = Losses::none();
    let client = &held.client;
    match number % 6 {
        0 => client.send_envelope(Envelope::new(client.core().allocator()))?,
        1 => drop(client.flush(Some(1))?),
        2 => {
            let copy = client.clone_client(number)?;
            copy.send_envelope(Envelope::new(client.core().allocator()))?;
            drop(copy.close(None)?);
            copy.drop_client()?;
        }
        3 => drop(held.drain()?),
        4 => {
            if let Some(report) = held.take_report()? {
                add_report(&mut told, &report);
            }
        }
        _other => drop(held.close_losses()?),
    }
    Ok(told)
}

fn make_calls<L: CoreLock>(held: &Held<L>, first: u64) -> Result<Losses, Refusal> {
    let mut told = Losses::none();
    for number in 0..CALLS {
        told.add(&make_call(held, first.wrapping_add(number))?);
        yield_now();
    }
    Ok(told)
}

/// Drains the words, ends them and takes the report, in one hold of the lock.
fn end_words<L: CoreLock>(held: &Held<L>) -> Result<(bool, Option<ClientReport>), Refusal> {
    let mut guard = held.client.core().lock();
    drop(guard.drain_and_absorb(held.label)?);
    let is_closed = guard.close_losses(held.label)?;
    Ok((is_closed, guard.take_report(held.label)?))
}

/// The original of a label goes, a clone keeps it: whether its words end then, and what is told of them.
fn end_label<L: CoreLock>(held: &Held<L>) -> Result<(bool, Losses), Refusal> {
    let copy = held.client.clone_client(1)?;
    held.client.drop_client()?;
    let (is_closed, report) = end_words(held)?;
    let mut told = Losses::none();
    if let Some(report) = report {
        add_report(&mut told, &report);
    }
    copy.drop_client()?;
    Ok((is_closed, told))
}

/// What was recorded of a label, what was told beside the transport, and whether its words ended.
#[derive(Clone, Copy)]
struct Round {
    recorded: Losses,
    told: Losses,
    is_closed: bool,
}

fn play_round<R: Threads + Sync, L: CoreLock + Send + Sync + 'static>(
    rt: &R,
    core: &SharedCore<L>,
    options: ClientOptions<L::Callbacks>,
    transport: L::Transport,
    first: u64,
) -> Result<Round, Refusal>
where
    L::Processor: Send + Sync + 'static,
    L::Callbacks: Send + Sync + 'static,
    L::Transport: Send + Sync + 'static,
{
    let mut held = Held::on(core, options, Some(transport))?;
    let parts = match held.recorder.take() {
        Some(recorder) => split(core.allocator(), recorder)?,
        None => Vec::new(core.allocator()),
    };
    let (recorded, told) = join(
        rt,
        || map_vec(rt, parts, &|part: Part| record(part)),
        || make_calls(&held, first),
    );
    let mut all = Losses::none();
    match recorded {
        Ok(sums) => {
            for one in sums {
                all.add(&one);
            }
        }
        Err(failed) => return Err(AllocError::from(failed).into()),
    }
    let (is_closed, last) = end_label(&held)?;
    let mut told = told?;
    told.add(&last);
    Ok(Round {
        recorded: all,
        told,
        is_closed,
    })
}

#[test]
fn what_threads_record_is_told_at_each_index(rt: HostRuntime) -> Result<(), Fail> {
    let alloc: Global = rt.alloc();
    let told = Mutex::new(Losses::none());
    let sums = Arc::new(alloc, Sums { rt, told })?;
    let core: SharedCore<Lock<Sums<HostRuntime>, HostRuntime>> = SharedCore::new(
        Waiting(rt),
        alloc,
        1,
    )?;
    let mut recorded = Losses::none();
    let mut beside = Losses::none();
    for turn in 0..3u64 {
        let (first, second) = join(
            &rt,
            || play_round(&rt, &core, options(alloc, false)?, sums.clone()?, turn),
            || play_round(&rt, &core, options(alloc, false)?, sums.clone()?, turn + 3),
        );
        let (first, second) = (first?, second?);
        assert!(rt; first.is_closed && second.is_closed);
        recorded.add(&first.recorded);
        recorded.add(&second.recorded);
        beside.add(&first.told);
        beside.add(&second.told);
    }
    beside.add(&*sums.told.lock(&rt));
    assert!(rt; recorded == beside && recorded != Losses::none());
    assert!(rt; core.held().clients == 0);
    Ok(())
}
