//! The guard of a program's client, over boxes.
use crate::workshop::{Collector, LOOKS, Minute, SEED, at, new_sink};
use sentry_core::protocol::Refusal;
use sentry_core::{
    ClientInitGuard, ClientOptions, Clock, Envelope, SystemClock, SystemTicks, ThreadHub,
    TickClock, Transport, init, logger_info,
};
use std::alloc::Global;
use std::sync::Arc;
use std::sync::atomic::{AtomicU64, Ordering};
use std::test::Fail;
use std::thread::yield_now;

fn options(alloc: Global) -> Result<ClientOptions, Refusal> {
    ClientOptions::from_dsn(alloc, "https://public@sentry.invalid/1")
}

/// Answers false to a shutdown.
#[derive(Drop)]
struct Stuck;

impl Transport for Stuck {
    fn send_envelope(&self, _envelope: Envelope) {}

    fn shutdown(&self, _timeout: u64) -> bool {
        false
    }
}

// Drops the guard of a client in whose queue a log waits. Answers whether the client is active before and after.
fn drop_guard(guard: ClientInitGuard, mut thread: ThreadHub) -> Result<[bool; 2], Refusal> {
    logger_info!(thread, "it waits")?;
    let before = guard.client().is_enabled()?;
    drop(guard);
    Ok([before, thread.current.is_active()?])
}

#[test]
fn a_guard_closes_its_client(rt: HostRuntime) -> Result<(), Fail> {
    let sink = new_sink(rt.alloc())?;
    let (guard, thread) = init!(rt, options(rt.alloc())?, sink.clone()?)?;
    let are_active = drop_guard(guard, thread)?;
    let sent = sink.take(rt.alloc()).len();
    assert_eq!(rt; (are_active, sent), ([true, false], 1));
    Ok(())
}

#[test]
fn a_guard_closes_a_client_that_ticks(rt: HostRuntime) -> Result<(), Fail> {
    let sink = new_sink(rt.alloc())?;
    let (guard, thread) = init!(rt, options(rt.alloc())?, sink.clone()?, SystemTicks(rt))?;
    let are_active = drop_guard(guard, thread)?;
    let sent = sink.take(rt.alloc()).len();
    assert_eq!(rt; (are_active, sent), ([true, false], 1));
    Ok(())
}

#[test]
fn a_tick_of_the_system_waits(rt: HostRuntime) -> Result<(), Fail> {
    let earliest = SystemClock(rt).now();
    let moment = SystemTicks(rt).next().unwrap_or(0);
    let latest = SystemClock(rt).now();
    assert!(rt; earliest.saturating_add(90_000_000) <= moment && moment <= latest);
    Ok(())
}

#[test]
fn a_guard_tells_that_not_all_was_sent(rt: HostRuntime) -> Result<(), Fail> {
    let options = options(rt.alloc())?;
    let (guard, thread) = init!(rt, options, Stuck, Minute, SEED)?;
    drop(thread);
    let has_sent_all = guard.close()?;
    assert!(rt; !has_sent_all);
    Ok(())
}

/// Answers to a shutdown whether it was made with a recorder.
#[derive(Drop)]
struct Recording(bool);

impl Transport for Recording {
    fn send_envelope(&self, _envelope: Envelope) {}

    fn shutdown(&self, _timeout: u64) -> bool {
        self.0
    }
}

#[test]
fn a_transport_gets_its_settings(rt: HostRuntime) -> Result<(), Fail> {
    let (guard, thread) = init!(
        rt,
        options(rt.alloc())?,
        |settings| Recording(settings.client_report_recorder.is_some()),
        Minute,
        SEED
    )?;
    drop(thread);
    let has_recorder = guard.close()?;
    let options = ClientOptions::new(rt.alloc());
    let (guard, thread) = init!(rt, options, |settings| {
        drop(settings);
        Recording(true)
    })?;
    drop(thread);
    let is_enabled = guard.client().is_enabled()?;
    drop(guard);
    assert_eq!(rt; (has_recorder, is_enabled), (true, false));
    Ok(())
}

/// Tells a moment at which logs of the minute are sent, at each call. When it is dropped, it counts that in a word.
struct Endless(Arc<AtomicU64>);

impl Drop for Endless {
    fn drop(self) {
        let Endless(dropped) = self;
        dropped.fetch_add(1, Ordering::SeqCst);
    }
}

impl TickClock for Endless {
    fn next(&mut self) -> Option<u64> {
        yield_now();
        Some(at(66))
    }
}

// Looks at what is sent until there is an envelope, and lets other threads run in between. Answers whether there is.
fn is_sent(alloc: Global, sink: &Collector) -> bool {
    for _ in 0..LOOKS {
        if !sink.take(alloc).is_empty() {
            return true;
        }
        yield_now();
    }
    false
}

// Whether a log is sent while the worker of a client ticks.
fn is_ticked(alloc: Global, sink: &Collector, mut thread: ThreadHub) -> Result<bool, Refusal> {
    logger_info!(thread, "it waits")?;
    Ok(is_sent(alloc, sink))
}

#[test]
fn a_guard_ends_its_worker(rt: HostRuntime) -> Result<(), Fail> {
    let dropped = Arc::new(rt.alloc(), AtomicU64::new(0))?;
    let sink = new_sink(rt.alloc())?;
    let ticks = Endless(dropped.clone()?);
    let (guard, thread) = init!(rt, options(rt.alloc())?, sink.clone()?, Minute, SEED, ticks)?;
    assert!(rt; is_ticked(rt.alloc(), &sink, thread)?);
    let has_sent_all = guard.close()?;
    assert_eq!(rt; (has_sent_all, dropped.load(Ordering::SeqCst)), (true, 1));
    let ticks = Endless(dropped.clone()?);
    let (guard, thread) = init!(rt, options(rt.alloc())?, Stuck, Minute, SEED, ticks)?;
    drop(thread);
    drop(guard);
    assert_eq!(rt; dropped.load(Ordering::SeqCst), 2);
    Ok(())
}
