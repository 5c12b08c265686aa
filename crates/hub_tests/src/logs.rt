//! The macros for logs, and metrics that are captured on the current hub.
use crate::workshop::{Bench, Thread, at};
use sentry_core::metrics::{CaptureMetric, counter, distribution, gauge};
use sentry_core::protocol::{LogLevel, Refusal};
use sentry_core::{
    logger_debug, logger_error, logger_fatal, logger_info, logger_log, logger_trace, logger_warn,
};
use sentry_lock::CoreLock;
use std::test::Fail;

// Makes logs whose texts have parameters, one of them with attributes.
fn log_parameters<L: CoreLock>(thread: &mut Thread<L>) -> Result<(), Refusal> {
    logger_info!(thread, "n {}", 7)?;
    logger_error!(
        thread,
        user.id = 5u64,
        is_open = true,
        "{} lamps of {}",
        3,
        "oak",
    )
}

// Makes these, a log of each other level, and one whose level is handed in. Without parameters the text is as it is
// written.
fn log_all<L: CoreLock>(thread: &mut Thread<L>) -> Result<(), Refusal> {
    log_parameters(thread)?;
    logger_trace!(thread, "{plain}")?;
    logger_debug!(thread, "{plain}")?;
    logger_warn!(thread, "{plain}")?;
    logger_fatal!(thread, "{plain}")?;
    logger_log!(thread, LogLevel::Warn, "{plain}")
}

// Makes a log of each level at a moment, in place of that of the clock, the last one at a level that is handed in.
fn log_at_moments<L: CoreLock>(thread: &mut Thread<L>) -> Result<(), Refusal> {
    logger_trace!(thread; at(1), "{plain}")?;
    logger_debug!(thread; at(2), "{plain}")?;
    logger_info!(thread; at(3), is_open = true, "n {}", 7)?;
    logger_warn!(thread; at(4), "{plain}")?;
    logger_error!(thread; at(5), "{plain}")?;
    logger_fatal!(thread; at(6), "{plain}")?;
    logger_log!(thread; at(7), LogLevel::Warn, "{plain}")
}

#[test]
fn macros_make_logs(rt: HostRuntime) -> Result<(), Fail> {
    let mut bench = Bench::apart(rt, rt.alloc())?;
    log_all(&mut bench.thread)?;
    log_at_moments(&mut bench.thread)?;
    let sent = bench.finish()?;
    let expected =
        "; log Info at 60 n 7 sentry.message.parameter.0=7 sentry.message.template='n {}' \
        log Error at 60 3 lamps of oak is_open=true sentry.message.parameter.0=3 \
        sentry.message.parameter.1='oak' sentry.message.template='{} lamps of {}' user.id=5 \
        log Trace at 60 {plain} log Debug at 60 {plain} log Warn at 60 {plain} log Fatal at 60 {plain} \
        log Warn at 60 {plain} \
        log Trace at 1 {plain} log Debug at 2 {plain} \
        log Info at 3 n 7 is_open=true sentry.message.parameter.0=7 sentry.message.template='n {}' \
        log Warn at 4 {plain} log Error at 5 {plain} log Fatal at 6 {plain} log Warn at 7 {plain}";
    assert_eq!(rt; sent.as_str(), expected);
    Ok(())
}

// Captures a counter, a gauge and a distribution.
fn measure<L: CoreLock>(thread: &mut Thread<L>) -> Result<(), Refusal> {
    let alloc = thread.current.core().allocator();
    counter(alloc, "orders", 1)?.capture(thread)?;
    gauge(alloc, "load", 2)?.capture(thread)?;
    distribution(alloc, "size", 3)?.capture(thread)
}

#[test]
fn metrics_are_captured_on_the_current_hub(rt: HostRuntime) -> Result<(), Fail> {
    let mut bench = Bench::apart(rt, rt.alloc())?;
    measure(&mut bench.thread)?;
    let sent = bench.finish()?;
    let expected = "; Counter orders=1 at 60 Gauge load=2 at 60 Distribution size=3 at 60";
    assert_eq!(rt; sent.as_str(), expected);
    Ok(())
}
