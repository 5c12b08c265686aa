//! The crate `log` over a hub: what a program logs becomes logs and breadcrumbs, and its errors become events too.
use crate::printing::Printer;
use crate::setup::options;
use anyhow::Result;
use log::{Level, Log, Logged, debug, error, info, warn};
use sentry_core::{
    BoxedClock, BoxedGate, BoxedTransport, Levels, LogFilter, SentryLogger, SystemClock, Text,
    Within, draw_seed, start,
};
use std::alloc::{AllocError, Global};

/// Runs the example, by the clock of the system and with random ids.
pub fn run(rt: HostRuntime, wait: BoxedGate) -> Result<()> {
    let alloc = rt.alloc();
    let transport: BoxedTransport = Box::new(alloc, Printer(rt))?;
    let clock: BoxedClock = Box::new(alloc, SystemClock(rt))?;
    let seed = draw_seed(&rt)?;
    let (sentry, thread) = start(alloc, wait, options(alloc)?, transport, clock, seed)?;
    let sink = SentryLogger::with_filter(thread, filter(alloc)?);
    print_orders(&Logged::new(rt, Level::Info, sink));
    sentry.close()?;
    Ok(())
}

// Of the printer's driver no info is told, and an error leads to the next one.
fn filter(alloc: Global) -> Result<Within<Levels, Levels>, AllocError> {
    let error = LogFilter {
        breadcrumb: true,
        event: true,
        log: true,
    };
    Ok(Within {
        target: Text::new(alloc, "driver")?,
        inside: Levels {
            info: LogFilter::ignore(),
            ..Levels::new()
        },
        outside: Levels {
            error,
            ..Levels::new()
        },
    })
}

// What the program does. It knows of a logger alone.
fn print_orders<L: Log>(rt: &L) {
    info!(rt; target: "orders", orders = 2; "the printer is on");
    debug!(rt; target: "orders", "the printer is warm");
    info!(rt; target: "driver::usb", "12 bytes are sent");
    warn!(rt; target: "paper", sheets = 3, tray = "left"; "{} sheets are left", 3);
    error!(rt; target: "paper", tray = "left"; "no paper");
    error!(rt; target: "orders", "an order is lost");
}
