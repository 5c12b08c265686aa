//! A first program: what happens in a shop, told to a client whose transport prints.
#![tactic(auto)]

mod printing;

use anyhow::{Result, ensure};
use printing::{Printer, Seconds};
use sentry_core::{
    ClientOptions, Level, ThreadHub, add_breadcrumb, capture_message, configure_scope, end_session,
    in_span, in_transaction, init, logger_info, start_session, transaction_context,
};

/// When the shop opens, in nanoseconds since the epoch.
const MORNING: u64 = 1_700_000_000_000_000_000;

/// A log, and a warning with a tag and the breadcrumb that led to it.
fn count_lamps(thread: &mut ThreadHub) -> Result<()> {
    configure_scope(thread, |scope| scope.set_tag("till", "3"))?;
    add_breadcrumb(thread, ("shelf", "the shelf was counted"))?;
    logger_info!(thread, shelf = 7u64, "{} lamps are left", 2u64)?;
    capture_message(thread, "the lamps run out", Level::Warning)?;
    Ok(())
}

/// A transaction with a child.
fn sell_lamp(thread: &mut ThreadHub) -> Result<()> {
    let context = transaction_context(thread, "sell", "till")?;
    in_transaction(thread, context, |thread, sale| {
        in_span(thread, sale, "db.query", "take a lamp", |_, _| Ok(()))
    })
}

fn main(rt: HostRuntime) -> Result<()> {
    let options = ClientOptions::from_dsn(rt.alloc(), "https://public@sentry.invalid/1")?
        .release("shop@1.0.0")?
        .traces_sample_rate(1_000_000)?;
    // `init!(rt, options, Printer(rt))?` has the clock of the system and random ids
    let (sentry, mut thread) = init!(rt, options, Printer(rt), Seconds(MORNING), [7; 32])?;
    start_session(&mut thread)?;
    count_lamps(&mut thread)?;
    sell_lamp(&mut thread)?;
    end_session(&mut thread)?;
    ensure!(sentry.close()?, "the transport has not sent all");
    Ok(())
}
