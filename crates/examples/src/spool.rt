//! A shop whose envelopes are put into a folder, a file each, or are written to standard output. Another program sends
//! the files, as `tools/ship` does. What can't be written is told at the end.
use crate::setup::{self, SEED, Thread};
use anyhow::{Result, ensure};
use sentry_core::client_report::Drainer;
use sentry_core::envelope::Usage;
use sentry_core::metrics::{CaptureMetric, counter};
use sentry_core::protocol::{Attachment, CATEGORIES, Category, Label, Reason, Refusal, SpanStatus};
use sentry_core::{
    BoxedClock, BoxedGate, BoxedTransport, ClientOptions, Clock, Items, Text, add_breadcrumb,
    capture_error, configure_scope, end_session, in_span, in_transaction, logger_warn, start,
    start_session, transaction_context,
};
use sentry_lock::CoreLock;
use std::alloc::Global;
use thiserror::Error;

/// A clock that begins in the morning, and is 1.000001 seconds further each time that it is asked.
#[derive(Drop)]
pub struct Morning(u64);

impl Morning {
    /// When the shop opens.
    pub fn new() -> Morning {
        Morning(1_700_000_000_000_000_000)
    }
}

impl Clock for Morning {
    fn now(&mut self) -> u64 {
        self.0 = self.0.saturating_add(1_000_001_000);
        self.0
    }
}

/// What the folder may have.
pub const LIMITS: Usage = Usage {
    files: 1_000,
    bytes: 10_000_000,
};

/// Under which the transport counts what it loses.
pub const LABEL: Label = Label { tag: 1, number: 0 };

/// Runs the example. It fails where the transport has lost something, of which the drainer has the count.
pub fn run(
    alloc: Global,
    wait: BoxedGate,
    transport: BoxedTransport,
    drainer: Drainer,
) -> Result<()> {
    let clock: BoxedClock = Box::new(alloc, Morning::new())?;
    let (sentry, mut thread) = start(alloc, wait, options(alloc)?, transport, clock, SEED)?;
    open_shop(&mut thread)?;
    let is_sent = sentry.close()?;
    let lost = lost_items(alloc, drainer)?;
    ensure!(
        is_sent && lost.is_empty(),
        "all sent: {is_sent}, lost:{lost}"
    );
    Ok(())
}

// How many items of each category the transport has lost.
fn lost_items(alloc: Global, drainer: Drainer) -> Result<String> {
    let mut drainer = drainer;
    let (_, losses) = drainer.drain().into_parts();
    let mut text = String::new(alloc);
    for index in 0..CATEGORIES {
        let category = Category::at(index);
        let count = losses.get(category, Reason::InternalSdkError);
        if count != 0 {
            write!(text, " {} {count}", category.as_str())?;
        }
    }
    Ok(text)
}

fn options(alloc: Global) -> Result<ClientOptions, Refusal> {
    setup::options(alloc)?
        .release("shop@1.0.0")?
        .environment("staging")?
        .traces_sample_rate(1_000_000)
}

#[derive(Debug, Drop, Error)]
enum TillError {
    #[error("the drawer {number} is stuck")]
    DrawerStuck { number: u64 },
}

#[derive(Debug, Drop, Error)]
enum SaleError {
    #[error("the sale of {count} lamps failed")]
    Failed { count: u64, source: TillError },
}

// Of bytes that are no text, with a newline at its end.
fn receipt(alloc: Global) -> Result<Attachment> {
    let mut content = Vec::new(alloc);
    content.extend_from_slice(b"2 lamps\n\n\"round\" \0\0\n")?;
    Ok(Attachment {
        filename: Text::new(alloc, "receipt.bin")?,
        buffer: Items::from_vec(content),
        content_type: None,
    })
}

// A transaction with two children, an error with its cause, a log and a counter.
fn sell_lamps<L: CoreLock, K: Clock + Drop>(thread: &mut Thread<L, K>) -> Result<()> {
    let context = transaction_context(thread, "sell", "till")?;
    in_transaction(thread, context, |thread, sale| -> Result<()> {
        in_span(
            thread,
            sale,
            "db.query",
            "take 2 lamps",
            |_, _| -> Result<()> { Ok(()) },
        )?;
        in_span(
            thread,
            sale,
            "till.open",
            "open the drawer",
            |thread, span| -> Result<()> {
                let error = SaleError::Failed {
                    count: 2,
                    source: TillError::DrawerStuck { number: 3 },
                };
                let SaleError::Failed { source, .. } = &error;
                capture_error(thread, (&error, source))?;
                logger_warn!(
                    thread,
                    drawer = 3u64,
                    "the drawer of till {} is stuck",
                    1u64
                )?;
                span.set_status(SpanStatus::InternalError)?;
                Ok(())
            },
        )
    })
}

// What happens in the shop.
fn open_shop<L: CoreLock, K: Clock + Drop>(thread: &mut Thread<L, K>) -> Result<()> {
    let alloc = thread.current.allocator();
    configure_scope(thread, |scope| scope.set_tag("till", "1"))?;
    start_session(thread)?;
    add_breadcrumb(thread, ("shelf", "the shelf was \"counted\""))?;
    let receipt = receipt(alloc)?;
    configure_scope(thread, |scope| scope.add_attachment(receipt))?;
    sell_lamps(thread)?;
    counter(alloc, "lamps.sold", 0)?
        .attribute("till", 1u64)?
        .capture(thread)?;
    end_session(thread)?;
    Ok(())
}
