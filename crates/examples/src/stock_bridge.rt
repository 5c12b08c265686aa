//! A web shop that continues the traces of its callers, logs by the crate `log`, and asks a stock service.
use crate::clocks::Steps;
use crate::printing::Printer;
use crate::setup::{SEED, options};
use anyhow::{Result, ensure};
use log::{Level, Logged, error, info, warn};
use sentry_core::http::headers::outgoing_headers;
use sentry_core::{
    BoxedClock, BoxedGate, BoxedTransport, IncomingRequest, SentryLogger, SystemClock, ThreadHub,
    in_request, in_span, start,
};

const INCOMING: [(&str, &str); 4] = [
    ("Host", "shop.invalid"),
    ("Authorization", "Bearer secret"),
    (
        "sentry-trace",
        "09e04486820349518ac7b5d2adbf6ba5-9cf635fa5b870b3a-1",
    ),
    ("baggage", "sentry-org_id=1,sentry-release=front@1.0.0"),
];

/// A page, whose lamps another service counts.
fn handle(rt: HostRuntime, thread: &mut ThreadHub) -> Result<u16> {
    let request = IncomingRequest::get("/lamps?key=1", &INCOMING);
    in_request(thread, "GET /lamps", &request, |thread, transaction| {
        let sink = SentryLogger::of(thread, SystemClock(rt))?;
        let log = Logged::new(rt, Level::Info, sink);
        info!(log; target: "shop", page = "lamps"; "a page is asked for");
        in_span(
            thread,
            transaction,
            "http.client",
            "GET /stock",
            |_, span| -> Result<()> {
                let headers = outgoing_headers(rt.alloc(), span.iter_headers()?, request.headers)?;
                for (name, value) in headers.as_slice() {
                    println!(rt; "to stock: {}: {}", name.as_str(), value.as_str())?;
                }
                Ok(())
            },
        )?;
        warn!(log; target: "stock", "2 lamps are left");
        error!(log; target: "stock", "the stock service is slow");
        Ok(200)
    })
}

/// Runs the example.
pub fn run(rt: HostRuntime, wait: BoxedGate) -> Result<()> {
    let transport: BoxedTransport = Box::new(rt.alloc(), Printer(rt))?;
    let clock: BoxedClock = Box::new(rt.alloc(), Steps::of_seconds(1))?;
    let options = options(rt.alloc())?
        .release("shop@1.0.0")?
        .traces_sample_rate(1_000_000)?;
    let (sentry, mut thread) = start(rt.alloc(), wait, options, transport, clock, SEED)?;
    println!(rt; "status {}", handle(rt, &mut thread)?)?;
    ensure!(sentry.close()?, "the transport has not sent all");
    Ok(())
}
