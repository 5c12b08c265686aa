//! A server whose requests have a hub, a session and a transaction each, which continues the trace of the request's headers
//! and has the status of the response. What goes wrong is captured where it happens, and tells of the request.
use crate::clocks::Steps;
use crate::printing::Printer;
use crate::setup;
use crate::setup::{SEED, Thread};
use anyhow::Result;
use sentry_core::protocol::Refusal;
use sentry_core::{
    BoxedClock, BoxedGate, BoxedTransport, ClientOptions, Clock, IncomingRequest, RequestOptions,
    SessionMode, capture_error, in_request_with, set_tag, start,
};
use sentry_lock::CoreLock;
use std::alloc::Global;
use thiserror::Error;

/// The headers of a request that another service made.
const CONTINUED: [(&str, &str); 3] = [
    ("Host", "shop.invalid"),
    ("Cookie", "basket=7"),
    (
        "Sentry-Trace",
        "09e04486820349518ac7b5d2adbf6ba5-9cf635fa5b870b3a-1",
    ),
];

/// A request's URL and its headers.
const REQUESTS: [(&str, &[(&str, &str)]); 3] = [
    ("/lamps?key=1", &CONTINUED),
    ("/chairs", &[]),
    ("/tables", &CONTINUED),
];

/// Runs the example.
pub fn run(rt: HostRuntime, wait: BoxedGate) -> Result<()> {
    let alloc = rt.alloc();
    let transport: BoxedTransport = Box::new(alloc, Printer(rt))?;
    let clock: BoxedClock = Box::new(alloc, Steps::of_seconds(1))?;
    let (sentry, mut thread) = start(alloc, wait, options(alloc)?, transport, clock, SEED)?;
    serve(&rt, &mut thread)?;
    sentry.close()?;
    Ok(())
}

// Each transaction is sent, and a session for each request.
fn options(alloc: Global) -> Result<ClientOptions, Refusal> {
    let options = setup::options(alloc)?
        .release("shop@1.0.0")?
        .traces_sample_rate(1_000_000)?;
    Ok(options.session_mode(SessionMode::Request))
}

// One request after another.
fn serve<R: Print, L: CoreLock, K: Clock + Drop>(rt: &R, thread: &mut Thread<L, K>) -> Result<()> {
    set_tag(thread, "worker", 1)?;
    for (url, headers) in REQUESTS {
        let (request, options) = (IncomingRequest::get(url, headers), RequestOptions::new());
        let path = path_of(url);
        let status = in_request_with(
            thread,
            path,
            &request,
            options.session(true),
            |thread, _| answer(thread, path),
        )?;
        println!(rt; "GET {url}: {status}")?;
    }
    Ok(())
}

// What stands before the query.
fn path_of(url: &str) -> &str {
    match url.split_once('?') {
        Some((path, _)) => path,
        None => url,
    }
}

// Why the shop has no page.
#[derive(Debug, Drop, Error)]
enum ShopError {
    #[error("there are no chairs")]
    NoChairs,
    #[error("the shelf is on fire")]
    OnFire,
}

// The page of a path.
fn find_page(path: &str) -> Result<&'static str, ShopError> {
    match path {
        "/lamps" => Ok("two lamps"),
        "/chairs" => Err(ShopError::NoChairs),
        _ => Err(ShopError::OnFire),
    }
}

// The status of the response.
fn answer<L: CoreLock, K: Clock>(thread: &mut Thread<L, K>, path: &str) -> Result<u16> {
    let Err(error) = find_page(path) else {
        return Ok(200);
    };
    capture_error(thread, &error)?;
    match error {
        ShopError::NoChairs => Ok(404),
        ShopError::OnFire => Ok(500),
    }
}
