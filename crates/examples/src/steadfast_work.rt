//! Work that runs, once, and whose answer is the answer, whatever is refused round it. `tests/work` refuses the requests for
//! memory of `examples steadfast_work` in turn.
use crate::clocks::Steps;
use crate::setup;
use crate::setup::{SEED, Thread};
use anyhow::Result;
use sentry_core::protocol::Refusal;
use sentry_core::{
    BoxedClock, BoxedGate, BoxedTransport, ClientOptions, Envelope, IncomingRequest,
    RequestOptions, SessionMode, Transport, in_new_hub, in_request_with, in_scope, in_span,
    in_transaction_if, start, transaction_context,
};
use sentry_lock::CoreLock;
use std::alloc::Global;

/// What the work answers.
type Answer = Result<u16, NotSold>;

/// Why the work fails, which no refusal becomes.
#[derive(Clone, Copy, Debug, Drop, PartialEq)]
struct NotSold;

/// Forgets what it is to send.
#[derive(Drop)]
struct Nowhere;

impl Transport for Nowhere {
    fn send_envelope(&self, _envelope: Envelope) {}
}

/// Runs the example.
pub fn run(rt: HostRuntime, wait: BoxedGate) -> Result<()> {
    let alloc = rt.alloc();
    let transport: BoxedTransport = Box::new(alloc, Nowhere)?;
    let clock: BoxedClock = Box::new(alloc, Steps::of_seconds(1))?;
    let (sentry, mut thread) = start(alloc, wait, options(alloc)?, transport, clock, SEED)?;
    println!(rt; "the work begins")?;
    work(&rt, &mut thread)?;
    drop(sentry.close());
    Ok(())
}

fn options(alloc: Global) -> Result<ClientOptions, Refusal> {
    let options = setup::options(alloc)?
        .release("shop@1.0.0")?
        .traces_sample_rate(1_000_000)?;
    Ok(options.session_mode(SessionMode::Request))
}

// Prints what work answered, and how often it ran.
fn tell(rt: &impl Print, way: &str, answer: Answer, runs: u64) -> Result<()> {
    match answer {
        Ok(number) => println!(rt; "{way}: ran {runs}, answered {number}")?,
        Err(NotSold) => println!(rt; "{way}: ran {runs}, failed")?,
    }
    Ok(())
}

// Work in each way, which succeeds and which fails, and what the core holds afterwards.
fn work<R: Print, L: CoreLock>(rt: &R, thread: &mut Thread<L, BoxedClock>) -> Result<()> {
    for answer in [Ok(200), Err(NotSold)] {
        in_scopes(rt, thread, answer)?;
        in_spans(rt, thread, answer)?;
        in_requests(rt, thread, answer)?;
    }
    println!(rt; "held: {:?}", thread.current.core())?;
    Ok(())
}

fn in_scopes<R: Print, L: CoreLock>(
    rt: &R,
    thread: &mut Thread<L, BoxedClock>,
    answer: Answer,
) -> Result<()> {
    let mut runs = 0u64;
    let found = in_scope(
        thread,
        |scope| scope.set_tag("till", "3"),
        |_| {
            runs = runs.saturating_add(1);
            answer
        },
    );
    tell(rt, "in_scope", found, runs)?;
    let mut runs = 0u64;
    let found = in_new_hub(thread, |_| {
        runs = runs.saturating_add(1);
        answer
    });
    tell(rt, "in_new_hub", found, runs)
}

fn in_spans<R: Print, L: CoreLock>(
    rt: &R,
    thread: &mut Thread<L, BoxedClock>,
    answer: Answer,
) -> Result<()> {
    let mut runs = 0u64;
    let context = transaction_context(thread, "sell", "till");
    let found = in_transaction_if(thread, context, |thread, sale| -> Answer {
        in_span(thread, sale, "db.query", "take a lamp", |_, _| -> Answer {
            runs = runs.saturating_add(1);
            answer
        })
    });
    tell(rt, "in_span", found, runs)?;
    let mut runs = 0u64;
    let context = transaction_context(thread, "sell", "till");
    let found = in_transaction_if(thread, context, |thread, sale| -> Answer {
        runs = runs.saturating_add(1);
        // it is not ended here
        drop(sale.start_child("db.query", "take a lamp", thread.fresh()));
        answer
    });
    tell(rt, "in_transaction", found, runs)
}

fn in_requests<R: Print, L: CoreLock>(
    rt: &R,
    thread: &mut Thread<L, BoxedClock>,
    answer: Answer,
) -> Result<()> {
    let mut runs = 0u64;
    let request = IncomingRequest::get("/lamps", &[("Host", "shop.invalid")]);
    let options = RequestOptions::new().session(true);
    let found = in_request_with(thread, "/lamps", &request, options, |_, _| -> Answer {
        runs = runs.saturating_add(1);
        answer
    });
    tell(rt, "in_request", found, runs)
}
