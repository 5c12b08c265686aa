//! Release health of a server: a session for each request, counted by minute and by user.
use crate::clocks::Steps;
use crate::printing::Printer;
use crate::setup;
use crate::setup::{SEED, Thread};
use anyhow::Result;
use sentry_core::protocol::{Refusal, SessionStatus};
use sentry_core::{
    BoxedClock, BoxedGate, BoxedTransport, ClientOptions, Clock, Level, SessionMode, Text, User,
    capture_message, configure_scope, end_session, end_session_with_status, start, start_session,
};
use sentry_lock::CoreLock;
use std::alloc::Global;

/// Runs the example. The clock makes five seconds a step, so that a user's requests take more than a minute.
pub fn run(rt: HostRuntime, wait: BoxedGate) -> Result<()> {
    let alloc = rt.alloc();
    let transport: BoxedTransport = Box::new(alloc, Printer(rt))?;
    let clock: BoxedClock = Box::new(alloc, Steps::of_seconds(5))?;
    let (sentry, mut thread) = start(alloc, wait, options(alloc)?, transport, clock, SEED)?;
    serve_user(&mut thread, "ada")?;
    serve_user(&mut thread, "eve")?;
    sentry.close()?;
    Ok(())
}

// Sessions are counted, and sent as counts.
fn options(alloc: Global) -> Result<ClientOptions, Refusal> {
    let options = setup::options(alloc)?.release("shop@1.0.0")?;
    Ok(options.session_mode(SessionMode::Request))
}

// How a request ends.
#[derive(Clone, Copy)]
enum Ending {
    Well,
    WithError,
    Crashed,
}

// One request, in a session of its own.
fn serve<L: CoreLock, K: Clock>(thread: &mut Thread<L, K>, ending: Ending) -> Result<()> {
    start_session(thread)?;
    match ending {
        Ending::Well => end_session(thread)?,
        Ending::WithError => {
            capture_message(thread, "no lamps", Level::Error)?;
            end_session(thread)?;
        }
        Ending::Crashed => end_session_with_status(thread, SessionStatus::Crashed)?,
    }
    Ok(())
}

// Requests of a user, the third of them with an error.
fn serve_user<L: CoreLock, K: Clock>(thread: &mut Thread<L, K>, user: &str) -> Result<()> {
    let alloc = thread.current.allocator();
    let mut known = User::new(alloc);
    known.id = Some(Text::new(alloc, user)?);
    configure_scope(thread, |scope| scope.set_user(Some(known)))?;
    for number in 0..12 {
        let ending = if number == 2 {
            Ending::WithError
        } else {
            Ending::Well
        };
        serve(thread, ending)?;
    }
    serve(thread, Ending::Crashed)
}
