//! The options of a client that lets all be sent, and turns on the current hub of a thread.
use crate::texts::Texts;
use crate::turns::{HubTurn, make_turns, prepare};
use sentry_core::protocol::Refusal;
use sentry_core::{ClientOptions, Clock, Generator};
use sentry_hub::Hub;
use sentry_lock::CoreLock;
use sentry_thread_hub::ThreadHub;
use std::alloc::Global;

/// The hubs of a thread over any lock. What acts on them is generic in the lock: that is proved faster than over boxes.
pub type Thread<L, K> = ThreadHub<Hub<L>, K, Generator>;

/// With a release, which sessions need, and a rate at which every transaction is sent.
pub fn options(alloc: Global) -> Result<ClientOptions, Refusal> {
    ClientOptions::from_dsn(alloc, "https://public@sentry.invalid/1")?
        .release("shop@1.0.0")?
        .traces_sample_rate(1_000_000)
}

/// Makes so many turns on the current hub of a thread, and answers how many did what they were to do.
pub fn make_on_hub<T: Texts, L: CoreLock, K: Clock + Drop>(
    thread: &mut Thread<L, K>,
    turn: HubTurn,
    turns: u64,
) -> Result<u64, Refusal> {
    prepare::<T, L, K>(thread, turn)?;
    make_turns::<T, L, K>(thread, turn, turns)
}
