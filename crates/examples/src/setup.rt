//! What several examples begin with.
use sentry_core::protocol::{Draw, Fresh, Refusal, SpanId, TraceId, Uuid};
use sentry_core::{ClientOptions, Generator};
use sentry_hub::Hub;
use sentry_thread_hub::ThreadHub;
use std::alloc::Global;

/// The hubs of a thread over any lock and clock. A function on these is proved sooner than one on
/// `sentry_core::ThreadHub`, which names the boxes.
pub type Thread<L, K> = ThreadHub<Hub<L>, K, Generator>;

/// What ids are drawn from: the same ones at each run.
pub const SEED: [u8; 32] = [7; 32];

/// The DSN of the clients. Nothing is sent to it.
pub const DSN: &str = "https://public@sentry.invalid/1";

/// The options of a client that has a DSN.
pub fn options(alloc: Global) -> Result<ClientOptions, Refusal> {
    ClientOptions::from_dsn(alloc, DSN)
}

/// What a call of an engine is handed at a moment. A real program draws the ids at random.
pub fn fresh(now: u64, id: u128) -> Fresh {
    Fresh {
        now,
        uuid: Uuid::from_u128(id),
        trace_id: TraceId([1; 16]),
        span_id: SpanId([2; 8]),
        draw: Draw::new(0).unwrap(),
    }
}
