//! What the static library `dochirwa` exports, as methods: an engine with filters in place of callbacks, and an outbox
//! for the envelopes that its calls hand out.
#![tactic(auto)]

mod callbacks;
mod calls;
mod moments;
mod outbox_engine;

pub use callbacks::NoProcessor;
pub use outbox_engine::OutboxEngine;
