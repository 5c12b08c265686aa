//! A queue of envelopes between a client and a transport that is slower, or that a server asked to send less.

mod limits;
mod queue_core;
mod recording;
mod removing;

pub use queue_core::{QueueCore, queue_keeps_order};
