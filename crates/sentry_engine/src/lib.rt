//! The engine: it holds clients and hubs, and decides what every call answers and hands out.
#![tactic(auto)]

pub mod call;
pub mod engine;

pub use engine::{Engine, EventProcessors, Held, Out, ScopeGuard, Sent, one_clears};
