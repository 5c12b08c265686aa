//! What leaves an engine, and what is left of its state then: envelopes of a client, and sessions that start and end.
#![tactic(auto)]

pub mod sending;
pub mod session_ends;
pub mod sessions;
