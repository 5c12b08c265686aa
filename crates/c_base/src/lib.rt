//! What crosses to other languages, as numbers and bytes: faults, records, and the envelopes that wait to be fetched.
#![tactic(auto)]

pub mod fault;
pub mod ids;
pub mod numbers;
pub mod outbox;
pub mod queue;
