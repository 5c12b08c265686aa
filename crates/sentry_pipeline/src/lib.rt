//! What becomes of an event, a log or a metric between its capture and its envelope.
#![tactic(auto)]

pub mod os_attributes;
pub mod pipeline;
