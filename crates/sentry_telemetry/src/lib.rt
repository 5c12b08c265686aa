//! What comes to the queues of a client, and what leaves them: logs and metrics, and flushes.
#![tactic(auto)]

pub mod flushes;
mod prepared_envelopes;
pub mod telemetry;
