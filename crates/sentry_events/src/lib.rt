//! What becomes of a captured event, and of the session and the losses that it counts in.
#![tactic(auto)]

pub mod captures;
