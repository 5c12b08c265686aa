//! How `replay` prints envelopes: one line each.
#![tactic(auto)]

pub mod print;
