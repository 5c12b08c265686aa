//! How transactions and spans start, finish, end and are discarded, as functions over a state, and which traces are sampled.
#![tactic(auto)]

pub mod discards;
pub mod ends;
pub mod finishes;
mod prepared;
pub mod sampling;
pub mod starts;
