//! How transactions and spans change and are read, as functions over a state, and what a span says of a request.
#![tactic(auto)]

pub mod edit;
pub mod edits;
pub mod reads;
pub mod requests;
pub mod setters;
