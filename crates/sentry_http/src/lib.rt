//! Requests of a server: a hub and a transaction for each, which continues the trace of its headers, what is told of it, and
//! the headers for the next service.
#![tactic(auto)]

pub mod headers;
pub mod middleware;
pub mod requests;
pub mod statuses;
