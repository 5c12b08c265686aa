//! Records and options that other languages write as text: JSON, and lines of options.
//!
//! What reads them is safe and ends; that the record is the one that was meant is tested. Its faults are of arguments,
//! or want of memory: none is one of the engine's.
#![tactic(auto)]

pub mod attributes;
pub mod breadcrumbs;
pub mod edits;
pub mod events;
pub mod filters;
pub mod json;
mod members;
pub mod metrics;
pub mod options;
pub mod requests;
pub mod stacktraces;
pub mod statuses;
mod users;
