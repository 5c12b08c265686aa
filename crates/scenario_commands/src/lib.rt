//! What each line of a `scenario` asks for. A command names clients and hubs by their numbers, and holds texts as the
//! line has them, so that no engine is needed to read it.
#![tactic(auto)]

pub mod attributes;
pub mod breadcrumbs;
pub mod captures;
pub mod client_events;
pub mod clients;
pub mod headers;
pub mod hubs;
pub mod layers;
pub mod logs;
pub mod losses;
pub mod metrics;
pub mod options;
pub mod quantities;
pub mod scopes;
pub mod sessions;
pub mod settings;
pub mod span_edits;
pub mod spans;
pub mod texts;
pub mod transactions;
pub mod words;
