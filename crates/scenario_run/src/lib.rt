//! What the program `scenario` does with its input: commands, a line each, are done on an engine, and what each call
//! answers is printed, with every envelope in full.
#![tactic(auto)]

mod answer;
mod attributes;
mod breadcrumbs;
pub mod callbacks;
pub mod caller;
mod captures;
mod client_events;
mod clients;
mod commands;
mod copies;
mod fault;
mod headers;
mod hubs;
mod layers;
mod lines;
mod logs;
mod losses;
mod metrics;
mod options;
mod originals;
mod print;
mod replies;
mod rich;
mod run;
mod scenario;
mod scopes;
mod sessions;
mod settings;
mod span_edits;
mod spans;
mod texts;
mod transactions;

pub use fault::ScenarioFault;
pub use print::Envelopes;
pub use run::{run_scenario, run_scenario_by};
pub use scenario::TAG;
