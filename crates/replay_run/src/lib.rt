//! What the program `replay` does: it executes commands, one a line, on an engine, and prints the engine's envelopes.
#![tactic(auto)]

mod call;
mod command;
mod engine;
mod fault;
mod lines;
mod print;
mod run;
mod word;
mod write;

pub use call::client_dsn_has_its_parts;
pub use command::line_spells_at_most_one_command;
pub use fault::ReplayFault;
pub use run::run_replay;
