//! The state of an engine: its clients, hubs, sessions and losses by key, and what changes one of them. Each change is
//! stated on the world that the state stands for.
#![tactic(auto)]

pub mod session_table;
pub mod state;

pub use session_table::SessionTable;
pub use state::{ClientState, Out, Queues, Sent, State};
