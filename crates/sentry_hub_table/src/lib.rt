//! The hubs of an engine, with the number of layers that name each client, session, transaction and span.
#![tactic(auto)]

pub mod hub;
pub mod hub_table;
mod names;
mod tally;

pub use hub::HubState;
pub use hub_table::HubTable;
