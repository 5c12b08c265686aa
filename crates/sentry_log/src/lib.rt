//! Records of the crate `log` that become breadcrumbs, events and logs of a hub, by their level and their target.
#![tactic(auto)]

pub mod filter;
pub mod logger;
pub mod mapping;
