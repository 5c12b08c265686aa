//! Tests of what no text given to a program can show: boxed callbacks, engines that no program makes, keys of another
//! engine, envelopes as bytes, and scopes that a caller holds. Beside them stand callers of `Engine::run` that promise
//! the laws of whole runs.
#![tactic(auto)]

#[cfg(test)]
mod boxes;
#[cfg(test)]
mod callbacks;
#[cfg(test)]
mod counted;
#[cfg(test)]
mod engines;
#[cfg(test)]
mod envelopes;
#[cfg(test)]
mod names;
pub mod promises;
#[cfg(test)]
mod scopes;
#[cfg(test)]
mod starving;
#[cfg(test)]
mod streams;
