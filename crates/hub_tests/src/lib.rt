//! Tests of what neither a contract nor a scenario shows of hubs as users name them: of the hubs of a thread, of the
//! functions on its current hub, and of closures, errors, guards, futures, integrations, macros, threads and a worker.
#![tactic(auto)]

#[cfg(test)]
mod breadcrumbs;
#[cfg(test)]
mod closed;
#[cfg(test)]
mod closures;
#[cfg(test)]
mod current;
#[cfg(test)]
mod ends;
#[cfg(test)]
mod errors;
#[cfg(test)]
mod guards;
#[cfg(test)]
mod hubs;
#[cfg(test)]
mod integrations;
#[cfg(test)]
mod logs;
#[cfg(test)]
mod polls;
#[cfg(test)]
mod ready;
#[cfg(test)]
mod scoped;
#[cfg(test)]
mod scopes;
#[cfg(test)]
mod sketch;
#[cfg(test)]
mod spans;
#[cfg(test)]
mod steadfast;
#[cfg(test)]
mod threads;
#[cfg(test)]
mod workshop;
