//! Tests of what stands below or beside the engine, where no text given to a program can show it: clones and `==`,
//! values that are read as a DSN, options, contexts of transactions, requests, drafts of logs and metrics, a queue of sessions,
//! losses that threads count and drain, a queue of envelopes, and guards of a thread.
#![tactic(auto)]

#[cfg(test)]
mod contexts;
#[cfg(test)]
mod environment;
#[cfg(test)]
mod guards;
#[cfg(test)]
mod items;
#[cfg(test)]
mod logs;
#[cfg(test)]
mod losses;
#[cfg(test)]
mod metrics;
#[cfg(test)]
mod options;
#[cfg(test)]
mod plain;
#[cfg(test)]
mod queueing;
#[cfg(test)]
mod records;
#[cfg(test)]
mod requests;
#[cfg(test)]
mod sessions;
#[cfg(test)]
mod texts;
