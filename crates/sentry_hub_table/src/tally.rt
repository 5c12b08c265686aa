//! How many layers name each record of a kind.
mod counting;

use sentry_plain::Table;

/// The key of a record: the tag of its engine, and a number.
#[derive(Clone, Copy)]
pub(crate) struct Key {
    pub tag: u64,
    pub number: u64,
}

/// How many layers name each record of a kind: what stands at its number, if it is of the engine with the tag, and as
/// often as its key stands in the list.
#[derive(Drop)]
pub(crate) struct Tally {
    pub tag: u64,
    pub counts: Table<u128>,
    pub late: Vec<Key>,
}
