//! Which client each clone was made of.
use sentry_plain::Table;
use std::alloc::{AllocError, Global};

/// The originals of clones, by the numbers of both. A clone has the transport and the label of its original.
#[derive(Drop)]
pub struct Originals {
    of_clones: Table<u64>,
}

impl Originals {
    /// No clones. It takes no memory.
    pub fn new(alloc: Global) -> Originals {
        Originals {
            of_clones: Table::new(alloc),
        }
    }

    /// The original of a client, which is the client itself where it is no clone.
    pub fn of(&self, client: u64) -> u64 {
        self.of_clones.get(client).copied().unwrap_or(client)
    }

    /// Notes a clone of a client.
    pub fn note(&mut self, clone: u64, client: u64) -> Result<(), AllocError> {
        let original = self.of(client);
        self.of_clones.insert(clone, original)
    }
}
