//! What commands act on, and what lines set for those that follow.
use crate::headers::Header;
use crate::originals::Originals;
use sentry_base::protocol::{ClientKey, Draw, Fresh, HubKey, Label, SpanId, TraceId, Uuid};
use sentry_plain::{Items, Table};
use std::alloc::Global;

/// The tag of the keys of what makes the calls.
pub const TAG: u64 = 0;

const NANOSECONDS: u64 = 1_000_000_000;

/// What makes the calls, and what lines set for those that follow.
pub struct Scenario<E> {
    pub alloc: Global,
    pub caller: E,
    /// How many clients there are.
    pub clients: u64,
    /// Which client each clone was made of.
    pub originals: Originals,
    /// The depth of each hub that was pushed onto, by its number.
    pub depths: Table<usize>,
    /// The number of the line that is being done.
    pub line: u64,
    /// The moment of each line in nanoseconds, or none where each has its own.
    pub now: Option<u64>,
    /// The draw of each line.
    pub draw: Draw,
    /// The headers that are kept for the next line that reads them.
    pub headers: Items<Header>,
}

impl<E: Drop> Drop for Scenario<E> {
    fn drop(self) {
        let Scenario {
            alloc: _,
            caller: _,
            clients: _,
            originals: _,
            depths: _,
            line: _,
            now: _,
            draw: _,
            headers: _,
        } = self;
    }
}

/// The key of the client of this number.
pub fn client_key(number: u64) -> ClientKey {
    ClientKey { tag: TAG, number }
}

/// The label of the client of this number, which is no clone.
pub fn client_label(number: u64) -> Label {
    Label { tag: TAG, number }
}

/// The key of the hub of this number.
pub fn hub_key(number: u64) -> HubKey {
    HubKey { tag: TAG, number }
}

impl<E> Scenario<E> {
    /// The state before the first line, over what holds nothing yet. It takes no memory.
    pub fn new(alloc: Global, caller: E) -> Scenario<E> {
        Scenario {
            alloc,
            caller,
            clients: 0,
            originals: Originals::new(alloc),
            depths: Table::new(alloc),
            line: 0,
            now: None,
            draw: Draw::new(0).unwrap(),
            headers: Items::new(alloc),
        }
    }

    /// The moment of the line: the one that was set, or a second for each line up to this one.
    pub fn moment(&self) -> u64 {
        match self.now {
            Some(now) => now,
            None => self.line.saturating_mul(NANOSECONDS),
        }
    }

    /// The label of a client: that of the client of which it was made, where it is a clone.
    pub fn label(&self, client: u64) -> Label {
        client_label(self.originals.of(client))
    }

    /// What a call on the line is handed in place of a clock and a generator: ids are the line's number.
    pub fn fresh(&self) -> Fresh {
        let id = u128::from(self.line);
        Fresh {
            now: self.moment(),
            uuid: Uuid::from_u128(id),
            trace_id: TraceId(id.to_be_bytes()),
            span_id: SpanId(self.line.to_be_bytes()),
            draw: self.draw,
        }
    }
}
