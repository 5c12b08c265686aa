//! What a caller that keeps something beside an engine has to know of it.
ghost use Rattle.std.specs.Prelude.{◌≡◌, Some, None, [], if◌then◌else◌, length, IfOk, unwrap_or};
ghost use Rattle.std.specs.Option.{option_map, option_and_then};
ghost use Rattle.sentry_hub_table.specs.Names.{all_layers};
ghost use Rattle.sentry_state.specs.Books.{has_book};
ghost use Rattle.sentry_state.specs.Outcomes.{client_at, hub_at};
ghost use Rattle.sentry_state.specs.Worlds.{World, Stands};

use crate::engine::Engine;
use sentry_base::protocol::{ClientKey, HubKey, Label};
use sentry_options::Callbacks;
use sentry_plain::{CopyOnWrite, Items, Shared};
use std::alloc::AllocError;

/// The event processors of a scope, as a share.
pub type EventProcessors<P> = CopyOnWrite<Items<Shared<P>>>;

/// How many clients, hubs, layers of all hubs, transactions, spans, and sessions that go on an engine holds.
#[derive(Clone, Copy, Debug, PartialEq, Eq)]
pub struct Held {
    pub clients: usize,
    pub hubs: usize,
    pub layers: usize,
    pub transactions: usize,
    pub spans: usize,
    pub sessions: usize,
}

impl<P: Drop, C: Callbacks> Engine<P, C> {
    /// How many it holds of each kind. It looks at none of them.
    pub fn held(&self) -> Held
        ensures clients { result.clients ≡ length self.now.clients }
        ensures hubs { result.hubs ≡ length self.now.hubs }
        ensures layers { result.layers ≡ all_layers self.now.hubs }
        ensures transactions { result.transactions ≡ length self.now.spans.transactions }
        ensures spans { result.spans ≡ length self.now.spans.spans }
        ensures sessions { result.sessions ≡ length self.now.sessions }
    {
        Held {
            clients: self.state.clients.len(),
            hubs: self.state.hubs.len(),
            layers: self.state.hubs.layers(),
            transactions: self.state.spans.transaction_count(),
            spans: self.state.spans.span_count(),
            sessions: self.state.sessions.len(),
        }
    }

    /// The number of the next client. The number 2^64-1 is never given.
    pub fn next_client(&self) -> u64
        ensures { (world : World P C) → Stands self.now world → result ≡ world.next.client }
    {
        self.state.next.client
    }

    /// Whether a client names the label. If none does, the calls on losses answer `ForeignLosses`.
    pub fn has_book(&self, label: Label) -> bool
        ensures { (world : World P C) → Stands self.now world → result ≡ has_book world label }
    {
        self.state.has_book(label)
    }

    /// The same, where a place is looked at first: where books and what a caller keeps by labels were added and removed
    /// together, the book lies at the same place.
    #[inline(always)]
    pub fn has_book_near(&self, label: Label, near: usize) -> bool
        ensures { (world : World P C) → Stands self.now world → result ≡ has_book world label }
    {
        self.state.has_book_near(label, near)
    }

    /// The label of a client, or `None` if it isn't held.
    pub fn client_label(&self, client: ClientKey) -> Option<Label>
        ensures { (world : World P C) → Stands self.now world →
            result ≡ option_map (λ held. held.label) (client_at world client) }
    {
        match self.state.client_at(client) {
            None => None,
            Some(held) => Some(held.label),
        }
    }

    /// How long a client may wait for its transport when it is closed, in nanoseconds, by its options; `None` if it
    /// isn't held, or sends nothing: it had no DSN when it was added, or no transport, or was closed.
    pub fn shutdown_timeout(&self, client: ClientKey) -> Option<u64>
        ensures { (world : World P C) → Stands self.now world →
            result ≡ option_and_then
            (λ held. if held.occupied then Some held.options.plain.shutdown_timeout else None)
            (client_at world client) }
    {
        match self.state.client_at(client) {
            None => None,
            Some(held) => match held.occupied {
                true => Some(held.options.get().plain.shutdown_timeout),
                false => None,
            },
        }
    }

    /// The event processors of a hub's top scope, as a share; none if the hub isn't held. As long as the share is held, no
    /// call drops one of them.
    pub fn event_processors(&self, hub: HubKey) -> Result<EventProcessors<P>, AllocError>
        ensures { (world : World P C) → Stands self.now world → IfOk result
            (λ processors. processors ≡ unwrap_or (option_map (λ held. held.stack.top.scope.processors) (hub_at world hub)) []) }
    {
        match self.state.hub_at(hub) {
            None => Ok(CopyOnWrite::new(self.state.alloc)),
            Some(held) => held.stack.top.scope.processors.clone(),
        }
    }
}
