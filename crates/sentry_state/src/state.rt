//! What an engine holds, and how it is found.
ghost use Rattle.std.specs.Prelude.{◌≡◌, [], Some, true, is_some, OnSome, option_copied};
ghost use Rattle.sentry_plain.specs.Tables.{value_at};
ghost use Rattle.std.specs.Option.{option_map};
ghost use Rattle.sentry_state.specs.Worlds.{World, Stands, starting_world, stored_session};
ghost use Rattle.sentry_state.specs.Outcomes.{hub_at, stored_client_at, is_held_or_none, named_session};

mod books;
mod client_queues;
pub mod clients;
mod hubs;
mod sessions;
mod spans;

use crate::session_table::SessionTable;
use sentry_base::protocol::{
    ClientKey, ClientSdkInfo, Envelope, HubKey, Label, Log, LogAttribute, Metric,
    SessionAttributes, SessionKey,
};
use sentry_batches::Batch;
use sentry_batches::tick::LastTick;
use sentry_client_reports::LossBook;
pub use sentry_hub_table::HubState;
use sentry_hub_table::HubTable;
use sentry_options::{Callbacks, ClientOptions};
use sentry_plain::{Items, Shared, Table, TextMap};
use sentry_sessions::{Session, SessionQueue};
use sentry_span_table::SpanTable;
use std::alloc::{AllocError, Global};

/// Envelopes that a call hands out, in order, each with the client whose transport is to send it.
pub type Sent = Items<(ClientKey, Envelope)>;

/// The reply of a call, and the envelopes that it hands out.
#[derive(Drop)]
pub struct Out<T> {
    pub reply: T,
    pub sent: Sent,
}

/// What waits in a client to be sent.
pub struct Queues {
    pub sessions: SessionQueue,
    /// The last due tick of the ended sessions. The batches have their own.
    pub session_tick: LastTick,
    pub logs: Batch<Log>,
    pub metrics: Batch<Metric>,
}

impl Drop for Queues {
    fn drop(self) {
        let Queues {
            sessions: _,
            session_tick: _,
            logs: _,
            metrics: _,
        } = self;
    }
}

/// What an engine keeps of a client.
pub struct ClientState<C> {
    pub options: Shared<ClientOptions<C>>,
    /// Names the table of losses that it records into.
    pub label: Label,
    /// Whether its transport slot is occupied: it had a DSN when it was added, and it has a transport.
    pub occupied: bool,
    /// What its events and transactions say of the SDK.
    pub sdk: Shared<ClientSdkInfo>,
    /// What its logs have by default.
    pub log_attributes: TextMap<LogAttribute>,
    /// What its metrics have by default.
    pub metric_attributes: TextMap<LogAttribute>,
    /// What its sessions have. Without a release it has no sessions.
    pub session_attributes: Option<Shared<SessionAttributes>>,
    /// Whether nothing comes to the queues any more.
    pub closed: bool,
    pub queues: Queues,
}

impl<C: Drop> Drop for ClientState<C> {
    fn drop(self) {
        let ClientState {
            options: _,
            label: _,
            occupied: _,
            sdk: _,
            log_attributes: _,
            metric_attributes: _,
            session_attributes: _,
            closed: _,
            queues: _,
        } = self;
    }
}

/// The next number of each kind of key.
#[derive(Clone, Copy)]
pub struct NextNumbers {
    pub client: u64,
    pub hub: u64,
    pub session: u64,
    pub transaction: u64,
    pub span: u64,
}

/// Everything that an engine holds. `P` is the type of a scope's processors, `C` that of a client's callbacks.
pub struct State<P, C> {
    /// Each key that the engine gives carries it.
    pub tag: u64,
    pub next: NextNumbers,
    pub clients: Table<ClientState<C>>,
    /// It also keeps how many layers name each client, session, transaction and span.
    pub hubs: HubTable<P>,
    /// The sessions that go on. It also keeps how many of them were started under each client.
    pub sessions: SessionTable,
    /// The losses of each label that a client names, by the label's number.
    pub books: Table<LossBook>,
    /// The transactions and spans that were not discarded.
    pub spans: SpanTable,
    pub alloc: Global,
}

impl<P: Drop, C: Drop> Drop for State<P, C> {
    fn drop(self) {
        let State {
            tag: _,
            next: _,
            clients: _,
            hubs: _,
            sessions: _,
            books: _,
            spans: _,
            alloc: _,
        } = self;
    }
}

impl<P: Drop, C: Callbacks> State<P, C> {
    /// A state that holds nothing, with key numbers that count up from `first`. The number 2^64-1 is never given. It
    /// takes no memory.
    pub fn starting_at(alloc: Global, tag: u64, first: u64) -> State<P, C>
        ensures { Stands result (starting_world tag first) }
    {
        State {
            tag,
            next: NextNumbers {
                client: first,
                hub: first,
                session: first,
                transaction: first,
                span: first,
            },
            clients: Table::new(alloc),
            hubs: HubTable::new(alloc, tag),
            sessions: SessionTable::new(alloc, tag),
            books: Table::new(alloc),
            spans: SpanTable::with_tag(alloc, tag),
            alloc,
        }
    }

    /// The hub of a key, or `None` if it isn't held.
    pub fn hub_at(&self, key: HubKey) -> Option<&HubState<P>>
        ensures in_world { (world : World P C) → Stands self.now world → option_copied result ≡ hub_at world key }
        ensures in_table { (hub : HubState P) → option_copied result ≡ Some hub →
            value_at self.now.hubs key.number ≡ Some hub }
        ensures held { OnSome result (is_some (value_at self.now.hubs key.number) ≡ true) }
    {
        if key.tag != self.tag {
            return None;
        }
        self.hubs.get(key.number)
    }

    /// The client of a key, or `None` if it isn't held.
    #[tactic(auto, using(crate::proofs::Keeping::found_in_world))]
    pub fn client_at(&self, key: ClientKey) -> Option<&ClientState<C>>
        ensures in_world { (world : World P C) → Stands self.now world → option_copied result ≡ stored_client_at world key }
        ensures in_table { (client : ClientState C) → option_copied result ≡ Some client →
            value_at self.now.clients key.number ≡ Some client }
        ensures held { OnSome result (is_some (value_at self.now.clients key.number) ≡ true) }
    {
        if key.tag != self.tag {
            return None;
        }
        self.clients.get(key.number)
    }

    /// The session that a layer names, if it still goes on.
    #[tactic(auto, using(crate::proofs::Keeping::session_in_world))]
    pub fn named_session(&self, name: Option<SessionKey>) -> Option<&Session>
        ensures { (world : World P C) → Stands self.now world →
            option_copied result ≡ option_map stored_session (named_session world name) }
    {
        let key = name?;
        if key.tag != self.tag {
            return None;
        }
        self.sessions.get(key.number)
    }

    /// Whether no client is named, or one that is held.
    pub fn holds(&self, client: Option<ClientKey>) -> bool
        ensures { (world : World P C) → Stands self.now world → result ≡ is_held_or_none world client }
    {
        match client {
            None => true,
            Some(key) => self.client_at(key).is_some(),
        }
    }

    /// The reply of a call that hands nothing out.
    pub fn out<T>(&self, reply: T) -> Out<T>
        ensures { result ≡ record { reply = reply; sent = [] } }
    {
        Out {
            reply,
            sent: Items::new(self.alloc),
        }
    }
}
