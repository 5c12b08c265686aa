//! How clients are made, held and given back.
ghost use Rattle.std.specs.List.{list_any};
ghost use Rattle.std.specs.Prelude.{◌≡◌, IfOk, OnOk, OnErr};
ghost use Rattle.sentry_plain.specs.Tables.{put, without};
ghost use Rattle.sentry_state.specs.Worlds.{World, ClientHistory, Stands, stored_client, stored_queues};
ghost use Rattle.sentry_state.specs.Books.{with_book, is_label, without_unused_book};
ghost use Rattle.sentry_options.specs.Options.{set_up};
ghost use Rattle.sentry_state.specs.Clients.{is_enabled_client, has_session_of, new_client, clone_from, queues_from};

use crate::state::{ClientState, Queues, State};
use sentry_base::protocol::{ClientKey, Label};
use sentry_batches::Batch;
use sentry_batches::tick::LastTick;
use sentry_client_reports::LossBook;
use sentry_options::{Callbacks, ClientOptions, PlainOptions};
use sentry_pipeline::os_attributes::os_attributes;
use sentry_pipeline::pipeline::{default_log_attributes, default_metric_attributes, sdk_info};
use sentry_plain::{Shared, Table};
use sentry_sessions::{SessionQueue, session_attributes};
use std::alloc::{AllocError, Global};

// A share of the options, after the `setup` of their integrations.
fn set_up<C: Callbacks>(
    alloc: Global,
    mut options: ClientOptions<C>,
) -> Result<Shared<ClientOptions<C>>, AllocError>
    ensures { IfOk result (λ share. share ≡ set_up C.meanings options) }
{
    options.set_up()?;
    Shared::new(alloc, options)
}

// The queues of a client with these options that is made at a moment.
fn queues_from(alloc: Global, options: &PlainOptions, now: u64) -> Queues
    ensures { result ≡ stored_queues options.now (queues_from now) }
{
    Queues {
        sessions: SessionQueue::new(alloc, options.session_mode),
        session_tick: LastTick(now),
        logs: Batch::new(alloc, options.max_batch_items, now),
        metrics: Batch::new(alloc, options.max_batch_items, now),
    }
}

/// A client with these options, after the `setup` of its integrations.
#[tactic(auto, unfolding(crate::specs::Clients::new_client))]
pub fn new_client<C: Callbacks>(
    alloc: Global,
    options: ClientOptions<C>,
    transport: bool,
    label: Label,
    now: u64,
) -> Result<ClientState<C>, AllocError>
    ensures client { IfOk result (λ client.
        client ≡ stored_client (new_client C.meanings options transport label now)) }
    ensures label { IfOk result (λ client. client.label ≡ label) }
{
    let occupied = options.plain.dsn.is_some() && transport;
    let options = set_up(alloc, options)?;
    let os = os_attributes(alloc, options.get(), now)?;
    let sdk = sdk_info(alloc, &options.get().callbacks)?;
    let log_attributes = default_log_attributes(alloc, &options.get().plain, &os)?;
    let metric_attributes = default_metric_attributes(alloc, &options.get().plain)?;
    let session_attributes = session_attributes(alloc, &options.get().plain)?;
    let queues = queues_from(alloc, &options.get().plain, now);
    Ok(ClientState {
        options,
        label,
        occupied,
        sdk,
        log_attributes,
        metric_attributes,
        session_attributes,
        closed: false,
        queues,
    })
}

/// A clone of a client that is made at a moment.
pub fn clone_of<C: Drop>(
    alloc: Global,
    client: &ClientState<C>,
    now: u64,
) -> Result<ClientState<C>, AllocError>
    ensures { IfOk result (λ clone. (state : ClientHistory C) → client.now ≡ stored_client state →
        clone ≡ stored_client (clone_from now state)) }
{
    Ok(ClientState {
        options: client.options.clone()?,
        label: client.label,
        occupied: client.occupied,
        sdk: client.sdk.clone()?,
        log_attributes: client.log_attributes.clone()?,
        metric_attributes: client.metric_attributes.clone()?,
        session_attributes: client.session_attributes.clone()?,
        closed: false,
        queues: queues_from(alloc, &client.options.get().plain, now),
    })
}

// Whether a client has the label.
fn has_client_of<C>(clients: &Table<ClientState<C>>, label: Label) -> bool
    ensures { result ≡ list_any (λ entry. is_label label entry.1.label) clients.now }
{
    for (_, client) in clients.iter() {
        if client.label == label {
            return true;
        }
    }
    false
}

impl<C> ClientState<C> {
    /// Whether it has a DSN, now and when it was added, and a transport.
    pub fn is_enabled(&self) -> bool
        ensures { result ≡ is_enabled_client self.now }
    {
        self.options.get().plain.dsn.is_some() && self.occupied
    }
}

impl<P: Drop, C: Callbacks> State<P, C> {
    /// Holds a client under a number.
    #[tactic(auto, using(crate::proofs::Keeping::stored_in_world))]
    pub fn insert_client(&mut self, number: u64, client: ClientState<C>) -> Result<(), AllocError>
        ensures in_world { OnOk result ((world : World P C) (state : ClientHistory C) → Stands self.old world →
            client ≡ stored_client state → Stands self.new (record world { clients = put world.clients number state })) }
        ensures rest { OnOk result ((self.new.tag ≡ self.old.tag) × (self.new.next ≡ self.old.next)
            × (self.new.books ≡ self.old.books)) }
        ensures err { OnErr result (self.new ≡ self.old) }
    {
        // So that a layer can name it without memory.
        self.hubs.expect_client(number)?;
        self.clients.insert(number, client)
    }

    /// Holds a client under a number, and a book for its label, if there is none yet.
    #[tactic(auto, using(crate::proofs::Keeping::stored_in_world, crate::proofs::Keeping::without_put))]
    pub fn insert_client_and_book(
        &mut self,
        number: u64,
        client: ClientState<C>,
    ) -> Result<(), AllocError>
        ensures in_world { OnOk result ((world : World P C) (state : ClientHistory C) → Stands self.old world →
            client ≡ stored_client state → Stands self.new (record world {
              clients = put world.clients number state;
              books = with_book world.books client.label.number;
            })) }
        ensures rest { OnOk result ((self.new.tag ≡ self.old.tag) × (self.new.next ≡ self.old.next)) }
        ensures err { OnErr result (self.new ≡ self.old) }
    {
        let label = client.label.number;
        if self.books.get(label).is_some() {
            return self.insert_client(number, client);
        }
        self.hubs.expect_client(number)?;
        self.books.insert(label, LossBook::new())?;
        match self.clients.insert(number, client) {
            Ok(()) => Ok(()),
            Err(error) => {
                self.books.discard(label);
                Err(error)
            }
        }
    }

    /// Removes a client.
    #[tactic(auto, using(crate::proofs::Keeping::without_map_values))]
    pub fn remove_client(&mut self, number: u64)
        ensures { (world : World P C) → Stands self.old world →
            Stands self.new (record world { clients = without world.clients number }) }
    {
        self.clients.discard(number);
        self.hubs.forget_client(number);
        self.sessions.forget_client(number);
    }

    /// Removes the book of a label, unless a client has the label.
    pub fn remove_unused_book(&mut self, label: Label)
        ensures { (world : World P C) → Stands self.old world →
            Stands self.new (without_unused_book label world) }
    {
        if has_client_of(&self.clients, label) {
            return;
        }
        self.books.discard(label.number);
    }

    /// Whether a session that goes on was started under the client. It looks at no session, unless the key is of another
    /// engine.
    pub fn has_session_of(&self, client: ClientKey) -> bool
        ensures { (world : World P C) → Stands self.now world → result ≡ has_session_of client world.sessions }
    {
        self.sessions.has_session_of(client)
    }
}
