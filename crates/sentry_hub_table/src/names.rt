//! The names in the layers of hubs, counted.
ghost use Rattle.std.specs.Prelude.{◌≡◌, ◌<◌, ℕ, length, vec_capacity, OnOk};
ghost use Rattle.sentry_hub_table.specs.declared.tally.Key.{Key};
ghost use Rattle.sentry_hub_table.specs.Tallies.{tally_at, tally_total, Raises, Lowers};
ghost use Rattle.sentry_hub_table.specs.Names.{client_name, session_name, transaction_name, span_name, layer_names};
ghost use Rattle.sentry_hub_table.specs.Names.{HasName, HasNames, HasRoom, HasRoomFor, KeepsNames, RaisesNames, LowersNames};
ghost use Rattle.sentry_hub_table.specs.Names.{HasAllLayers, LowersLayers};

use crate::tally::{Key, Tally};
use sentry_base::protocol::{ClientKey, SessionKey, TransactionOrSpanKey};
use sentry_scope::{Stack, StackLayer};
use std::alloc::{AllocError, Global};

/// What a layer names.
#[derive(Clone, Copy)]
pub(crate) struct LayerNames {
    pub client: Option<Key>,
    pub session: Option<Key>,
    pub transaction: Option<Key>,
    pub span: Option<Key>,
}

pub(crate) fn client_name(client: Option<ClientKey>) -> Option<Key>
    ensures { result ≡ client_name client }
{
    match client {
        None => None,
        Some(key) => Some(Key {
            tag: key.tag,
            number: key.number,
        }),
    }
}

pub(crate) fn session_name(session: Option<SessionKey>) -> Option<Key>
    ensures { result ≡ session_name session }
{
    match session {
        None => None,
        Some(key) => Some(Key {
            tag: key.tag,
            number: key.number,
        }),
    }
}

pub(crate) fn transaction_name(span: Option<TransactionOrSpanKey>) -> Option<Key>
    ensures { result ≡ transaction_name span }
{
    match span {
        None | Some(TransactionOrSpanKey::Span(_)) => None,
        Some(TransactionOrSpanKey::Transaction(key)) => Some(Key {
            tag: key.tag,
            number: key.number,
        }),
    }
}

pub(crate) fn span_name(span: Option<TransactionOrSpanKey>) -> Option<Key>
    ensures { result ≡ span_name span }
{
    match span {
        None | Some(TransactionOrSpanKey::Transaction(_)) => None,
        Some(TransactionOrSpanKey::Span(key)) => Some(Key {
            tag: key.tag,
            number: key.number,
        }),
    }
}

/// What a layer names.
pub(crate) fn layer_names<P>(layer: &StackLayer<P>) -> LayerNames
    ensures { result ≡ layer_names layer.now }
{
    LayerNames {
        client: client_name(layer.client),
        session: session_name(layer.session),
        transaction: transaction_name(layer.scope.span),
        span: span_name(layer.scope.span),
    }
}

/// How many layers name each client, session, transaction and span.
pub(crate) struct Names {
    pub clients: Tally,
    pub sessions: Tally,
    pub transactions: Tally,
    pub spans: Tally,
}

impl Drop for Names {
    fn drop(self) {
        let Names {
            clients: _,
            sessions: _,
            transactions: _,
            spans: _,
        } = self;
    }
}

impl Names {
    /// The names of no layers, for an engine with this tag. It takes no memory.
    pub fn new(alloc: Global, tag: u64) -> Names
        ensures clients { ((key : Key) → tally_at result.clients key ≡ 0) × (tally_total result.clients ≡ 0) }
        ensures sessions { ((key : Key) → tally_at result.sessions key ≡ 0) × (tally_total result.sessions ≡ 0) }
        ensures transactions { ((key : Key) → tally_at result.transactions key ≡ 0)
            × (tally_total result.transactions ≡ 0) }
        ensures spans { ((key : Key) → tally_at result.spans key ≡ 0) × (tally_total result.spans ≡ 0) }
    {
        Names {
            clients: Tally::new(alloc, tag),
            sessions: Tally::new(alloc, tag),
            transactions: Tally::new(alloc, tag),
            spans: Tally::new(alloc, tag),
        }
    }

    /// Makes room for the names of this many layers, one of which comes and names this session.
    pub fn reserve(&mut self, layers: usize, session: Option<Key>) -> Result<(), AllocError>
        ensures keeps { KeepsNames self.old self.new }
        ensures ok { OnOk result (HasRoomFor self.new layers) }
    {
        self.clients.reserve(layers)?;
        self.sessions.expect_name(session)?;
        self.sessions.reserve(layers)?;
        self.transactions.reserve(layers)?;
        self.spans.reserve(layers)?;
        Ok(())
    }

    /// One more layer names these. It takes no memory.
    pub fn raise(&mut self, layer: LayerNames)
        requires { HasRoom self.old }
        ensures { RaisesNames self.old self.new layer }
    {
        self.clients.raise(layer.client);
        self.sessions.raise(layer.session);
        self.transactions.raise(layer.transaction);
        self.spans.raise(layer.span);
    }

    /// One layer less names these. It takes no memory.
    pub fn lower(&mut self, layer: LayerNames)
        requires { HasNames self.old layer }
        ensures { LowersNames self.old self.new layer }
    {
        self.clients.lower(layer.client);
        self.sessions.lower(layer.session);
        self.transactions.lower(layer.transaction);
        self.spans.lower(layer.span);
    }

    // These layers go.
    pub fn lower_each<P>(&mut self, layers: &[StackLayer<P>])
        requires { HasAllLayers self.old layers.now }
        ensures { LowersLayers self.old self.new layers.now }
    {
        for layer in layers {
            self.lower(layer_names(layer));
        }
    }
}
