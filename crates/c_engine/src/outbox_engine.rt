//! An engine whose envelopes wait in an outbox.
ghost use Rattle.std.specs.Prelude.{◌≡◌, [], IfOk};
ghost use Rattle.sentry_state.specs.Worlds.{Stands, first_world};
ghost use Rattle.c_base.specs.Outboxes.{waiting};
ghost use Rattle.c_engine.specs.Keys as key;

use crate::callbacks::NoProcessor;
use c_base::outbox::Outbox;
use c_records::filters::Filters;
use sentry_base::protocol::{
    ClientKey, HubKey, Label, SpanKey, TransactionKey, TransactionOrSpanKey,
};
use sentry_engine::Engine;
use std::alloc::{AllocError, Global};

/// An engine, and the envelopes that its calls handed out. Keys are numbers: the tag is always 0, since other
/// languages name an engine by its address.
pub struct OutboxEngine {
    pub(crate) alloc: Global,
    pub(crate) engine: Engine<NoProcessor, Filters>,
    pub(crate) outbox: Outbox,
}

impl Drop for OutboxEngine {
    fn drop(self) {
        let OutboxEngine {
            alloc: _,
            engine: _,
            outbox: _,
        } = self;
    }
}

/// The tag of all keys.
pub(crate) const TAG: u64 = 0;

pub(crate) fn client_key(number: u64) -> ClientKey
    ensures { result ≡ key.client_key number }
{
    ClientKey { tag: TAG, number }
}

pub(crate) fn hub_key(number: u64) -> HubKey
    ensures { result ≡ key.hub_key number }
{
    HubKey { tag: TAG, number }
}

pub(crate) fn label(number: u64) -> Label
    ensures { result ≡ key.label number }
{
    Label { tag: TAG, number }
}

pub(crate) fn transaction_key(number: u64) -> TransactionKey
    ensures { result ≡ key.transaction_key number }
{
    TransactionKey { tag: TAG, number }
}

pub(crate) fn span_key(number: u64) -> SpanKey
    ensures { result ≡ key.span_key number }
{
    SpanKey { tag: TAG, number }
}

/// A transaction or a span by its number.
pub(crate) fn either_key(is_span: bool, number: u64) -> TransactionOrSpanKey
    ensures { result ≡ key.either_key is_span number }
{
    if is_span {
        TransactionOrSpanKey::Span(span_key(number))
    } else {
        TransactionOrSpanKey::Transaction(transaction_key(number))
    }
}

impl OutboxEngine {
    /// An engine that holds nothing, in a box.
    pub fn new(alloc: Global) -> Result<Box<OutboxEngine>, AllocError>
        ensures { IfOk result (λ engine.
            (waiting engine.value.outbox ≡ []) × Stands engine.value.engine (first_world 0)) }
    {
        let engine = OutboxEngine {
            alloc,
            engine: Engine::new(alloc, TAG),
            outbox: Outbox::new(alloc),
        };
        Ok(Box::new(alloc, engine)?)
    }
}
