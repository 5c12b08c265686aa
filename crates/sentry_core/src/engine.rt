//! The engine over boxed callbacks.
use crate::boxed::ClientCallbacks;
use sentry_base::callbacks::BoxedEventCallback;
pub use sentry_engine::call::{SpanCall, SpanReply};
pub use sentry_engine::{Out, Sent};

/// An engine.
pub type Engine = sentry_engine::Engine<BoxedEventCallback, ClientCallbacks>;

/// A call of an engine, with its arguments.
pub type Call = sentry_engine::call::Call<BoxedEventCallback, ClientCallbacks>;

/// A call on a client, or on a label of losses.
pub type ClientCall = sentry_engine::call::ClientCall<BoxedEventCallback, ClientCallbacks>;

/// A call on a hub.
pub type HubCall = sentry_engine::call::HubCall<BoxedEventCallback>;

/// What a call replies.
pub type Reply = sentry_engine::call::Reply<BoxedEventCallback, ClientCallbacks>;

/// What a call answers: its reply and envelopes, or why it was refused.
pub type Answer = sentry_engine::call::Answer<BoxedEventCallback, ClientCallbacks>;
