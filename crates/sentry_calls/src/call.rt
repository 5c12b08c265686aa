//! Calls as values, in groups, and their replies.

mod clients;
mod hubs;
mod spans;

pub use clients::ClientCall;
pub use hubs::HubCall;
use sentry_base::protocol::{ClientKey, ClientReport, Event, HubKey, Refusal, Uuid};
use sentry_options::ClientOptions;
use sentry_plain::{Boxed, Shared};
use sentry_scope::Scope;
use sentry_state::Out;
use sentry_texts::dsn::Dsn;
pub use spans::{SpanCall, SpanReply, apply_span_call};

/// A call of an engine, with its arguments. `P` is the type of a scope's processors, `C` that of a client's callbacks.
#[derive(Drop)]
pub enum Call<P, C> {
    /// A call on a client, or on a label of losses.
    Client(ClientCall<P, C>),
    /// A call on a hub.
    Hub(HubCall<P>),
    /// A call on a transaction or a span.
    Span(SpanCall),
}

impl<P, C> From<ClientCall<P, C>> for Call<P, C> {
    ghost use Rattle.std.specs.Prelude.{◌≡◌};
    ghost use Rattle.sentry_calls.specs.declared.call.Call.TheVariants.{Client};

    ghost from_gives = { λ call made. made ≡ Client call };

    fn from(call: ClientCall<P, C>) -> Call<P, C> {
        Call::Client(call)
    }
}

impl<P, C> From<HubCall<P>> for Call<P, C> {
    ghost use Rattle.std.specs.Prelude.{◌≡◌};
    ghost use Rattle.sentry_calls.specs.declared.call.Call.TheVariants.{Hub};

    ghost from_gives = { λ call made. made ≡ Hub call };

    fn from(call: HubCall<P>) -> Call<P, C> {
        Call::Hub(call)
    }
}

impl<P, C> From<SpanCall> for Call<P, C> {
    ghost use Rattle.std.specs.Prelude.{◌≡◌};
    ghost use Rattle.sentry_calls.specs.declared.call.Call.TheVariants.{Span};

    ghost from_gives = { λ call made. made ≡ Span call };

    fn from(call: SpanCall) -> Call<P, C> {
        Call::Span(call)
    }
}

/// What a call replies.
#[derive(Drop)]
pub enum Reply<P, C> {
    Client(ClientKey),
    Options(Shared<ClientOptions<C>>),
    Dsn(Option<Dsn>),
    /// The reply of `is_enabled`, `sample_should_send` and `is_active`.
    Decision(bool),
    /// The reply of `prepare_event`.
    Prepared(Option<Boxed<Event>>),
    Report(Option<ClientReport>),
    Hub(HubKey),
    Done,
    Event(Uuid),
    LastEvent(Option<Uuid>),
    /// The client of a hub's top layer.
    HubClient(Option<ClientKey>),
    Scope(Boxed<Scope<P>>),
    /// The depth of a hub after a push.
    Depth(usize),
    /// The reply of a call on a transaction or a span.
    Span(SpanReply),
}

/// What a call answers: its reply and envelopes, or why it was refused.
pub type Answer<P, C> = Result<Out<Reply<P, C>>, Refusal>;
