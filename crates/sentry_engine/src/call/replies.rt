//! The replies of calls, put into the one type of replies: each function names the one that it gives.
ghost use Rattle.std.specs.Prelude.{◌≡◌};
ghost use Rattle.sentry_calls.specs.declared.call.Reply.TheVariants as reply;
ghost use Rattle.sentry_calls.specs.Replies.{map_answer};

use crate::engine::{Out, ScopeGuard};
use sentry_base::protocol::{ClientKey, ClientReport, Event, HubKey, Refusal, Uuid};
use sentry_calls::call::{Answer, Reply, SpanReply};
use sentry_options::ClientOptions;
use sentry_plain::{Boxed, Shared};
use sentry_scope::Scope;
use sentry_texts::dsn::Dsn;

/// Nothing but that the call is done.
pub(super) fn done<P, C>(answer: Result<Out<()>, Refusal>) -> Answer<P, C>
    ensures { result ≡ map_answer (λ _. reply.Done) answer }
{
    let Out { reply: _, sent } = answer?;
    Ok(Out {
        reply: Reply::Done,
        sent,
    })
}

/// The depth of a hub after a push.
pub(super) fn depth<P, C>(answer: Result<Out<ScopeGuard>, Refusal>) -> Answer<P, C>
    ensures { result ≡ map_answer (λ guard. reply.Depth guard.1) answer }
{
    let Out { reply, sent } = answer?;
    let (_hub, depth) = reply.into_parts();
    Ok(Out {
        reply: Reply::Depth(depth),
        sent,
    })
}

/// The key of a client.
pub(super) fn client<P, C>(answer: Result<Out<ClientKey>, Refusal>) -> Answer<P, C>
    ensures { result ≡ map_answer reply.Client answer }
{
    let Out { reply, sent } = answer?;
    Ok(Out {
        reply: Reply::Client(reply),
        sent,
    })
}

/// The options of a client.
pub(super) fn options<P, C>(answer: Result<Out<Shared<ClientOptions<C>>>, Refusal>) -> Answer<P, C>
    ensures { result ≡ map_answer reply.Options answer }
{
    let Out { reply, sent } = answer?;
    Ok(Out {
        reply: Reply::Options(reply),
        sent,
    })
}

/// Where a client sends to.
pub(super) fn dsn<P, C>(answer: Result<Out<Option<Dsn>>, Refusal>) -> Answer<P, C>
    ensures { result ≡ map_answer reply.Dsn answer }
{
    let Out { reply, sent } = answer?;
    Ok(Out {
        reply: Reply::Dsn(reply),
        sent,
    })
}

/// A decision.
pub(super) fn decision<P, C>(answer: Result<Out<bool>, Refusal>) -> Answer<P, C>
    ensures { result ≡ map_answer reply.Decision answer }
{
    let Out { reply, sent } = answer?;
    Ok(Out {
        reply: Reply::Decision(reply),
        sent,
    })
}

/// An event as it would be sent.
pub(super) fn prepared<P, C>(answer: Result<Out<Option<Boxed<Event>>>, Refusal>) -> Answer<P, C>
    ensures { result ≡ map_answer reply.Prepared answer }
{
    let Out { reply, sent } = answer?;
    Ok(Out {
        reply: Reply::Prepared(reply),
        sent,
    })
}

/// A report of losses.
pub(super) fn report<P, C>(answer: Result<Out<Option<ClientReport>>, Refusal>) -> Answer<P, C>
    ensures { result ≡ map_answer reply.Report answer }
{
    let Out { reply, sent } = answer?;
    Ok(Out {
        reply: Reply::Report(reply),
        sent,
    })
}

/// The key of a hub.
pub(super) fn hub<P, C>(answer: Result<Out<HubKey>, Refusal>) -> Answer<P, C>
    ensures { result ≡ map_answer reply.Hub answer }
{
    let Out { reply, sent } = answer?;
    Ok(Out {
        reply: Reply::Hub(reply),
        sent,
    })
}

/// The id of a captured event.
pub(super) fn event<P, C>(answer: Result<Out<Uuid>, Refusal>) -> Answer<P, C>
    ensures { result ≡ map_answer reply.Event answer }
{
    let Out { reply, sent } = answer?;
    Ok(Out {
        reply: Reply::Event(reply),
        sent,
    })
}

/// The id of the last event of a hub.
pub(super) fn last_event<P, C>(answer: Result<Out<Option<Uuid>>, Refusal>) -> Answer<P, C>
    ensures { result ≡ map_answer reply.LastEvent answer }
{
    let Out { reply, sent } = answer?;
    Ok(Out {
        reply: Reply::LastEvent(reply),
        sent,
    })
}

/// The client of a hub.
pub(super) fn hub_client<P, C>(answer: Result<Out<Option<ClientKey>>, Refusal>) -> Answer<P, C>
    ensures { result ≡ map_answer reply.HubClient answer }
{
    let Out { reply, sent } = answer?;
    Ok(Out {
        reply: Reply::HubClient(reply),
        sent,
    })
}

/// A copy of a scope.
pub(super) fn scope<P, C>(answer: Result<Out<Boxed<Scope<P>>>, Refusal>) -> Answer<P, C>
    ensures { result ≡ map_answer reply.Scope answer }
{
    let Out { reply, sent } = answer?;
    Ok(Out {
        reply: Reply::Scope(reply),
        sent,
    })
}

/// The reply of a call on transactions and spans.
pub(super) fn span<P, C>(answer: Result<Out<SpanReply>, Refusal>) -> Answer<P, C>
    ensures { result ≡ map_answer reply.Span answer }
{
    let Out { reply, sent } = answer?;
    Ok(Out {
        reply: Reply::Span(reply),
        sent,
    })
}
