//! What makes the calls of a scenario on an engine under its lock.
use crate::locked::{Locked, SpanCalls};
use crate::transport::{Mailbox, Post};
use scenario_run::TAG;
use scenario_run::callbacks::{Callbacks, Handler};
use scenario_run::caller::{CallReply, Caller, ScenarioCall};
use sentry_base::protocol::{ClientKey, HubKey, Refusal};
use sentry_engine::Out;
use sentry_engine::call::{Answer, Call, ClientCall, Reply};
use sentry_lock::{CoreLock, SharedCore};
use sentry_plain::Items;
use sentry_trace::headers::TraceHeadersIter;
use std::alloc::{AllocError, Global};
use std::sync::{Arc, Wait};

/// More envelopes than any call hands out: at most, a flush hands out two of sessions, one of logs and one of metrics.
const ROOM: usize = 8;

/// An engine under its lock, and what its transports were handed.
pub struct LockedCaller<L, R> {
    alloc: Global,
    locked: Locked<L>,
    mailbox: Arc<Mailbox<R>>,
}

impl<L: Drop, R: Drop> Drop for LockedCaller<L, R> {
    fn drop(self) {
        let LockedCaller {
            alloc: _,
            locked: _,
            mailbox: _,
        } = self;
    }
}

impl<L: CoreLock, R: Drop> LockedCaller<L, R> {
    /// An engine that holds nothing. What its transports are handed comes to the mailbox.
    pub fn new(
        alloc: Global,
        core: SharedCore<L>,
        mailbox: Arc<Mailbox<R>>,
        span_calls: SpanCalls,
    ) -> LockedCaller<L, R> {
        LockedCaller {
            alloc,
            locked: Locked::new(alloc, core, span_calls),
            mailbox,
        }
    }

    // The transport of a client that is to get this number, if it is to have one.
    fn transport(&self, has_transport: bool, number: u64) -> Result<Option<Post<R>>, AllocError> {
        match has_transport {
            false => Ok(None),
            true => Ok(Some(Post::new(ClientKey { tag: TAG, number }, self.mailbox.clone()?))),
        }
    }
}

impl<
    L: CoreLock<Processor = Handler, Callbacks = Callbacks, Transport = Post<R>>,
    R: Wait + Drop,
> LockedCaller<L, R> {
    // The call's reply. What it hands out is in the mailbox.
    fn reply(&mut self, call: ScenarioCall) -> Result<CallReply, Refusal> {
        match call {
            Call::Client(call) => self.change_client(call),
            Call::Hub(call) => self.locked.change_hub(call),
            Call::Span(call) => Ok(Reply::Span(self.locked.call_span(call)?)),
        }
    }

    fn change_client(
        &mut self,
        call: ClientCall<Handler, Callbacks>,
    ) -> Result<CallReply, Refusal> {
        match call {
            ClientCall::AddClient {
                options,
                transport,
                label,
                now,
            } => {
                let transport = self.transport(transport, label.number)?;
                let options = options.into_inner();
                let key = self
                    .locked
                    .add_client(options, transport, label.number, now)?;
                Ok(Reply::Client(key))
            }
            call => self.locked.change_client(call),
        }
    }
}

impl<
    L: CoreLock<Processor = Handler, Callbacks = Callbacks, Transport = Post<R>>,
    R: Wait + Drop,
> Caller for LockedCaller<L, R> {
    fn apply(&mut self, call: ScenarioCall) -> Answer<Handler, Callbacks> {
        self.mailbox.reserve(ROOM)?;
        let reply = self.reply(call)?;
        let sent = Items::from_vec(self.mailbox.take(self.alloc));
        Ok(Out { reply, sent })
    }

    // Those of the active span, or else those of the scope itself.
    fn headers_of_hub(&mut self, hub: HubKey) -> Result<TraceHeadersIter, Refusal> {
        let scope = self.locked.scope(hub)?;
        self.locked.headers_of_scope(&scope)
    }
}
