//! Calls on hubs.
use crate::locked::{LockReply, Locked};
use crate::threads::thread_of;
use sentry_base::protocol::{ClientKey, HubKey, Refusal, SessionStatus};
use sentry_engine::ScopeGuard;
use sentry_engine::call::{Call, HubCall, Reply};
use sentry_hub::{Hub, PopScopeError};
use sentry_lock::CoreLock;
use sentry_plain::Boxed;
use sentry_scope::Scope;

impl<L: CoreLock> Locked<L> {
    /// Makes a call that adds a hub or gives one back, or that changes its client or its layers.
    pub(crate) fn change_hub(
        &mut self,
        call: HubCall<L::Processor>,
    ) -> Result<LockReply<L>, Refusal> {
        match call {
            HubCall::NewHub { client, scope } => self.new_hub(client, scope.into_inner()),
            HubCall::NewHubFromTop(hub) => self.new_hub_from_top(hub),
            HubCall::ReleaseHub { hub, now } => self.release(hub, now),
            HubCall::BindClient { hub, client } => self.bind_client(hub, client),
            HubCall::PushScope(hub) => self.push_scope(hub),
            HubCall::PopScope { hub, depth, now } => self.pop_scope(hub, depth, now),
            call => self.change_top(call),
        }
    }

    // The hub gets its place before it is made: after that nothing is refused.
    fn keep_hub(&mut self, hub: Hub<L>) -> LockReply<L> {
        let key = hub.key();
        drop(self.hubs.push(hub));
        Reply::Hub(key)
    }

    fn new_hub(
        &mut self,
        client: Option<ClientKey>,
        scope: Scope<L::Processor>,
    ) -> Result<LockReply<L>, Refusal> {
        self.hubs.reserve(1)?;
        let client = match client {
            None => None,
            Some(key) => Some(self.client(key)?),
        };
        let hub = Hub::new(&self.core, client.as_ref(), scope)?;
        Ok(self.keep_hub(hub))
    }

    fn new_hub_from_top(&mut self, other: HubKey) -> Result<LockReply<L>, Refusal> {
        self.hubs.reserve(1)?;
        let hub = Hub::new_from_top(self.hub(other)?)?;
        Ok(self.keep_hub(hub))
    }

    fn release(&self, hub: HubKey, now: u64) -> Result<LockReply<L>, Refusal> {
        let hub = self.hub(hub)?;
        let mut thread = thread_of(hub, now)?;
        hub.release(&mut thread)?;
        Ok(Reply::Done)
    }

    fn bind_client(&self, hub: HubKey, client: Option<ClientKey>) -> Result<LockReply<L>, Refusal> {
        let client = match client {
            None => None,
            Some(key) => Some(self.client(key)?),
        };
        self.hub(hub)?.bind_client(client.as_ref())?;
        Ok(Reply::Done)
    }

    // The guard gets its place before the call: after that nothing is refused.
    fn push_scope(&mut self, hub: HubKey) -> Result<LockReply<L>, Refusal> {
        self.guards.reserve(hub)?;
        let guard = self.push(hub)?;
        Ok(Reply::Depth(self.guards.keep(hub, guard)))
    }

    fn push(&self, hub: HubKey) -> Result<ScopeGuard, Refusal> {
        self.hub(hub)?.push_scope()
    }

    // By the guard of the top layer. No guard is of another depth, which the call as a value is then refused for.
    fn pop_scope(&mut self, hub: HubKey, depth: usize, now: u64) -> Result<LockReply<L>, Refusal> {
        let Some(guard) = self.guards.take(hub, depth) else {
            let call = HubCall::PopScope { hub, depth, now };
            return self.core.call(Call::Hub(call));
        };
        match self.pop(hub, guard, now) {
            Ok(()) => Ok(Reply::Done),
            Err(error) => {
                let (refusal, guard) = error.into_parts();
                self.guards.keep(hub, guard);
                Err(refusal)
            }
        }
    }

    fn pop(&self, hub: HubKey, guard: ScopeGuard, now: u64) -> Result<(), PopScopeError> {
        match self.hub(hub) {
            Ok(hub) => hub.pop_scope(guard, now),
            Err(refusal) => Err(PopScopeError { refusal, guard }),
        }
    }

    // A call that changes the top layer.
    fn change_top(&self, call: HubCall<L::Processor>) -> Result<LockReply<L>, Refusal> {
        match call {
            HubCall::Configure { hub, edits, now } => {
                self.hub(hub)?.configure(edits.into_vec(), now)?;
                Ok(Reply::Done)
            }
            HubCall::AddBreadcrumbs { hub, breadcrumbs } => {
                self.hub(hub)?.add_breadcrumbs(breadcrumbs.into_vec())?;
                Ok(Reply::Done)
            }
            HubCall::StartSession { hub, fresh } => {
                self.hub(hub)?.start_session(fresh)?;
                Ok(Reply::Done)
            }
            HubCall::EndSessionWithStatus { hub, status, now } => {
                self.end_session(hub, status, now)
            }
            call => self.capture(call),
        }
    }

    fn end_session(
        &self,
        hub: HubKey,
        status: SessionStatus,
        now: u64,
    ) -> Result<LockReply<L>, Refusal> {
        let hub = self.hub(hub)?;
        match status {
            SessionStatus::Exited => hub.end_session(now)?,
            status => hub.end_session_with_status(status, now)?,
        }
        Ok(Reply::Done)
    }

    // A call that captures something.
    fn capture(&self, call: HubCall<L::Processor>) -> Result<LockReply<L>, Refusal> {
        match call {
            HubCall::CaptureEvent { hub, event, fresh } => {
                let id = self.hub(hub)?.capture_event(event.into_inner(), fresh)?;
                Ok(Reply::Event(id))
            }
            HubCall::CaptureMessage {
                hub,
                message,
                level,
                fresh,
            } => {
                let hub = self.hub(hub)?;
                Ok(Reply::Event(hub.capture_message(message.as_str(), level, fresh)?))
            }
            HubCall::CaptureError { hub, links, fresh } => {
                let id = self.hub(hub)?.capture_error(links.as_slice(), fresh)?;
                Ok(Reply::Event(id))
            }
            HubCall::CaptureLog { hub, log } => {
                self.hub(hub)?.capture_log(log.into_inner())?;
                Ok(Reply::Done)
            }
            HubCall::CaptureMetric { hub, draft, now } => {
                self.hub(hub)?.capture_metric(draft.into_inner(), now)?;
                Ok(Reply::Done)
            }
            call => self.ask_hub(call),
        }
    }

    // A call that changes nothing, or as a value one that no function here makes.
    fn ask_hub(&self, call: HubCall<L::Processor>) -> Result<LockReply<L>, Refusal> {
        match call {
            HubCall::LastEventId(hub) => { Ok(Reply::LastEvent(self.hub(hub)?.last_event_id()?)) }
            HubCall::Client(hub) => match self.hub(hub)?.client()? {
                None => Ok(Reply::HubClient(None)),
                Some(client) => Ok(Reply::HubClient(Some(client.key()))),
            },
            HubCall::IsActive(hub) => Ok(Reply::Decision(self.hub(hub)?.is_active()?)),
            HubCall::Scope(hub) => Ok(Reply::Scope(Boxed::new(self.alloc, self.scope(hub)?)?)),
            call => self.core.call(Call::Hub(call)),
        }
    }

    /// A copy of the top scope of a hub.
    pub(crate) fn scope(&self, hub: HubKey) -> Result<Scope<L::Processor>, Refusal> {
        self.hub(hub)?.scope()
    }
}
