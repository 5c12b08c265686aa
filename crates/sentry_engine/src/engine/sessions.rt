//! The calls on sessions.
ghost use Rattle.sentry_state.specs.Outcomes.{Does};
ghost use Rattle.sentry_calls.specs.Active.{if_active};
ghost use Rattle.sentry_calls.specs.Sessions as call;

use crate::engine::{Engine, Out};
use sentry_base::protocol::{Fresh, HubKey, Refusal, SessionStatus};
use sentry_options::Callbacks;
use sentry_sending::session_ends::end_session;
use sentry_sending::sessions::replace_session;
use sentry_sessions::Session;

impl<P: Drop, C: Callbacks> Engine<P, C> {
    /// Starts a session on a hub, under the client of its top layer. The layer names it in place of the session that it
    /// named before, which ends if no other layer names it. `fresh` gives the session's id and the moment. Without a
    /// client, or a release in its options, nothing changes.
    ///
    /// `Stale`: the hub isn't held. `Full`: the numbers are used up. `OutOfMemory`.
    #[tactic(auto, unfolding(sentry_calls::specs::Sessions::start_session))]
    pub fn start_session(&mut self, hub: HubKey, fresh: Fresh) -> Result<Out<()>, Refusal>
        ensures { Does self.old self.new result (call.start_session hub fresh) }
    {
        let now = fresh.now;
        let Some(held) = self.state.hub_at(hub) else {
            return Err(Refusal::Stale);
        };
        let Some(key) = held.stack.top.client else {
            return Ok(self.state.out(()));
        };
        let Some(client) = self.state.client_at(key) else {
            return Ok(self.state.out(()));
        };
        let Some(attributes) = &client.session_attributes else {
            return Ok(self.state.out(()));
        };
        if !self.state.has_session_number() {
            return Err(Refusal::Full);
        }
        let user = held.stack.top.scope.user();
        let session = Session::from_stack(key, attributes, user, fresh.uuid, now)?;
        let sent = replace_session(&mut self.state, hub.number, session, now)?;
        Ok(Out { reply: (), sent })
    }

    /// The same, if the client of the top layer is enabled; else nothing changes.
    ///
    /// `Stale`: the hub isn't held. `Full`: the numbers are used up. `OutOfMemory`.
    #[tactic(auto, unfolding(sentry_calls::specs::Sessions::start_session))]
    pub fn start_active_session(&mut self, hub: HubKey, fresh: Fresh) -> Result<Out<()>, Refusal>
        ensures { Does self.old self.new result (if_active hub (call.start_session hub fresh)) }
    {
        let now = fresh.now;
        let Some(held) = self.state.hub_at(hub) else {
            return Err(Refusal::Stale);
        };
        let Some(key) = held.stack.top.client else {
            return Ok(self.state.out(()));
        };
        let Some(client) = self.state.client_at(key) else {
            return Ok(self.state.out(()));
        };
        if !client.is_enabled() {
            return Ok(self.state.out(()));
        }
        let Some(attributes) = &client.session_attributes else {
            return Ok(self.state.out(()));
        };
        if !self.state.has_session_number() {
            return Err(Refusal::Full);
        }
        let user = held.stack.top.scope.user();
        let session = Session::from_stack(key, attributes, user, fresh.uuid, now)?;
        let sent = replace_session(&mut self.state, hub.number, session, now)?;
        Ok(Out { reply: (), sent })
    }

    /// Ends the session of a hub's top layer with a status, for every layer that names it. What the server is still to
    /// be told of it is queued at the client under which it started. `now` is the moment in nanoseconds since the
    /// epoch. Without a session nothing changes.
    ///
    /// `Stale`: the hub isn't held. `OutOfMemory`.
    #[tactic(auto, unfolding(sentry_calls::specs::Sessions::end_session_with_status))]
    pub fn end_session_with_status(
        &mut self,
        hub: HubKey,
        status: SessionStatus,
        now: u64,
    ) -> Result<Out<()>, Refusal>
        ensures { Does self.old self.new result (call.end_session_with_status hub status now) }
    {
        let Some(held) = self.state.hub_at(hub) else {
            return Err(Refusal::Stale);
        };
        let Some(session) = held.stack.top.session else {
            return Ok(self.state.out(()));
        };
        let sent = end_session(&mut self.state, session, Some(status), now)?;
        Ok(Out { reply: (), sent })
    }

    /// The same, if the client of the top layer is enabled; else nothing changes.
    ///
    /// `Stale`: the hub isn't held. `OutOfMemory`.
    #[tactic(auto, unfolding(sentry_calls::specs::Sessions::end_session_with_status))]
    pub fn end_active_session(
        &mut self,
        hub: HubKey,
        status: SessionStatus,
        now: u64,
    ) -> Result<Out<()>, Refusal>
        ensures { Does self.old self.new result (if_active hub (call.end_session_with_status hub status now)) }
    {
        let Some(held) = self.state.hub_at(hub) else {
            return Err(Refusal::Stale);
        };
        let Some(key) = held.stack.top.client else {
            return Ok(self.state.out(()));
        };
        let Some(client) = self.state.client_at(key) else {
            return Ok(self.state.out(()));
        };
        let enabled = client.is_enabled();
        if !enabled {
            return Ok(self.state.out(()));
        }
        let Some(session) = held.stack.top.session else {
            return Ok(self.state.out(()));
        };
        let sent = end_session(&mut self.state, session, Some(status), now)?;
        Ok(Out { reply: (), sent })
    }
}
