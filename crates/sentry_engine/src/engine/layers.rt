//! The calls on the layers of hubs.
ghost use Rattle.std.specs.Prelude.{◌≡◌, IfErr};
ghost use Rattle.sentry_state.specs.Outcomes.{Does, DoesWithoutMemory};
ghost use Rattle.sentry_engine.specs.Replies.{without_value};
ghost use Rattle.sentry_calls.specs.Layers as call;

use crate::engine::{Engine, Out};
use sentry_base::protocol::{ClientKey, HubKey, Refusal};
use sentry_options::Callbacks;
use sentry_scope::Stack;
use sentry_sending::session_ends::release_session;
use std::marker::Model;

/// Stands for a layer that was pushed onto a hub. It cannot be dropped, so that no layer is forgotten unseen: it is
/// spent by `Engine::pop_scope`, or taken apart by `into_parts`. Contracts see the hub and the depth of the layer.
pub struct ScopeGuard {
    hub: HubKey,
    depth: usize,
}

impl Model for ScopeGuard {
    ghost use Rattle.std.specs.Prelude.{ℕ};
    ghost use Rattle.sentry_base.specs.declared.protocol.keys.HubKey.{HubKey};

    ghost Value = { HubKey × ℕ };

    ghost view = { λ guard. (guard.hub, guard.depth) };
}

impl ScopeGuard {
    /// The hub.
    pub fn hub(&self) -> HubKey
        ensures { result ≡ self.now.0 }
    {
        self.hub
    }

    /// The hub, and its depth after the push.
    pub fn into_parts(self) -> (HubKey, usize)
        ensures { result ≡ self }
    {
        let ScopeGuard { hub, depth } = self;
        (hub, depth)
    }
}

impl<P: Drop, C: Callbacks> Engine<P, C> {
    /// Pushes a copy of a hub's top layer onto it: client, scope and session. The reply stands for the new layer.
    ///
    /// `Stale`: the hub isn't held. `OutOfMemory`.
    #[tactic(auto, unfolding(sentry_calls::specs::Layers::push_scope))]
    pub fn push_scope(&mut self, hub: HubKey) -> Result<Out<ScopeGuard>, Refusal>
        ensures { Does self.old self.new result (call.push_scope hub) }
    {
        let Some(_held) = self.state.hub_at(hub) else {
            return Err(Refusal::Stale);
        };
        let depth = self.state.push_layer(hub.number)?;
        Ok(self.state.out(ScopeGuard { hub, depth }))
    }

    /// Removes the layer of a depth from a hub, as `pop_scope` does, for a caller that keeps no guard: other languages
    /// hold the depth as a number. The Rust crate has only guards.
    ///
    /// `Stale`: the hub isn't held. `OutOfOrder`: the layer of this depth isn't the top one, or is the only one.
    /// `OutOfMemory`.
    #[tactic(auto, unfolding(sentry_calls::specs::Layers::pop_scope))]
    pub fn pop_scope_at(&mut self, hub: HubKey, depth: usize, now: u64) -> Result<Out<()>, Refusal>
        ensures { Does self.old self.new result (call.pop_scope hub depth now) }
    {
        let Some(held) = self.state.hub_at(hub) else {
            return Err(Refusal::Stale);
        };
        if !held.is_top_layer(depth) {
            return Err(Refusal::OutOfOrder);
        }
        let sent = release_session(&mut self.state, hub.number, now)?;
        self.state.pop_layer(hub.number);
        Ok(Out { reply: (), sent })
    }

    /// Removes the layer that a guard stands for, which must be the top one of its hub. The session that it names ends
    /// if no other layer names it. `now` is the moment in nanoseconds since the epoch. Each refusal hands the guard
    /// back.
    ///
    /// `Stale`: the hub isn't held. `OutOfOrder`: the guard's layer isn't the top one, or is the only one.
    /// `OutOfMemory`.
    pub fn pop_scope(
        &mut self,
        guard: ScopeGuard,
        now: u64,
    ) -> Result<Out<()>, (Refusal, ScopeGuard)>
        ensures does { Does self.old self.new (without_value result) (call.pop_scope guard.0 guard.1 now) }
        ensures back { IfErr result (λ refused. refused.1 ≡ guard) }
    {
        let (hub, depth) = guard.into_parts();
        match self.pop_scope_at(hub, depth, now) {
            Ok(out) => Ok(out),
            Err(refusal) => Err((refusal, ScopeGuard { hub, depth })),
        }
    }

    /// Adds a hub with one layer, which is a copy of another hub's top layer: client, scope and session. Its last event
    /// id is none. Its key is the reply.
    ///
    /// `Stale`: the hub isn't held. `Full`: the numbers are used up. `OutOfMemory`.
    #[tactic(auto, unfolding(sentry_calls::specs::Layers::new_hub_from_top))]
    pub fn new_hub_from_top(&mut self, hub: HubKey) -> Result<Out<HubKey>, Refusal>
        ensures { Does self.old self.new result (call.new_hub_from_top hub) }
    {
        let Some(held) = self.state.hub_at(hub) else {
            return Err(Refusal::Stale);
        };
        if !self.state.has_hub_number() {
            return Err(Refusal::Full);
        }
        let stack = Stack::from_top(&held.stack)?;
        let key = self.state.insert_hub(stack)?;
        Ok(self.state.out(key))
    }

    /// Gives a hub back, which has one layer. Its key is stale from then on. The session that the layer names ends if
    /// no other layer names it. `now` is the moment in nanoseconds since the epoch.
    ///
    /// `Stale`: the hub isn't held. `ScopesOpen`: it has more than one layer. `OutOfMemory`.
    #[tactic(auto, unfolding(sentry_calls::specs::Layers::release_hub))]
    pub fn release_hub(&mut self, hub: HubKey, now: u64) -> Result<Out<()>, Refusal>
        ensures { Does self.old self.new result (call.release_hub hub now) }
    {
        let Some(held) = self.state.hub_at(hub) else {
            return Err(Refusal::Stale);
        };
        if held.stack.depth() != 0 {
            return Err(Refusal::ScopesOpen);
        }
        let sent = release_session(&mut self.state, hub.number, now)?;
        self.state.hubs.remove(hub.number);
        Ok(Out { reply: (), sent })
    }

    /// Gives the top layer of a hub another client, or none. It takes no memory.
    ///
    /// `Stale`: the hub isn't held, or the client isn't.
    #[tactic(auto, unfolding(sentry_calls::specs::Layers::bind_client))]
    pub fn bind_client(
        &mut self,
        hub: HubKey,
        client: Option<ClientKey>,
    ) -> Result<Out<()>, Refusal>
        ensures { DoesWithoutMemory self.old self.new result (call.bind_client hub client) }
    {
        let Some(_held) = self.state.hub_at(hub) else {
            return Err(Refusal::Stale);
        };
        if !self.state.holds(client) {
            return Err(Refusal::Stale);
        }
        self.state.set_client(hub.number, client);
        Ok(self.state.out(()))
    }
}
