//! The calls on hubs.
ghost use Rattle.std.specs.Prelude.{◌≡◌, Some};
ghost use Rattle.sentry_calls.specs.Hubs as call;
ghost use Rattle.sentry_calls.specs.Layers as layers;
ghost use Rattle.sentry_scope.specs.Scopes.{new_scope};
ghost use Rattle.c_engine.specs.Calls.{Calls, anything};
ghost use Rattle.c_engine.specs.Keys.{hub_key, client_key};
ghost use Rattle.c_engine.specs.Moments.{fresh_of};

use crate::moments::fresh_of;
use crate::outbox_engine::{OutboxEngine, client_key, hub_key};
use c_base::fault::CallFault;
use c_base::ids::FreshNumbers;
use sentry_scope::Scope;

impl OutboxEngine {
    /// Adds a hub on a client, with a new scope.
    #[tactic(auto, using(crate::proofs::Calling::called, crate::proofs::Calling::refused, crate::proofs::Calling::unasked))]
    pub fn new_hub(
        &mut self,
        client: u64,
        fresh: &FreshNumbers,
        hub: &mut u64,
    ) -> Result<(), CallFault>
        ensures { Calls self.old self.new result (λ key. hub.new ≡ key.number) (call.new_hub (Some (client_key client))
            (new_scope (fresh_of fresh.entry.now).trace_id (fresh_of fresh.entry.now).span_id)) }
    {
        let fresh = fresh_of(fresh)?;
        let scope = Scope::new(self.alloc, fresh.trace_id, fresh.span_id);
        self.outbox.make_room()?;
        let out = self.engine.new_hub(Some(client_key(client)), scope)?;
        self.outbox.keep(out.sent);
        *hub = out.reply.number;
        Ok(())
    }

    /// Adds a hub with the client and a copy of the top scope of another.
    #[tactic(auto, using(crate::proofs::Calling::called, crate::proofs::Calling::refused, crate::proofs::Calling::unasked))]
    pub fn new_hub_from_top(&mut self, hub: u64, copy: &mut u64) -> Result<(), CallFault>
        ensures { Calls self.old self.new result (λ key. copy.new ≡ key.number)
            (layers.new_hub_from_top (hub_key hub)) }
    {
        self.outbox.make_room()?;
        let out = self.engine.new_hub_from_top(hub_key(hub))?;
        self.outbox.keep(out.sent);
        *copy = out.reply.number;
        Ok(())
    }

    /// Gives the top layer of a hub another client.
    #[tactic(auto, using(crate::proofs::Calling::called, crate::proofs::Calling::refused, crate::proofs::Calling::unasked))]
    pub fn bind_client(&mut self, hub: u64, client: u64) -> Result<(), CallFault>
        ensures { Calls self.old self.new result anything
            (layers.bind_client (hub_key hub) (Some (client_key client))) }
    {
        self.outbox.make_room()?;
        let out = self
            .engine
            .bind_client(hub_key(hub), Some(client_key(client)))?;
        self.outbox.keep(out.sent);
        Ok(())
    }

    /// Pushes a layer, and sets the depth of the hub.
    #[tactic(auto, using(crate::proofs::Calling::called, crate::proofs::Calling::refused, crate::proofs::Calling::unasked))]
    pub fn push_scope(&mut self, hub: u64, depth: &mut usize) -> Result<(), CallFault>
        ensures { Calls self.old self.new result (λ guard. depth.new ≡ guard.1) (layers.push_scope (hub_key hub)) }
    {
        self.outbox.make_room()?;
        let out = self.engine.push_scope(hub_key(hub))?;
        self.outbox.keep(out.sent);
        let (_, reached) = out.reply.into_parts();
        *depth = reached;
        Ok(())
    }

    /// Releases a hub.
    #[tactic(auto, using(crate::proofs::Calling::called, crate::proofs::Calling::refused, crate::proofs::Calling::unasked))]
    pub fn release_hub(&mut self, hub: u64, now: u64) -> Result<(), CallFault>
        ensures { Calls self.old self.new result anything (layers.release_hub (hub_key hub) now) }
    {
        self.outbox.make_room()?;
        let out = self.engine.release_hub(hub_key(hub), now)?;
        self.outbox.keep(out.sent);
        Ok(())
    }
}
