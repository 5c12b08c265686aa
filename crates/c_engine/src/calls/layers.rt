//! The call that pops a layer by its depth.
ghost use Rattle.std.specs.Prelude.{◌≡◌};
ghost use Rattle.sentry_calls.specs.Layers as layers;
ghost use Rattle.c_engine.specs.Calls.{Calls, anything};
ghost use Rattle.c_engine.specs.Keys.{hub_key};

use crate::outbox_engine::{OutboxEngine, hub_key};
use c_base::fault::CallFault;

impl OutboxEngine {
    /// Pops the layer of this depth.
    #[tactic(auto, using(crate::proofs::Calling::called, crate::proofs::Calling::refused, crate::proofs::Calling::unasked))]
    pub fn pop_scope(&mut self, hub: u64, depth: usize, now: u64) -> Result<(), CallFault>
        ensures { Calls self.old self.new result anything (layers.pop_scope (hub_key hub) depth now) }
    {
        self.outbox.make_room()?;
        let out = self.engine.pop_scope_at(hub_key(hub), depth, now)?;
        self.outbox.keep(out.sent);
        Ok(())
    }
}
