//! The calls on sessions.
ghost use Rattle.std.specs.Prelude.{◌≡◌};
ghost use Rattle.sentry_calls.specs.Sessions as call;
ghost use Rattle.c_base.specs.Numbers.{status_of};
ghost use Rattle.c_engine.specs.Calls.{Calls, anything};
ghost use Rattle.c_engine.specs.Keys.{hub_key};
ghost use Rattle.c_engine.specs.Moments.{fresh_of};

use crate::moments::fresh_of;
use crate::outbox_engine::{OutboxEngine, hub_key};
use c_base::fault::CallFault;
use c_base::ids::FreshNumbers;
use c_base::numbers::session_status;

impl OutboxEngine {
    /// Starts a session.
    #[tactic(auto, using(crate::proofs::Calling::called, crate::proofs::Calling::refused, crate::proofs::Calling::unasked))]
    pub fn start_session(&mut self, hub: u64, fresh: &FreshNumbers) -> Result<(), CallFault>
        ensures { Calls self.old self.new result anything
            (call.start_session (hub_key hub) (fresh_of fresh.entry.now)) }
    {
        let fresh = fresh_of(fresh)?;
        self.outbox.make_room()?;
        let out = self.engine.start_session(hub_key(hub), fresh)?;
        self.outbox.keep(out.sent);
        Ok(())
    }

    /// Ends the session of the top layer.
    #[tactic(auto, using(crate::proofs::Calling::called, crate::proofs::Calling::refused, crate::proofs::Calling::unasked))]
    pub fn end_session(&mut self, hub: u64, number: u32, now: u64) -> Result<(), CallFault>
        ensures { Calls self.old self.new result anything
            (call.end_session_with_status (hub_key hub) (status_of number) now) }
    {
        let status = session_status(number)?;
        self.outbox.make_room()?;
        let out = self
            .engine
            .end_session_with_status(hub_key(hub), status, now)?;
        self.outbox.keep(out.sent);
        Ok(())
    }
}
