//! The calls that capture events.
ghost use Rattle.std.specs.Prelude.{◌≡◌};
ghost use Rattle.sentry_calls.specs.Hubs as call;
ghost use Rattle.sentry_events.specs.Captures.{capture_event};
ghost use Rattle.c_base.specs.Numbers.{id_of, id_or_nil, level_of};
ghost use Rattle.c_engine.specs.Calls.{Calls, CallsWith};
ghost use Rattle.c_engine.specs.Engines.{same_event};
ghost use Rattle.c_records.specs.Filters.{filter_meanings};
ghost use Rattle.c_engine.specs.Keys.{hub_key};
ghost use Rattle.c_engine.specs.Moments.{fresh_of};

use crate::moments::fresh_of;
use crate::outbox_engine::{OutboxEngine, hub_key};
use c_base::fault::CallFault;
use c_base::ids::{FreshNumbers, Id};
use c_base::numbers::{level, text};
use c_base::outbox::Stacktraces;
use sentry_base::protocol::Event;

impl OutboxEngine {
    /// Captures an event with its stack traces, and sets its id, which is nil where none was sent.
    #[tactic(auto, using(crate::proofs::Calling::called, crate::proofs::Calling::refused, crate::proofs::Calling::unasked))]
    pub(crate) fn send_event(
        &mut self,
        hub: u64,
        event: Event,
        stacktraces: Stacktraces,
        fresh: &FreshNumbers,
        id: &mut Id,
    ) -> Result<(), CallFault>
        ensures { CallsWith stacktraces self.old self.new result (λ reply. id.new ≡ id_of reply)
            (capture_event same_event filter_meanings (hub_key hub) event (fresh_of fresh.entry.now)) }
    {
        let fresh = fresh_of(fresh)?;
        self.outbox.make_room()?;
        let out = self.engine.capture_event(hub_key(hub), event, fresh)?;
        self.outbox.keep_with(out.sent, stacktraces);
        *id = Id::of_uuid(out.reply);
        Ok(())
    }

    /// Captures a message, and sets the id of its event, which is nil where none was sent.
    #[tactic(auto, using(crate::proofs::Calling::called, crate::proofs::Calling::refused, crate::proofs::Calling::unasked))]
    pub fn capture_message(
        &mut self,
        hub: u64,
        number: u32,
        message: &[u8],
        fresh: &FreshNumbers,
        id: &mut Id,
    ) -> Result<(), CallFault>
        ensures { Calls self.old self.new result (λ reply. id.new ≡ id_of reply)
            (call.capture_message same_event filter_meanings (hub_key hub) message.now (level_of number)
            (fresh_of fresh.entry.now)) }
    {
        let level = level(number)?;
        let message = text(message)?;
        let fresh = fresh_of(fresh)?;
        self.outbox.make_room()?;
        let out = self
            .engine
            .capture_message(hub_key(hub), message, level, fresh)?;
        self.outbox.keep(out.sent);
        *id = Id::of_uuid(out.reply);
        Ok(())
    }

    /// Sets the id that the last capture on a hub answered, which is nil where there was none.
    #[tactic(auto, using(crate::proofs::Calling::called, crate::proofs::Calling::refused, crate::proofs::Calling::unasked))]
    pub fn last_event_id(&mut self, hub: u64, id: &mut Id) -> Result<(), CallFault>
        ensures { Calls self.old self.new result (λ reply. id.new ≡ id_or_nil reply)
            (call.last_event_id (hub_key hub)) }
    {
        self.outbox.make_room()?;
        let out = self.engine.last_event_id(hub_key(hub))?;
        self.outbox.keep(out.sent);
        *id = Id::of_option(out.reply);
        Ok(())
    }
}
