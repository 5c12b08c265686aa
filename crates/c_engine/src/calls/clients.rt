//! The calls on clients.
ghost use Rattle.std.specs.Prelude.{◌≡◌, true, if◌then◌else◌};
ghost use Rattle.sentry_calls.specs.Clients as call;
ghost use Rattle.c_engine.specs.Calls.{Calls, anything};
ghost use Rattle.c_records.specs.Filters.{filter_meanings};
ghost use Rattle.c_engine.specs.Keys.{client_key, label};

use crate::outbox_engine::{OutboxEngine, client_key, label};
use c_base::fault::CallFault;
use c_records::filters::Filters;
use sentry_options::ClientOptions;

impl OutboxEngine {
    /// Adds a client with these options, under the label of this number.
    #[tactic(auto, using(crate::proofs::Calling::called, crate::proofs::Calling::refused, crate::proofs::Calling::unasked))]
    pub(crate) fn add(
        &mut self,
        options: ClientOptions<Filters>,
        number: u64,
        now: u64,
        client: &mut u64,
    ) -> Result<(), CallFault>
        ensures { Calls self.old self.new result (λ key. client.new ≡ key.number)
            (call.add_client filter_meanings options true (label number) now) }
    {
        self.outbox.make_room()?;
        let out = self.engine.add_client(options, true, label(number), now)?;
        self.outbox.keep(out.sent);
        *client = out.reply.number;
        Ok(())
    }

    /// Adds a client with the options of another, and queues of its own.
    #[tactic(auto, using(crate::proofs::Calling::called, crate::proofs::Calling::refused, crate::proofs::Calling::unasked))]
    pub fn clone_client(&mut self, client: u64, now: u64, clone: &mut u64) -> Result<(), CallFault>
        ensures { Calls self.old self.new result (λ key. clone.new ≡ key.number)
            (call.clone_client (client_key client) now) }
    {
        self.outbox.make_room()?;
        let out = self.engine.clone_client(client_key(client), now)?;
        self.outbox.keep(out.sent);
        *clone = out.reply.number;
        Ok(())
    }

    /// Gives a client back.
    #[tactic(auto, using(crate::proofs::Calling::called, crate::proofs::Calling::refused, crate::proofs::Calling::unasked))]
    pub fn drop_client(&mut self, client: u64) -> Result<(), CallFault>
        ensures { Calls self.old self.new result anything (call.drop_client (client_key client)) }
    {
        self.outbox.make_room()?;
        let out = self.engine.drop_client(client_key(client))?;
        self.outbox.keep(out.sent);
        Ok(())
    }

    /// Sets 1 where a client sends, and 0 where it doesn't.
    #[tactic(auto, using(crate::proofs::Calling::called, crate::proofs::Calling::refused, crate::proofs::Calling::unasked))]
    pub fn is_enabled(&mut self, client: u64, enabled: &mut u32) -> Result<(), CallFault>
        ensures { Calls self.old self.new result (λ is. enabled.new ≡ (if is then 1 else 0))
            (call.is_enabled (client_key client)) }
    {
        self.outbox.make_room()?;
        let out = self.engine.is_enabled(client_key(client))?;
        self.outbox.keep(out.sent);
        *enabled = u32::from(out.reply);
        Ok(())
    }

    /// Sends what waits in the client's queues.
    #[tactic(auto, using(crate::proofs::Calling::called, crate::proofs::Calling::refused, crate::proofs::Calling::unasked))]
    pub fn flush(&mut self, client: u64) -> Result<(), CallFault>
        ensures { Calls self.old self.new result anything (call.flush (client_key client)) }
    {
        self.outbox.make_room()?;
        let out = self.engine.flush(client_key(client))?;
        self.outbox.keep(out.sent);
        Ok(())
    }

    /// Sends what is due.
    #[tactic(auto, using(crate::proofs::Calling::called, crate::proofs::Calling::refused, crate::proofs::Calling::unasked))]
    pub fn tick(&mut self, client: u64, now: u64) -> Result<(), CallFault>
        ensures { Calls self.old self.new result anything (call.tick (client_key client) now) }
    {
        self.outbox.make_room()?;
        let out = self.engine.tick(client_key(client), now)?;
        self.outbox.keep(out.sent);
        Ok(())
    }

    /// Sends for the last time.
    #[tactic(auto, using(crate::proofs::Calling::called, crate::proofs::Calling::refused, crate::proofs::Calling::unasked))]
    pub fn close(&mut self, client: u64) -> Result<(), CallFault>
        ensures { Calls self.old self.new result anything (call.close (client_key client)) }
    {
        self.outbox.make_room()?;
        let out = self.engine.close(client_key(client))?;
        self.outbox.keep(out.sent);
        Ok(())
    }
}
