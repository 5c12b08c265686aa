//! Fetching what the calls handed out.
ghost use Rattle.std.specs.Prelude.{◌≡◌, [], OnOk, OnErr};
ghost use Rattle.c_base.specs.Outboxes.{waiting, Asks};
ghost use Rattle.c_engine.specs.Calls.{IsUnchanged};

use crate::outbox_engine::OutboxEngine;
use c_base::fault::CallFault;

impl OutboxEngine {
    /// The text of the next envelope, as `Outbox::take`: its length is 0 where none waits.
    pub fn next_envelope(
        &mut self,
        client: &mut u64,
        room: &mut [u8],
        length: &mut usize,
    ) -> Result<(), CallFault>
        ensures engine { self.new.engine ≡ self.old.engine }
        ensures asks { OnOk result (Asks (waiting self.old.outbox)
            (record { waits = waiting self.old.outbox; client = client.old; room = room.old })
            (record { waits = waiting self.new.outbox; client = client.new; room = room.new }) length.new) }
        ensures kept { OnErr result (IsUnchanged self.old self.new) }
    {
        *length = self.outbox.take(client, room)?;
        Ok(())
    }

    /// Forgets the envelopes that wait.
    pub fn drop_envelopes(&mut self)
        ensures engine { self.new.engine ≡ self.old.engine }
        ensures none { waiting self.new.outbox ≡ [] }
    {
        self.outbox.clear();
    }
}
