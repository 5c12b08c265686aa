//! Envelopes that wait until they are fetched.
ghost use Rattle.std.specs.Prelude.{◌≡◌, ◌<◌, ◌≤◌, ◌++◌, ◌∷◌, ◌↔◌, IsTrue, [], length, OnOk, OnErr, IfOk, vec_len, vec_capacity};
ghost use Rattle.c_base.specs.Outboxes.{waiting, Asks, Copies};
ghost use Rattle.c_base.specs.Queues.{noted};

use crate::queue::Queue;
use sentry_base::protocol::{ClientKey, Envelope};
use sentry_envelope::to_vec_with_stacktraces;
use sentry_plain::{Items, Value};
use std::alloc::{AllocError, Global};

/// Stack traces: of each exception of an event, or of the event if it has none.
pub type Stacktraces = Items<Option<Value>>;

/// The envelopes that calls handed out, in order, each with the stack traces of its event.
pub struct Outbox {
    queue: Queue<(ClientKey, Envelope), Stacktraces>,
}

impl Drop for Outbox {
    fn drop(self) {
        let Outbox { queue: _ } = self;
    }
}

/// Copies a text into room for it, and says whether there was enough.
pub fn copy_text(text: &[u8], room: &mut [u8]) -> bool
    ensures copied { Copies text.now room.old room.new }
    ensures fits { IsTrue result ↔ (length text.now ≤ length room.old) }
{
    let length = text.len();
    if length > room.len() {
        return false;
    }
    room[..length].copy_from_slice(text);
    true
}

impl Outbox {
    /// An empty outbox. It takes no memory.
    pub fn new(alloc: Global) -> Outbox
        ensures { waiting result ≡ [] }
    {
        Outbox {
            queue: Queue::new(alloc),
        }
    }

    /// Makes room for what one more call hands out, which `keep` then takes without memory.
    pub fn make_room(&mut self) -> Result<(), AllocError>
        ensures same { waiting self.new ≡ waiting self.old }
        ensures room { OnOk result (vec_len self.new.queue.later < vec_capacity self.new.queue.later) }
    {
        self.queue.make_room()
    }

    /// Keeps what a call handed out.
    pub fn keep(&mut self, sent: Items<(ClientKey, Envelope)>)
        requires { vec_len self.old.queue.later < vec_capacity self.old.queue.later }
        ensures { waiting self.new ≡ waiting self.old ++ noted [] sent }
    {
        let none = Items::new(self.queue.allocator());
        self.queue.keep(sent, none);
    }

    /// Keeps what a call handed out that sends an event, with the stack traces of that.
    pub fn keep_with(&mut self, sent: Items<(ClientKey, Envelope)>, stacktraces: Stacktraces)
        requires { vec_len self.old.queue.later < vec_capacity self.old.queue.later }
        ensures { waiting self.new ≡ waiting self.old ++ noted stacktraces sent }
    {
        self.queue.keep(sent, stacktraces);
    }

    /// Forgets all that waits.
    pub fn clear(&mut self)
        ensures { waiting self.new ≡ [] }
    {
        self.queue.clear();
    }

    /// Answers how many bytes the text of the next envelope has in Sentry's format, and sets the number of its client;
    /// 0 where none waits. If the room holds the text, it is copied there, and the envelope is taken; otherwise it goes
    /// on waiting, as where memory is refused for the text.
    pub fn take(&mut self, client: &mut u64, room: &mut [u8]) -> Result<usize, AllocError>
        ensures asks { IfOk result (λ answer. Asks (waiting self.old)
            (record { waits = waiting self.old; client = client.old; room = room.old })
            (record { waits = waiting self.new; client = client.new; room = room.new }) answer) }
        ensures err { OnErr result (waiting self.new ≡ waiting self.old) }
    {
        self.queue.turn();
        let Some((next, stacktraces)) = self.queue.first() else {
            return Ok(0);
        };
        let text = to_vec_with_stacktraces(
            self.queue.allocator(),
            &next.1,
            stacktraces.as_slice(),
        )?;
        *client = next.0.number;
        let length = text.len();
        if copy_text(text.as_slice(), room) {
            self.queue.remove_first();
        }
        Ok(length)
    }
}
