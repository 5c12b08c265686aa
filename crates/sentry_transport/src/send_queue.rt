//! What a lock keeps, for several threads.

use crate::timed_queue::TimedQueue;
use std::marker::Model;

/// A queue that may go to another thread. Envelopes hold values, of which no library keeps a proof that they may, since a
/// value leads back to itself. So that proof is written here, once for all who share a queue.
#[derive(Drop)]
pub struct SendQueue<K> {
    pub queue: TimedQueue<K>,
}

impl<K> Model for SendQueue<K> {
    ghost use Rattle.std.specs.Borrow.{ftrue};

    ghost Value = { Unit };

    ghost view = { λ _. tt };

    ghost also_owns = { λ _. ftrue };
}

unsafe impl<K: Send> Send for SendQueue<K> {}

impl<K> SendQueue<K> {
    /// Of this queue.
    pub fn new(queue: TimedQueue<K>) -> SendQueue<K> {
        SendQueue { queue }
    }
}
