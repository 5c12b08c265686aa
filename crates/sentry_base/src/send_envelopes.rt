//! A list of envelopes, for several threads.

use crate::protocol::Envelope;
use sentry_plain::Items;
use std::marker::Model;

/// Envelopes that may go to another thread, for a transport that keeps them in a lock: `Mutex<SendEnvelopes>` may be
/// shared by threads, and so may a transport that has one.
///
/// Envelopes hold values, of which no library keeps a proof that they may go to another thread, since a value leads back
/// to itself. So that proof is written here, once for all who keep envelopes.
#[derive(Drop)]
pub struct SendEnvelopes {
    pub envelopes: Items<Envelope>,
}

impl Model for SendEnvelopes {
    ghost use Rattle.std.specs.Borrow.{ftrue};

    ghost Value = { Unit };

    ghost view = { λ _. tt };

    ghost also_owns = { λ _. ftrue };
}

// The proof is in `proofs/send_envelopes/SendEnvelopes/TheSendSync`.
unsafe impl Send for SendEnvelopes {}

impl SendEnvelopes {
    /// These envelopes.
    pub fn new(envelopes: Items<Envelope>) -> SendEnvelopes {
        SendEnvelopes { envelopes }
    }
}
