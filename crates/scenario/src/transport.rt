//! Transports that keep what they are handed.
use sentry_base::protocol::{ClientKey, Envelope};
use sentry_transport::Transport;
use std::alloc::{AllocError, Global};
use std::sync::{Arc, Mutex, Wait};

/// An envelope, and the client whose transport it was handed to.
pub type SentEnvelope = (ClientKey, Envelope);

/// What transports were handed since it was last taken.
#[derive(Drop)]
pub struct Mailbox<R> {
    rt: R,
    sent: Mutex<Vec<SentEnvelope>>,
}

impl<R: Wait> Mailbox<R> {
    /// A mailbox that holds nothing. It takes no memory.
    pub fn new(rt: R, alloc: Global) -> Mailbox<R> {
        Mailbox {
            rt,
            sent: Mutex::new(Vec::new(alloc)),
        }
    }

    /// Makes room for so many more envelopes, which then take no memory.
    pub fn reserve(&self, count: usize) -> Result<(), AllocError> {
        self.sent.lock(&self.rt).reserve(count)
    }

    /// What it holds, in the order in which it came, which it then holds no more. It takes no memory.
    pub fn take(&self, alloc: Global) -> Vec<SentEnvelope> {
        let mut sent = self.sent.lock(&self.rt);
        std::mem::replace(&mut *sent, Vec::new(alloc))
    }

    // There is room for it.
    fn put(&self, sent: SentEnvelope) {
        drop(self.sent.lock(&self.rt).push(sent));
    }
}

/// The transport of a client, which a clone of the client has too.
#[derive(Drop)]
pub struct Post<R> {
    client: ClientKey,
    mailbox: Arc<Mailbox<R>>,
}

impl<R> Post<R> {
    /// A transport that puts into this mailbox what the client of this key sends.
    pub fn new(client: ClientKey, mailbox: Arc<Mailbox<R>>) -> Post<R> {
        Post { client, mailbox }
    }
}

impl<R: Wait> Transport for Post<R> {
    fn send_envelope(&self, envelope: Envelope) {
        self.mailbox.put((self.client, envelope));
    }
}
