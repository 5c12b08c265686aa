//! A transport behind a queue.
use sentry_core::{Envelope, Transport};
use std::sync::{Mutex, Wait};

/// Keeps the last envelope that it was to send.
#[derive(Drop)]
pub struct Keeper<R: Wait + Drop> {
    rt: R,
    kept: Mutex<Option<Envelope>>,
}

impl<R: Wait + Drop> Keeper<R> {
    pub fn new(rt: R) -> Keeper<R> {
        Keeper {
            rt,
            kept: Mutex::new(None),
        }
    }

    /// The envelope, if there is one.
    pub fn take(&self) -> Option<Envelope> {
        let mut kept = self.kept.lock(&self.rt);
        kept.take()
    }
}

impl<R: Wait + Drop> Transport for Keeper<R> {
    fn send_envelope(&self, envelope: Envelope) {
        let mut kept = self.kept.lock(&self.rt);
        *kept = Some(envelope);
    }
}
