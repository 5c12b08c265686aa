//! Envelopes on their way from the lock to the transports.
ghost use Rattle.std.specs.Prelude.{◌≡◌, Err, IfErr, IfOk, Ok};

use sentry_base::protocol::{ClientKey, Envelope, Refusal};
use sentry_engine::{Out, Sent};
use sentry_plain::{Shared, Table};
use sentry_transport::Transport;
use std::alloc::AllocError;

/// The reply of a call that hands nothing out.
pub(crate) fn reply_of<A: Drop>(answer: Result<Out<A>, Refusal>) -> Result<A, Refusal>
    ensures ok { IfOk answer (λ out. result ≡ Ok out.reply) }
    ensures err { IfErr answer (λ refusal. result ≡ Err refusal) }
{
    match answer {
        Ok(out) => Ok(out.reply),
        Err(refusal) => Err(refusal),
    }
}

/// The transports by the number of their client. A call takes a share of the whole table before it changes the engine, so
/// that nothing needs memory after it.
pub(crate) type TransportTable<T> = Shared<Table<Shared<T>>>;

/// What envelopes are handed to: the transports of all clients, or that of the only client that sends.
#[derive(Drop)]
pub(crate) enum Transports<T> {
    All(TransportTable<T>),
    One(Shared<T>),
}

impl<T> Transports<T> {
    // The transport of a client, which sends.
    fn of(&self, client: ClientKey) -> Option<&Shared<T>> {
        match self {
            Transports::All(table) => table.get().get(client.number),
            Transports::One(transport) => Some(transport),
        }
    }
}

/// The transports, and a share of them that lies ready for a call that hands out envelopes. Most calls hand out none, and
/// so take none.
#[derive(Drop)]
pub(crate) struct Routes<T> {
    pub(crate) transports: TransportTable<T>,
    // To be given up before the transports are written to, which otherwise copies them.
    pub(crate) ready: Option<TransportTable<T>>,
}

impl<T: Drop> Routes<T> {
    /// By these transports.
    pub(crate) fn by(transports: TransportTable<T>) -> Routes<T> {
        Routes {
            transports,
            ready: None,
        }
    }

    /// A share of all transports.
    pub(crate) fn all(&self) -> Result<Transports<T>, AllocError> {
        let table = self.transports.clone()?;
        Ok(Transports::All(table))
    }

    /// Sees to it that a share lies ready.
    pub(crate) fn make_ready(&mut self) -> Result<(), AllocError> {
        if self.ready.is_none() {
            self.ready = Some(self.transports.clone()?);
        }
        Ok(())
    }

    /// The share that lies ready, if there is something to send.
    pub(crate) fn take_for(&mut self, sent: &Sent) -> Option<Transports<T>> {
        if sent.is_empty() {
            return None;
        }
        match self.ready.take() {
            Some(table) => Some(Transports::All(table)),
            None => None,
        }
    }
}

/// How a call ends at the transport of its client.
#[derive(Clone, Copy)]
pub(crate) enum Ending {
    Flush,
    Shutdown,
}

/// A reply, and the envelopes that are to be sent once the lock is free. A call that hands nothing out has no transports.
#[derive(Drop)]
pub(crate) struct Handed<A, T> {
    pub(crate) out: Out<A>,
    pub(crate) transports: Option<Transports<T>>,
}

impl<A: Drop, T: Transport + Drop> Handed<A, T> {
    /// Hands the envelopes to their transports. It takes no lock.
    pub(crate) fn deliver(self) -> A
        ensures { result ≡ self.out.reply }
    {
        let Handed { out, transports } = self;
        let Out { reply, sent } = out;
        let Some(transports) = transports else {
            return reply;
        };
        for (key, envelope) in sent.into_vec() {
            send(&transports, key, envelope);
        }
        reply
    }

    /// The same, and then ends at the transport of a client; true where it has none.
    pub(crate) fn deliver_and_end(self, key: ClientKey, ending: Ending, timeout: u64) -> bool {
        let Handed { out, transports } = self;
        let Some(transports) = transports else {
            return true;
        };
        for (key, envelope) in out.sent.into_vec() {
            send(&transports, key, envelope);
        }
        let Some(transport) = transports.of(key) else {
            return true;
        };
        match ending {
            Ending::Flush => transport.get().flush(timeout),
            Ending::Shutdown => transport.get().shutdown(timeout),
        }
    }
}

fn send<T: Transport>(transports: &Transports<T>, key: ClientKey, envelope: Envelope) {
    if let Some(transport) = transports.of(key) {
        transport.get().send_envelope(envelope);
    }
}
