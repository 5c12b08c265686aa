//! What the tests are made of: a clock that stands, an inner transport that takes notes, options and envelopes.
use sentry_base::clock::Clock;
use sentry_base::protocol::{Envelope, EnvelopeItem, Event, Refusal, Uuid};
use sentry_client_reports::Recorder;
use sentry_options::UserAgent;
use sentry_plain::Boxed;
use sentry_texts::dsn::Dsn;
use sentry_transport::{QueueTransport, Transport, TransportOptions};
use std::alloc::{AllocError, Global};
use std::num::NonZeroUsize;
use std::sync::atomic::{AtomicU64, Ordering};
use std::sync::{Barrier, Mutex, Wait};

/// Stands at the moment 5.
#[derive(Drop)]
pub(crate) struct Five;

impl Clock for Five {
    fn now(&mut self) -> u64 {
        5
    }
}

/// Notes what it is to send, and what it is asked to wait.
#[derive(Drop)]
pub(crate) struct Notebook<R: Wait + Drop> {
    rt: R,
    notes: Mutex<String>,
    answer: bool,
}

impl<R: Wait + Drop> Notebook<R> {
    /// It is empty. Each flush and shutdown has this answer.
    pub(crate) fn new(rt: R, alloc: Global, answer: bool) -> Notebook<R> {
        Notebook {
            rt,
            notes: Mutex::new(String::new(alloc)),
            answer,
        }
    }

    fn note(&self, word: &str, number: u128) {
        let mut notes = self.notes.lock(&self.rt);
        drop(write!(notes, " {word} {number}"));
    }

    /// The notes so far, in order, which are then forgotten.
    pub(crate) fn take(&self, alloc: Global) -> String {
        let mut notes = self.notes.lock(&self.rt);
        std::mem::replace(&mut *notes, String::new(alloc))
    }
}

impl<R: Wait + Drop> Transport for Notebook<R> {
    fn send_envelope(&self, envelope: Envelope) {
        if let Some(id) = envelope.header.event_id {
            self.note("event", id.as_u128());
        }
    }

    fn flush(&self, timeout: u64) -> bool {
        self.note("flush", u128::from(timeout));
        self.answer
    }

    fn shutdown(&self, timeout: u64) -> bool {
        self.note("shutdown", u128::from(timeout));
        self.answer
    }
}

/// The options of a transport, with room for so many envelopes, if a number is given, and with a recorder or none.
pub(crate) fn transport_options(
    alloc: Global,
    capacity: Option<NonZeroUsize>,
    recorder: Option<Recorder>,
) -> Result<TransportOptions, Refusal> {
    Ok(TransportOptions {
        dsn: Dsn::parse(alloc, "https://key@sentry.example.com/42")?,
        user_agent: UserAgent::of_sdk(),
        http_proxy: None,
        https_proxy: None,
        accept_invalid_certs: false,
        transport_channel_capacity: capacity,
        client_report_recorder: recorder,
    })
}

/// A queue over a transport, with a clock that stands at 5.
pub(crate) type Queue<R, T> = QueueTransport<R, T, Five>;

/// An envelope of an event with the id of a number.
pub(crate) fn event_alone(alloc: Global, number: u64) -> Result<Envelope, AllocError> {
    let event = Event::new(alloc, Uuid::from_u128(u128::from(number)), number)?;
    let mut envelope = Envelope::new(alloc);
    envelope.add_item(EnvelopeItem::Event(Boxed::new(alloc, event)?))?;
    Ok(envelope)
}

/// Sends such envelopes.
pub(crate) fn send<T: Transport>(
    queue: &T,
    alloc: Global,
    numbers: &[u64],
) -> Result<(), AllocError> {
    for number in numbers {
        queue.send_envelope(event_alone(alloc, *number)?);
    }
    Ok(())
}

/// A queue over a notebook.
pub(crate) fn queue_over_notes<R: Wait + Drop + Copy>(
    rt: R,
    alloc: Global,
    capacity: Option<NonZeroUsize>,
    answer: bool,
) -> Result<Queue<R, Notebook<R>>, Refusal> {
    let options = transport_options(alloc, capacity, None)?;
    QueueTransport::new(rt, alloc, options, Notebook::new(rt, alloc, answer), Five)
}

/// Counts what it is to send. In the midst of the first, it meets another thread twice.
#[derive(Drop)]
pub(crate) struct Meets<R: Wait + Drop> {
    rt: R,
    pub(crate) sent: AtomicU64,
    barrier: Barrier,
}

impl<R: Wait + Drop> Meets<R> {
    /// Waits for another thread that calls this.
    pub(crate) fn meet(&self) {
        self.barrier.wait(&self.rt);
    }
}

impl<R: Wait + Drop> Transport for Meets<R> {
    fn send_envelope(&self, _envelope: Envelope) {
        if self.sent.fetch_add(1, Ordering::SeqCst) == 0 {
            self.meet();
            self.meet();
        }
    }
}

/// A queue over one of these.
pub(crate) fn meeting_queue<R: Wait + Drop + Copy>(
    rt: R,
    alloc: Global,
) -> Result<Queue<R, Meets<R>>, Refusal> {
    let meets = Meets {
        rt,
        sent: AtomicU64::new(0),
        barrier: Barrier::new(2),
    };
    QueueTransport::new(
        rt,
        alloc,
        transport_options(alloc, None, None)?,
        meets,
        Five,
    )
}
