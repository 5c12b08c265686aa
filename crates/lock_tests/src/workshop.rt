//! What the tests are made of: a transport that takes notes, clients, events and losses.
use crate::quiet::{Passes, Quiet};
use sentry_base::protocol::{
    Category, ClientReport, Draw, Envelope, EnvelopeItem, Event, Fresh, Label, Log, LogLevel,
    LossSource, Losses, Reason, Refusal, SpanId, TraceId, Uuid,
};
use sentry_client_reports::{Recorder, TransportLossReason};
use sentry_lock::{Client, CoreLock, Locked, SharedCore, Waiting};
use sentry_options::ClientOptions;
use sentry_scope::Scope;
use sentry_transport::Transport;
use std::alloc::{AllocError, Global};
use std::sync::{Arc, Mutex, Wait};

pub(crate) type Options = ClientOptions<Quiet>;

/// The lock of a core over callbacks that do nothing. What acts on clients is generic in the lock, which is proved faster
/// than over this one.
pub(crate) type Lock<T, R> = Locked<Passes, Quiet, Arc<T>, Waiting<R>>;

/// What a transport was asked to do.
#[derive(Clone, Copy, PartialEq)]
pub(crate) enum Note {
    /// To send an event with this id.
    Send(u128),
    /// To send so many logs.
    SendLogs(usize),
    /// To flush, with this timeout.
    Flush(u64),
    /// To shut down, with this timeout.
    Shutdown(u64),
}

/// What a transport was asked to do so far, in order.
pub(crate) struct Notes {
    pub(crate) asked: Vec<Note>,
    /// What the reports of its envelopes tell.
    pub(crate) told: Losses,
}

impl Drop for Notes {
    fn drop(self) {
        let Notes { asked: _, told: _ } = self;
    }
}

impl Notes {
    pub(crate) fn new(alloc: Global) -> Notes {
        Notes {
            asked: Vec::new(alloc),
            told: Losses::none(),
        }
    }

    fn note(&mut self, envelope: &Envelope) {
        for item in envelope.items.as_slice() {
            match item {
                EnvelopeItem::Event(event) => {
                    drop(self.asked.push(Note::Send(event.event_id.as_u128())));
                }
                EnvelopeItem::ClientReport(report) => add_report(&mut self.told, report),
                EnvelopeItem::Logs(logs) => drop(self.asked.push(Note::SendLogs(logs.len()))),
                _ => {}
            }
        }
    }
}

/// Takes notes, and gives one answer to each flush and shutdown.
#[derive(Drop)]
pub(crate) struct Notebook<R: Wait + Drop> {
    rt: R,
    notes: Mutex<Notes>,
    answer: bool,
}

impl<R: Wait + Drop> Notebook<R> {
    pub(crate) fn new(rt: R, alloc: Global, answer: bool) -> Result<Arc<Notebook<R>>, AllocError> {
        let notes = Mutex::new(Notes::new(alloc));
        Ok(Arc::new(alloc, Notebook { rt, notes, answer })?)
    }

    /// The notes so far, which are then forgotten.
    pub(crate) fn take(&self, alloc: Global) -> Notes {
        let mut notes = self.notes.lock(&self.rt);
        std::mem::replace(&mut *notes, Notes::new(alloc))
    }
}

impl<R: Wait + Drop> Transport for Notebook<R> {
    fn send_envelope(&self, envelope: Envelope) {
        self.notes.lock(&self.rt).note(&envelope);
    }

    fn flush(&self, timeout: u64) -> bool {
        drop(self.notes.lock(&self.rt).asked.push(Note::Flush(timeout)));
        self.answer
    }

    fn shutdown(&self, timeout: u64) -> bool {
        drop(
            self.notes
                .lock(&self.rt)
                .asked
                .push(Note::Shutdown(timeout)),
        );
        self.answer
    }
}

/// Options with a DSN.
pub(crate) fn options(alloc: Global, is_starving: bool) -> Result<Options, Refusal> {
    let mut callbacks = Quiet::new();
    callbacks.is_starving = is_starving;
    ClientOptions::with_callbacks(alloc, callbacks).dsn("https://key@sentry.example.com/42")
}

/// A client, its label, and the recorder of its transport, until that is let go.
pub(crate) struct Held<L> {
    pub(crate) client: Client<L>,
    pub(crate) label: Label,
    pub(crate) recorder: Option<Recorder>,
}

impl<L: Drop> Drop for Held<L> {
    fn drop(self) {
        let Held {
            client: _,
            label: _,
            recorder: _,
        } = self;
    }
}

impl<T: Transport + Drop, R: Wait + Drop> Held<Lock<T, R>> {
    /// On a new core.
    pub(crate) fn new(
        rt: R,
        alloc: Global,
        options: Options,
        transport: Option<Arc<T>>,
    ) -> Result<Held<Lock<T, R>>, Refusal> {
        let core = SharedCore::new(Waiting(rt), alloc, 1)?;
        Held::on(&core, options, transport)
    }
}

impl<R: Wait + Drop + Copy> Held<Lock<Notebook<R>, R>> {
    /// On a new core, and the notebook to which it sends, which gives this answer.
    pub(crate) fn noted(
        rt: R,
        alloc: Global,
        options: Options,
        answer: bool,
    ) -> Result<(Held<Lock<Notebook<R>, R>>, Arc<Notebook<R>>), Refusal> {
        let notebook = Notebook::new(rt, alloc, answer)?;
        let held = Held::new(rt, alloc, options, Some(notebook.clone()?))?;
        Ok((held, notebook))
    }
}

impl<L: CoreLock> Held<L> {
    /// On a core that is there.
    pub(crate) fn on(
        core: &SharedCore<L>,
        options: ClientOptions<L::Callbacks>,
        transport: Option<L::Transport>,
    ) -> Result<Held<L>, Refusal> {
        let mut setup = core.client_setup(options)?;
        let label = setup.label();
        let recorder = match setup.transport_options()? {
            Some(made) => made.client_report_recorder,
            None => None,
        };
        let client = Client::with_options(setup, transport, 0)?;
        Ok(Held {
            client,
            label,
            recorder,
        })
    }

    /// Records that an error was lost in the network, if the recorder is held.
    pub(crate) fn lose_error(&mut self) {
        if let Some(recorder) = &mut self.recorder {
            lose_error(recorder);
        }
    }

    /// What is pending under its label, which then counts as reported.
    pub(crate) fn take_report(&self) -> Result<Option<ClientReport>, Refusal> {
        self.client.core().take_report(self.label)
    }

    /// How many errors stay pending, which then count as reported.
    pub(crate) fn pending(&self) -> Result<u64, Refusal> {
        match self.client.core().take_report(self.label)? {
            None => Ok(0),
            Some(report) => {
                let mut told = Losses::none();
                add_report(&mut told, &report);
                Ok(network_errors(&told))
            }
        }
    }

    /// What is drained of its words and absorbed.
    pub(crate) fn drain(&self) -> Result<Option<Losses>, Refusal> {
        self.client.core().drain_and_absorb(self.label)
    }

    /// Whether its words are closed then.
    pub(crate) fn close_losses(&self) -> Result<bool, Refusal> {
        self.client.core().close_losses(self.label)
    }
}

/// The ids and the moment of a call, from a number.
pub(crate) fn fresh(number: u64) -> Fresh {
    Fresh {
        now: number,
        uuid: Uuid::nil(),
        trace_id: TraceId([3; 16]),
        span_id: SpanId([4; 8]),
        draw: Draw::new(0).unwrap(),
    }
}

/// Captures a log on a client.
pub(crate) fn capture_log<L: CoreLock>(client: &Client<L>) -> Result<(), Refusal> {
    let alloc = client.core().allocator();
    let scope = Scope::new(alloc, TraceId([1; 16]), SpanId([2; 8]));
    client.capture_log(Log::new(alloc, LogLevel::Info, "waits", 1)?, &scope)
}

/// Captures an event of a number on a client.
pub(crate) fn capture_event<L: CoreLock>(client: &Client<L>, number: u64) -> Result<Uuid, Refusal> {
    let alloc = client.core().allocator();
    let scope = Scope::new(alloc, TraceId([1; 16]), SpanId([2; 8]));
    client.capture_event(event(alloc, number)?, Some(&scope), fresh(number))
}

/// An event with the id of a number: different numbers give different ids.
pub(crate) fn event(alloc: Global, number: u64) -> Result<Event, AllocError> {
    Event::new(alloc, Uuid::from_u128(u128::from(number)), number)
}

/// The loss of an error, without the error.
#[derive(Clone, Copy)]
struct LostError;

impl LossSource for LostError {
    ghost use Rattle.sentry_base.specs.Losses.{loss_of};
    ghost use Rattle.sentry_base.specs.declared.protocol.losses.Category.TheVariants as of_category;

    ghost losses_under = { λ _ reason. loss_of of_category.Error reason 1 };

    fn losses(&self, reason: Reason) -> Losses {
        Losses::of(Category::Error, reason, 1)
    }
}

/// Records that an error was lost in the network.
pub(crate) fn lose_error(recorder: &mut Recorder) {
    recorder.record_lost_data(&LostError, TransportLossReason::NetworkError);
}

/// Adds what a report tells.
pub(crate) fn add_report(sums: &mut Losses, report: &ClientReport) {
    for item in report.items.as_slice() {
        sums.add(&Losses::of(item.category, item.reason, item.quantity));
    }
}

/// How many errors these say were lost in the network.
pub(crate) fn network_errors(losses: &Losses) -> u64 {
    losses.get(Category::Error, Reason::NetworkError)
}

/// What came to a transport: how many events, how many different ones, and how many logs.
#[derive(Clone, Copy)]
pub(crate) struct Came {
    pub(crate) events: u64,
    pub(crate) different: u64,
    pub(crate) logs: u64,
}

pub(crate) fn what_came(alloc: Global, asked: &[Note]) -> Result<Came, AllocError> {
    let mut ids = Vec::new(alloc);
    let mut logs = 0u64;
    for note in asked {
        match note {
            Note::Send(id) => ids.push(*id)?,
            Note::SendLogs(more) => logs = logs.wrapping_add(*more as u64),
            Note::Flush(_) | Note::Shutdown(_) => {}
        }
    }
    let events = ids.len() as u64;
    ids.sort()?;
    ids.dedup();
    let different = ids.len() as u64;
    Ok(Came {
        events,
        different,
        logs,
    })
}
