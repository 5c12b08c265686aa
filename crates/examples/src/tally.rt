//! A transport that counts.
use sentry_core::protocol::EnvelopeItem;
use sentry_core::{Envelope, Transport};
use std::io;
use std::sync::atomic::{AtomicU64, Ordering};

/// Counts what it is to send, by kind, since the envelopes of several threads come in any order. Of sessions it counts
/// those of `SessionMode::Request` that exited or errored.
pub struct Tally {
    events: AtomicU64,
    transactions: AtomicU64,
    sessions: AtomicU64,
    logs: AtomicU64,
    metrics: AtomicU64,
    losses: AtomicU64,
}

impl Drop for Tally {
    fn drop(self) {
        let Tally {
            events: _,
            transactions: _,
            sessions: _,
            logs: _,
            metrics: _,
            losses: _,
        } = self;
    }
}

impl Tally {
    /// A transport that was handed nothing.
    pub fn new() -> Tally {
        Tally {
            events: AtomicU64::new(0),
            transactions: AtomicU64::new(0),
            sessions: AtomicU64::new(0),
            logs: AtomicU64::new(0),
            metrics: AtomicU64::new(0),
            losses: AtomicU64::new(0),
        }
    }

    fn count(&self, item: &EnvelopeItem) {
        match item {
            EnvelopeItem::Event(_) => add(&self.events, 1),
            EnvelopeItem::Transaction(_) => add(&self.transactions, 1),
            EnvelopeItem::Logs(logs) => add(&self.logs, logs.len() as u64),
            EnvelopeItem::Metrics(metrics) => add(&self.metrics, metrics.len() as u64),
            EnvelopeItem::SessionAggregates(counts) => {
                for count in counts.aggregates.as_slice() {
                    add(&self.sessions, u64::from(count.exited));
                    add(&self.sessions, u64::from(count.errored));
                }
            }
            EnvelopeItem::ClientReport(report) => {
                for lost in report.items.as_slice() {
                    add(&self.losses, lost.quantity);
                }
            }
            EnvelopeItem::SessionUpdate(_) | EnvelopeItem::Attachment(_) => {}
        }
    }

    /// A line for each kind.
    pub fn print(&self, rt: &impl Print) -> io::Result<()> {
        let counts = [
            ("events", &self.events),
            ("transactions", &self.transactions),
            ("sessions", &self.sessions),
            ("logs", &self.logs),
            ("metrics", &self.metrics),
            ("lost on purpose", &self.losses),
        ];
        for (name, count) in counts {
            println!(rt; "{name}: {}", count.load(Ordering::SeqCst))?;
        }
        Ok(())
    }
}

fn add(count: &AtomicU64, more: u64) {
    count.fetch_add(more, Ordering::SeqCst);
}

impl Transport for Tally {
    fn send_envelope(&self, envelope: Envelope) {
        for item in envelope.items.as_slice() {
            self.count(item);
        }
    }
}
