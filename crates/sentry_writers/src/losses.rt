//! What a transport tells of the envelopes that it loses.
ghost use Rattle.std.specs.Prelude.{◌≡◌, ◌||◌, not, Some, false, is_some};
ghost use Rattle.sentry_writers.specs.Sending.{recorder_after};

use sentry_base::protocol::Envelope;
use sentry_client_reports::{Recorder, TransportLossReason};
use std::mem;

/// Records each envelope that is lost, if there is a recorder, and keeps whether one was since it was last asked.
#[derive(Drop)]
pub struct LossLog {
    recorder: Option<Recorder>,
    has_lost: bool,
}

impl LossLog {
    /// Nothing was lost yet. Without a recorder, losses are not counted.
    pub fn new(recorder: Option<Recorder>) -> LossLog
        ensures recorder { result.recorder ≡ recorder }
        ensures lost { result.has_lost ≡ false }
    {
        LossLog {
            recorder,
            has_lost: false,
        }
    }

    /// Notes that an envelope was sent, or was lost for this reason.
    pub fn note(&mut self, envelope: &Envelope, lost: Option<TransportLossReason>)
        ensures recorder { self.new.recorder ≡ recorder_after lost envelope.now self.old.recorder }
        ensures lost { self.new.has_lost ≡ (is_some lost || self.old.has_lost) }
    {
        let Some(reason) = lost else {
            return;
        };
        self.has_lost = true;
        self.recorder = recorded(self.recorder.take(), envelope, reason);
    }

    /// Answers whether nothing was lost since the last such question.
    pub fn settle(&mut self) -> bool
        ensures answer { result ≡ not self.old.has_lost }
        ensures anew { self.new.has_lost ≡ false }
        ensures recorder { self.new.recorder ≡ self.old.recorder }
    {
        !mem::replace(&mut self.has_lost, false)
    }
}

// The recorder, if there is one, after an envelope was lost for this reason.
fn recorded(
    recorder: Option<Recorder>,
    envelope: &Envelope,
    reason: TransportLossReason,
) -> Option<Recorder>
    ensures { result ≡ recorder_after (Some reason) envelope.now recorder }
{
    match recorder {
        None => None,
        Some(mut recorder) => {
            recorder.record_lost_data(envelope, reason);
            Some(recorder)
        }
    }
}
