//! A writer to which envelopes are written.
ghost use Rattle.std.specs.Prelude.{◌≡◌, ◌||◌, not, Some, false, is_some, IfOk, OnOk, OnErr};
ghost use Rattle.std.specs.Io.KnownBytes.{Appends};
ghost use Rattle.sentry_client_reports.specs.declared.client_reports.reason.TransportLossReason.TheVariants.{InternalError};
ghost use Rattle.sentry_framing.specs.Sending.{AppendsFront};
ghost use Rattle.sentry_writers.specs.Sending.{recorder_after};
ghost use Rattle.sentry_writers.specs.Writing.{IsWritten};

use crate::losses::LossLog;
use sentry_base::protocol::Envelope;
use sentry_client_reports::{Recorder, TransportLossReason};
use sentry_framing::sending::write_bytes;
use std::alloc::AllocError;
use std::io;
use std::io::Write;

/// Writes each envelope to a writer, and flushes it.
#[derive(Drop)]
pub struct EnvelopeWriter<W> {
    writer: W,
    losses: LossLog,
}

impl<W: Write + Drop> EnvelopeWriter<W> {
    /// To this writer. Without a recorder, losses are not counted.
    pub fn new(writer: W, recorder: Option<Recorder>) -> EnvelopeWriter<W>
        ensures writer { result.writer ≡ writer }
        ensures recorder { result.losses.recorder ≡ recorder }
        ensures lost { result.losses.has_lost ≡ false }
    {
        let losses = LossLog::new(recorder);
        EnvelopeWriter { writer, losses }
    }

    // After an error a beginning of it stands written, once.
    #[tactic(auto, using(crate::proofs::WritingLemmas::flushed, crate::proofs::WritingLemmas::not_flushed))]
    fn write(&mut self, text: &[u8]) -> io::Result<()>
        ensures ok { OnOk result (Appends (W.contents self.old.writer) (W.contents self.new.writer) text.now) }
        ensures err { OnErr result (AppendsFront (W.contents self.old.writer) (W.contents self.new.writer) text.now) }
        ensures losses { self.new.losses ≡ self.old.losses }
    {
        write_bytes(&mut self.writer, text)?;
        self.writer.flush()?;
        Ok(())
    }

    fn write_text(&mut self, text: &[u8]) -> Option<TransportLossReason>
        ensures written { IsWritten (W.contents self.old.writer) (W.contents self.new.writer) text.now result }
        ensures losses { self.new.losses ≡ self.old.losses }
    {
        match self.write(text) {
            Ok(()) => None,
            Err(_) => Some(TransportLossReason::InternalError),
        }
    }

    // Of a text for which there may have been no memory.
    fn write_if_made(&mut self, text: Result<Vec<u8>, AllocError>) -> Option<TransportLossReason>
        ensures written { IfOk text (λ text. IsWritten (W.contents self.old.writer) (W.contents self.new.writer) text.items result) }
        ensures unmade { OnErr text ((self.new.writer ≡ self.old.writer) × (result ≡ Some InternalError)) }
        ensures losses { self.new.losses ≡ self.old.losses }
    {
        match text {
            Err(_) => Some(TransportLossReason::InternalError),
            Ok(text) => self.write_text(text.as_slice()),
        }
    }

    /// Writes the text of an envelope. Where that failed, because there was no memory for the text or the writer failed,
    /// it records the envelope as lost and answers the reason, `InternalError`. Then a beginning of the text stands
    /// written, once.
    pub fn send(
        &mut self,
        envelope: &Envelope,
        text: Result<Vec<u8>, AllocError>,
    ) -> Option<TransportLossReason>
        ensures written { IfOk text (λ text. IsWritten (W.contents self.old.writer) (W.contents self.new.writer) text.items result) }
        ensures unmade { OnErr text ((self.new.writer ≡ self.old.writer) × (result ≡ Some InternalError)) }
        ensures recorder { self.new.losses.recorder ≡ recorder_after result envelope.now self.old.losses.recorder }
        ensures lost { self.new.losses.has_lost ≡ (is_some result || self.old.losses.has_lost) }
    {
        let lost = self.write_if_made(text);
        self.losses.note(envelope, lost);
        lost
    }

    /// Answers whether each envelope since the last such question was written.
    pub fn settle(&mut self) -> bool
        ensures answer { result ≡ not self.old.losses.has_lost }
        ensures anew { self.new.losses.has_lost ≡ false }
        ensures recorder { self.new.losses.recorder ≡ self.old.losses.recorder }
        ensures writer { self.new.writer ≡ self.old.writer }
    {
        self.losses.settle()
    }
}
