//! A transport that writes envelopes to a writer.
use crate::envelope_writer::EnvelopeWriter;
use sentry_base::protocol::Envelope;
use sentry_client_reports::Recorder;
use sentry_envelope::to_vec;
use sentry_transport::Transport;
use std::alloc::Global;
use std::io::Write;
use std::sync::{Mutex, Wait};

/// Writes the bytes of each envelope to a writer, such as standard output or a file, and flushes it. The writer has a
/// lock of its own, so that each envelope stands whole. An envelope that can't be written is recorded as lost by an
/// internal error, and makes the next `flush` answer false; the next envelope is tried as if nothing had been.
#[derive(Drop)]
pub struct WriterTransport<R: Wait + Drop, W> {
    rt: R,
    alloc: Global,
    writer: Mutex<EnvelopeWriter<W>>,
}

impl<R: Wait + Drop, W: Write + Drop> WriterTransport<R, W> {
    /// Over a writer. `rt` is what the lock waits with, and the recorder is that of the transport's options; without
    /// one, losses are not counted.
    pub fn new(
        rt: R,
        alloc: Global,
        recorder: Option<Recorder>,
        writer: W,
    ) -> WriterTransport<R, W> {
        WriterTransport {
            rt,
            alloc,
            writer: Mutex::new(EnvelopeWriter::new(writer, recorder)),
        }
    }
}

/// Writes what it is handed at once, also after a shutdown.
impl<R: Wait + Drop, W: Write + Drop> Transport for WriterTransport<R, W> {
    fn send_envelope(&self, envelope: Envelope) {
        let text = to_vec(self.alloc, &envelope);
        self.writer.lock(&self.rt).send(&envelope, text);
    }

    /// Waits for nothing, and answers whether each envelope since the last flush or shutdown was written.
    fn flush(&self, _timeout: u64) -> bool {
        self.writer.lock(&self.rt).settle()
    }
}
