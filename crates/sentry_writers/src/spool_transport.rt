//! A transport that puts envelopes into a folder.
use crate::folder::{Folder, FolderError, Usage};
use crate::spool::Spool;
use sentry_base::clock::Clock;
use sentry_base::protocol::Envelope;
use sentry_client_reports::Recorder;
use sentry_envelope::to_vec;
use sentry_transport::Transport;
use std::alloc::Global;
use std::sync::{Mutex, Wait};

/// Puts each envelope into a folder, as a file of its own that other programs send and remove. A file has its name only
/// when it is whole, and names stand in the order of sending. The folder has a lock of its own. An envelope for which the
/// limits leave no room is recorded as lost by an overflow, and one that can't be written by an internal error; both make
/// the next `flush` answer false.
#[derive(Drop)]
pub struct SpoolTransport<R: Wait + Drop, F, K> {
    rt: R,
    alloc: Global,
    spool: Mutex<Spool<F, K>>,
}

impl<R: Wait + Drop, F: Folder + Drop, K: Clock + Drop> SpoolTransport<R, F, K> {
    /// Over a folder, in which no more files and bytes are to stand than the limits say; those that stand there already
    /// count. The folder is one that no other program writes to. `rt` is what the lock waits with, the recorder is that
    /// of the transport's options (without one, losses are not counted), and the clock tells the moments in the names. The
    /// folder is tried: an empty file is written and removed.
    ///
    /// `Unusable` with the path: the folder isn't there, or can't be written to or read. `OutOfMemory`.
    pub fn new(
        rt: R,
        alloc: Global,
        recorder: Option<Recorder>,
        folder: F,
        limits: Usage,
        clock: K,
    ) -> Result<SpoolTransport<R, F, K>, FolderError> {
        let spool = Spool::new(alloc, folder, limits, recorder, clock)?;
        Ok(SpoolTransport {
            rt,
            alloc,
            spool: Mutex::new(spool),
        })
    }
}

/// Puts what it is handed into the folder at once, also after a shutdown.
impl<R: Wait + Drop, F: Folder + Drop, K: Clock + Drop> Transport for SpoolTransport<R, F, K> {
    fn send_envelope(&self, envelope: Envelope) {
        let text = to_vec(self.alloc, &envelope);
        self.spool.lock(&self.rt).send(self.alloc, &envelope, text);
    }

    /// Waits for nothing, and answers whether each envelope since the last flush or shutdown is in the folder.
    fn flush(&self, _timeout: u64) -> bool {
        self.spool.lock(&self.rt).settle()
    }
}
