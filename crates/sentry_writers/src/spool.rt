//! A folder into which envelopes are put, a file each.
ghost use Rattle.std.specs.Prelude.{◌≡◌, ◌||◌, not, Some, None, false, is_some, codes, length, IfOk, IfSome, OnOk, OnErr};
ghost use Rattle.sentry_client_reports.specs.declared.client_reports.reason.TransportLossReason.TheVariants.{InternalError};
ghost use Rattle.sentry_writers.specs.Folders.{PutsFile, Runs, trial_calls};
ghost use Rattle.sentry_writers.specs.Sending.{recorder_after};
ghost use Rattle.sentry_writers.specs.Spooling.{PutsNext, Spools};
ghost use Rattle.sentry_writers.specs.Usages.{IsWithin, with_file};

use crate::folder::{Folder, FolderError, Usage};
use crate::losses::LossLog;
use crate::stamps::{ENDING, Stamp, Stamps, TRIAL_NAME};
use sentry_base::clock::Clock;
use sentry_base::protocol::Envelope;
use sentry_client_reports::{Recorder, TransportLossReason};
use std::alloc::{AllocError, Global};
use std::io;

/// Puts each envelope into a folder, as a file that is whole as soon as it has its name. A file beyond the limits is not
/// written, and its envelope is recorded as lost.
pub struct Spool<F, K> {
    folder: F,
    stamps: Stamps<K>,
    limits: Usage,
    used: Usage,
    losses: LossLog,
}

impl<F: Drop, K: Drop> Drop for Spool<F, K> {
    fn drop(self) {
        let Spool {
            folder: _,
            stamps: _,
            limits: _,
            used: _,
            losses: _,
        } = self;
    }
}

impl Usage {
    // With one more file of this length, if that is within the limits.
    fn with_file(self, length: u64, limits: Usage) -> Option<Usage>
        ensures { result ≡ with_file limits length self }
    {
        let files = self.files.checked_add(1)?;
        let bytes = self.bytes.checked_add(length)?;
        if limits.files < files || limits.bytes < bytes {
            return None;
        }
        Some(Usage { files, bytes })
    }
}

// Puts a file into a folder: writes it under a first name and then gives it its own. Answers whether it is there. Where
// that failed, what may stand under the first name is removed.
fn put_file<F: Folder>(folder: &mut F, partial: &str, name: &str, text: &[u8]) -> bool
    ensures { PutsFile partial.now name.now text.now F.does result folder.old folder.new }
{
    if folder.write(partial, text).is_err() {
        drop(folder.remove(partial));
        return false;
    }
    if folder.rename(partial, name).is_err() {
        drop(folder.remove(partial));
        return false;
    }
    true
}

// Writes an empty file under a name that no envelope gets, and removes it.
fn try_writing<F: Folder>(folder: &mut F) -> io::Result<()>
    ensures { OnOk result (Runs F.does trial_calls folder.old folder.new) }
{
    let written = folder.write(TRIAL_NAME, b"");
    let removed = folder.remove(TRIAL_NAME);
    written?;
    removed
}

// Tries a folder, and answers what the files of envelopes take.
fn try_folder<F: Folder>(folder: &mut F) -> io::Result<Usage>
    ensures tried { OnOk result (Runs F.does trial_calls folder.old folder.new) }
    ensures used { IfOk result (λ used. F.has folder.new (codes ".envelope") used) }
{
    try_writing(folder)?;
    folder.measure(ENDING)
}

impl<F: Folder + Drop, K: Clock + Drop> Spool<F, K> {
    /// Into this folder, with at most so many files and bytes in it. Files that stand there already count too. Without a
    /// recorder, losses are not counted. The folder is tried: an empty file is written and removed.
    ///
    /// `Unusable`: the folder isn't there, or can't be written to or read. `OutOfMemory`.
    pub fn new(
        alloc: Global,
        folder: F,
        limits: Usage,
        recorder: Option<Recorder>,
        clock: K,
    ) -> Result<Spool<F, K>, FolderError>
        ensures tried { IfOk result (λ spool. Runs F.does trial_calls folder spool.folder) }
        ensures used { IfOk result (λ spool. F.has spool.folder (codes ".envelope") spool.used) }
        ensures limits { IfOk result (λ spool. spool.limits ≡ limits) }
        ensures recorder { IfOk result (λ spool. spool.losses.recorder ≡ recorder) }
        ensures lost { IfOk result (λ spool. spool.losses.has_lost ≡ false) }
    {
        let mut folder = folder;
        match try_folder(&mut folder) {
            Err(error) => Err(FolderError::at(alloc, folder.path(), error)),
            Ok(used) => Ok(Spool {
                folder,
                stamps: Stamps::new(clock),
                limits,
                used,
                losses: LossLog::new(recorder),
            }),
        }
    }

    // What the folder has with one more file of this length, if that is within the limits. Others may have removed files
    // since it was measured, so it is measured again before the answer is no.
    fn room_for(&self, length: u64) -> io::Result<Option<Usage>>
        ensures { IfOk result (λ after. IfSome after (IsWithin self.now.limits length)) }
    {
        if let Some(after) = self.used.with_file(length, self.limits) {
            return Ok(Some(after));
        }
        let used = self.folder.measure(ENDING)?;
        Ok(used.with_file(length, self.limits))
    }

    // Puts a text into the folder under the next name, and answers whether it is there.
    fn put_next(&mut self, alloc: Global, text: &[u8]) -> bool
        ensures folder { PutsNext F.does self.new.stamps.last text.now result self.old.folder self.new.folder }
        ensures limits { self.new.limits ≡ self.old.limits }
        ensures losses { self.new.losses ≡ self.old.losses }
    {
        let Some(stamp) = self.stamps.next() else {
            return false;
        };
        let Ok(partial) = stamp.partial_name(alloc) else {
            return false;
        };
        let Ok(name) = stamp.file_name(alloc) else {
            return false;
        };
        put_file(&mut self.folder, partial.as_str(), name.as_str(), text)
    }

    // Puts a text into the folder, after which that has so much. Answers why it was lost, if it was.
    fn put_counted(
        &mut self,
        alloc: Global,
        text: &[u8],
        after: Usage,
    ) -> Option<TransportLossReason>
        ensures folder { Spools F.does self.new.stamps.last text.now result self.old.folder self.new.folder }
        ensures used { result ≡ None → self.new.used ≡ after }
        ensures limits { self.new.limits ≡ self.old.limits }
        ensures losses { self.new.losses ≡ self.old.losses }
    {
        if !self.put_next(alloc, text) {
            return Some(TransportLossReason::InternalError);
        }
        self.used = after;
        None
    }

    // Puts a text into the folder, if there is room. Answers why it was lost, if it was.
    fn put_text(&mut self, alloc: Global, text: &[u8]) -> Option<TransportLossReason>
        ensures folder { Spools F.does self.new.stamps.last text.now result self.old.folder self.new.folder }
        ensures room { result ≡ None → IsWithin self.old.limits (length text.now) self.new.used }
        ensures limits { self.new.limits ≡ self.old.limits }
        ensures losses { self.new.losses ≡ self.old.losses }
    {
        match self.room_for(text.len() as u64) {
            Err(_) => Some(TransportLossReason::InternalError),
            Ok(None) => Some(TransportLossReason::QueueOverflow),
            Ok(Some(after)) => self.put_counted(alloc, text, after),
        }
    }

    // The same of a text for which there may have been no memory.
    fn put(
        &mut self,
        alloc: Global,
        text: Result<Vec<u8>, AllocError>,
    ) -> Option<TransportLossReason>
        ensures folder { IfOk text (λ text. Spools F.does self.new.stamps.last text.items result self.old.folder self.new.folder) }
        ensures unmade { OnErr text ((self.new.folder ≡ self.old.folder) × (result ≡ Some InternalError)) }
        ensures room { IfOk text (λ text. result ≡ None → IsWithin self.old.limits (length text.items) self.new.used) }
        ensures limits { self.new.limits ≡ self.old.limits }
        ensures losses { self.new.losses ≡ self.old.losses }
    {
        match text {
            Err(_) => Some(TransportLossReason::InternalError),
            Ok(text) => self.put_text(alloc, text.as_slice()),
        }
    }

    /// Puts the text of an envelope into the folder. Where that failed, records the envelope as lost and answers the
    /// reason: `QueueOverflow` where the limits leave no room, and `InternalError` where memory ran out, for the text or
    /// here, or the folder failed.
    pub fn send(
        &mut self,
        alloc: Global,
        envelope: &Envelope,
        text: Result<Vec<u8>, AllocError>,
    ) -> Option<TransportLossReason>
        ensures folder { IfOk text (λ text. Spools F.does self.new.stamps.last text.items result self.old.folder self.new.folder) }
        ensures unmade { OnErr text ((self.new.folder ≡ self.old.folder) × (result ≡ Some InternalError)) }
        ensures room { IfOk text (λ text. result ≡ None → IsWithin self.old.limits (length text.items) self.new.used) }
        ensures limits { self.new.limits ≡ self.old.limits }
        ensures recorder { self.new.losses.recorder ≡ recorder_after result envelope.now self.old.losses.recorder }
        ensures lost { self.new.losses.has_lost ≡ (is_some result || self.old.losses.has_lost) }
    {
        let lost = self.put(alloc, text);
        self.losses.note(envelope, lost);
        lost
    }

    /// Answers whether each envelope since the last such question was put into the folder.
    pub fn settle(&mut self) -> bool
        ensures answer { result ≡ not self.old.losses.has_lost }
        ensures anew { self.new.losses.has_lost ≡ false }
        ensures recorder { self.new.losses.recorder ≡ self.old.losses.recorder }
        ensures folder { self.new.folder ≡ self.old.folder }
    {
        self.losses.settle()
    }
}
