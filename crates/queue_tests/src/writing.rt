//! Transports that write: what they answer, and what they record, where the writer or the folder fails.
use crate::workshop::{Five, send};
use sentry_base::protocol::{Category, Label, Losses, Reason};
use sentry_client_reports::{Drainer, LossWords, Recorder};
use sentry_transport::Transport;
use sentry_writers::{Folder, FolderError, SpoolTransport, Usage, WriterTransport};
use std::alloc::{AllocError, Global};
use std::io;
use std::io::Write;
use std::sync::atomic::{AtomicU64, Ordering};
use std::sync::{Arc, Wait};
use std::test::Fail;

const LABEL: Label = Label { tag: 7, number: 6 };

/// A writer and a folder, which take all while the first word is 0. The second counts the flushes of the writer.
#[derive(Drop)]
struct Switched {
    fails: Arc<AtomicU64>,
    flushes: Arc<AtomicU64>,
}

impl Switched {
    fn result(&self) -> io::Result<()> {
        if self.fails.load(Ordering::SeqCst) == 0 {
            return Ok(());
        }
        Err(io::Error::other("switched off"))
    }
}

impl Write for Switched {
    fn write(&mut self, bytes: &[u8]) -> io::Result<usize> {
        self.result()?;
        Ok(bytes.len())
    }

    fn flush(&mut self) -> io::Result<()> {
        self.flushes.fetch_add(1, Ordering::SeqCst);
        self.result()
    }
}

impl Folder for Switched {
    fn path(&self) -> &str {
        "shelf"
    }

    fn write(&mut self, _name: &str, _bytes: &[u8]) -> io::Result<()> {
        self.result()
    }

    fn rename(&mut self, _from: &str, _to: &str) -> io::Result<()> {
        self.result()
    }

    fn remove(&mut self, _name: &str) -> io::Result<()> {
        self.result()
    }

    fn measure(&self, _ending: &str) -> io::Result<Usage> {
        self.result()?;
        Ok(Usage { files: 2, bytes: 0 })
    }
}

/// A transport over one of these, what switches it, and what drains its losses.
#[derive(Drop)]
struct Watched<T> {
    transport: T,
    fails: Arc<AtomicU64>,
    flushes: Arc<AtomicU64>,
    drainer: Drainer,
}

impl<T: Transport> Watched<T> {
    // Sends events while what is below takes all or nothing, and flushes twice. Answers what these answer.
    fn send(
        &self,
        alloc: Global,
        fails: bool,
        numbers: &[u64],
    ) -> Result<(bool, bool), AllocError> {
        self.fails.store(u64::from(fails), Ordering::SeqCst);
        send(&self.transport, alloc, numbers)?;
        Ok((self.transport.flush(1), self.transport.flush(1)))
    }

    // The same with a shutdown in place of the first flush.
    fn send_last(&self, alloc: Global, numbers: &[u64]) -> Result<(bool, bool), AllocError> {
        send(&self.transport, alloc, numbers)?;
        Ok((self.transport.shutdown(1), self.transport.flush(1)))
    }

    // What is answered after nothing fails, after two failed, after one failed at the end, and after the shutdown.
    fn play(&self, alloc: Global) -> Result<[(bool, bool); 4], AllocError> {
        Ok([
            self.send(alloc, false, &[1])?,
            self.send(alloc, true, &[2, 3])?,
            self.send_last(alloc, &[4])?,
            self.send(alloc, false, &[5, 6])?,
        ])
    }

    // Whether just so many errors were recorded, as lost within.
    fn has_recorded(&mut self, count: u64) -> bool {
        let (_, losses) = self.drainer.drain().into_parts();
        losses == Losses::of(Category::Error, Reason::InternalSdkError, count)
    }
}

// Both words, for the one below and for the test.
fn words(alloc: Global) -> Result<(Switched, Arc<AtomicU64>, Arc<AtomicU64>), AllocError> {
    let fails = Arc::new(alloc, AtomicU64::new(0))?;
    let flushes = Arc::new(alloc, AtomicU64::new(0))?;
    let switched = Switched {
        fails: fails.clone()?,
        flushes: flushes.clone()?,
    };
    Ok((switched, fails, flushes))
}

fn watched_writer<R: Wait + Drop>(
    rt: R,
    alloc: Global,
    (recorder, drainer): (Recorder, Drainer),
) -> Result<Watched<WriterTransport<R, Switched>>, AllocError> {
    let (writer, fails, flushes) = words(alloc)?;
    Ok(Watched {
        transport: WriterTransport::new(rt, alloc, Some(recorder), writer),
        fails,
        flushes,
        drainer,
    })
}

// Over a folder.
fn watched_spool<R: Wait + Drop>(
    rt: R,
    alloc: Global,
    (recorder, drainer): (Recorder, Drainer),
) -> Result<Watched<SpoolTransport<R, Switched, Five>>, FolderError> {
    let (folder, fails, flushes) = words(alloc)?;
    let limits = Usage {
        files: 100,
        bytes: 100_000,
    };
    Ok(Watched {
        transport: SpoolTransport::new(rt, alloc, Some(recorder), folder, limits, Five)?,
        fails,
        flushes,
        drainer,
    })
}

/// Two answers after each step of `play`.
const ANSWERS: [(bool, bool); 4] = [(true, true), (false, true), (false, true), (true, true)];

#[test]
fn a_writer_that_fails_makes_the_next_answer_false(rt: HostRuntime) -> Result<(), Fail> {
    let alloc = rt.alloc();
    let mut watched = watched_writer(rt, alloc, LossWords::new(alloc, LABEL)?)?;
    let answers = watched.play(alloc)?;
    let flushes = watched.flushes.load(Ordering::SeqCst);
    let has_recorded = watched.has_recorded(3);
    drop(watched);
    assert_eq!(rt; answers, ANSWERS);
    // once for each that was written
    assert_eq!(rt; flushes, 3);
    assert!(rt; has_recorded);
    Ok(())
}

#[test]
fn a_folder_that_fails_makes_the_next_answer_false(rt: HostRuntime) -> Result<(), Fail> {
    let alloc = rt.alloc();
    let mut watched = watched_spool(rt, alloc, LossWords::new(alloc, LABEL)?)?;
    let answers = watched.play(alloc)?;
    let has_recorded = watched.has_recorded(3);
    drop(watched);
    assert_eq!(rt; answers, ANSWERS);
    assert!(rt; has_recorded);
    Ok(())
}

// What is said of a folder that takes nothing from the first.
fn refused_folder<R: Wait + Drop>(rt: R, alloc: Global) -> Result<String, AllocError> {
    let (folder, fails, _) = words(alloc)?;
    fails.store(1, Ordering::SeqCst);
    let limits = Usage { files: 1, bytes: 1 };
    match SpoolTransport::new(rt, alloc, None, folder, limits, Five) {
        Ok(_) => Ok(String::new(alloc)),
        Err(error) => format!(in alloc; "{error}"),
    }
}

#[test]
fn a_folder_is_tried_as_the_transport_is_made(rt: HostRuntime) -> Result<(), Fail> {
    let said = refused_folder(rt, rt.alloc())?;
    assert_eq!(rt;
        said.as_str(),
        "the folder shelf can't be used: switched off"
    );
    Ok(())
}
