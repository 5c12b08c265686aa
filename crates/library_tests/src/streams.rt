//! Runs of `replay` on a text whose end can't be read, or to a place where what it prints ends.
use replay_run::{ReplayFault, run_replay};
use std::alloc::Global;
use std::io;
use std::io::{BufReader, ErrorKind, Read, Write};
use std::test::Fail;

/// Seven lines, of which four print.
const LINES: &[u8] = b"client shop@1.0.0
hub 0
tag 0 os linux
message 0 info the shop is open
message 7 info nobody hears this
message 0 error no paper left
message 0 info closed
";

/// Gives a text byte by byte, and then only errors.
#[derive(Drop)]
struct Broken<'a> {
    text: &'a [u8],
}

impl Read for Broken<'_> {
    fn read(&mut self, buf: &mut [u8]) -> io::Result<usize> {
        let Some((first, rest)) = self.text.split_first() else {
            return Err(io::Error::from(ErrorKind::BrokenPipe));
        };
        match buf.first_mut() {
            Some(place) => {
                *place = *first;
                self.text = rest;
                Ok(1)
            }
            None => Ok(0),
        }
    }
}

/// Keeps so many bytes, and then answers only errors.
#[derive(Drop)]
pub(crate) struct Full {
    pub(crate) kept: Vec<u8>,
    pub(crate) room: usize,
}

impl Write for Full {
    fn write(&mut self, buf: &[u8]) -> io::Result<usize> {
        let Some(byte) = buf.first() else {
            return Ok(0);
        };
        if self.room == 0 || self.kept.push(*byte).is_err() {
            return Err(io::Error::from(ErrorKind::BrokenPipe));
        }
        self.room = self.room.saturating_sub(1);
        Ok(1)
    }

    fn flush(&mut self) -> io::Result<()> {
        Ok(())
    }
}

/// What is printed of a text that is read to its end.
fn printed(alloc: Global, text: &[u8]) -> Result<Vec<u8>, Fail> {
    let mut reader = text;
    let mut written = Vec::new(alloc);
    run_replay(alloc, &mut reader, &mut written)?;
    Ok(written)
}

/// How a run ends on a text after which nothing can be read, and what it prints before.
fn run_broken(alloc: Global, text: &[u8]) -> Result<(bool, Vec<u8>), io::Error> {
    let mut reader = BufReader::with_capacity(alloc, 16, Broken { text })?;
    let mut written = Vec::new(alloc);
    let answer = run_replay(alloc, &mut reader, &mut written);
    Ok((answer == Err(ReplayFault::InputOutput), written))
}

/// The whole lines that a text begins with.
fn whole_lines(text: &[u8]) -> &[u8] {
    match text.iter().rposition(|byte| *byte == b'\n') {
        Some(last) => &text[..=last],
        None => &[],
    }
}

#[test]
fn a_failed_read_ends_a_run_after_each_byte(rt: HostRuntime) -> Result<(), Fail> {
    let alloc = rt.alloc();
    for length in 0..=LINES.len() {
        let text = &LINES[..length];
        let (is_fault, written) = run_broken(alloc, text)?;
        assert!(rt; is_fault && written == printed(alloc, whole_lines(text))?);
    }
    Ok(())
}

/// How a run ends that can print so many bytes, and what it prints.
fn run_full(alloc: Global, room: usize) -> (bool, Vec<u8>) {
    let mut reader = LINES;
    let kept = Vec::new(alloc);
    let mut writer = Full { kept, room };
    let answer = run_replay(alloc, &mut reader, &mut writer);
    let Full { kept, room: _ } = writer;
    (answer == Err(ReplayFault::InputOutput), kept)
}

#[test]
fn a_failed_write_ends_a_run_after_each_byte(rt: HostRuntime) -> Result<(), Fail> {
    let all = printed(rt.alloc(), LINES)?;
    for room in 0..all.len() {
        let (is_fault, kept) = run_full(rt.alloc(), room);
        assert!(rt; is_fault && kept.as_slice() == &all[..room]);
    }
    Ok(())
}
