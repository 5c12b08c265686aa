//! The lines of the input.
use crate::fault::ScenarioFault;
use std::io::{BufRead, ErrorKind};

const LINE_FEED: u8 = b'\n';

/// Reads on up to a line feed, or to the end of the input, and puts what it reads last. Where memory is refused, what
/// was read before stays in the line, so that the same call goes on from there.
fn read_on<R: BufRead>(reader: &mut R, line: &mut Vec<u8>) -> Result<(), ScenarioFault> {
    match reader.read_until(LINE_FEED, line) {
        Ok(_) => Ok(()),
        Err(error) => match error.kind() {
            ErrorKind::OutOfMemory => Err(ScenarioFault::OutOfMemory),
            _ => Err(ScenarioFault::InputOutput),
        },
    }
}

/// Reads the next line into `line`, without its line feed. False tells that the input is at its end. A refusal of
/// memory is overcome once.
pub fn next_line<R: BufRead>(reader: &mut R, line: &mut Vec<u8>) -> Result<bool, ScenarioFault> {
    line.clear();
    match read_on(reader, line) {
        Err(ScenarioFault::OutOfMemory) => read_on(reader, line)?,
        read => read?,
    }
    let length = line.len();
    if length == 0 {
        return Ok(false);
    }
    if line[length - 1] == LINE_FEED {
        line.truncate(length - 1);
    }
    Ok(true)
}
