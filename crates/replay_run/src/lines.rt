//! The lines of the input.
ghost use Rattle.std.specs.Prelude.{◌≡◌, ◌≢◌, ℕ, IfOk, IfErr};
ghost use Rattle.std.specs.Io.BufRead.{strip_last};
ghost use Rattle.replay_run.specs.Lines.{TakesLine, TakesOfOneLine};

use crate::fault::ReplayFault;
use std::io::{BufRead, Error, ErrorKind};

const LINE_FEED: u8 = b'\n';

fn strip_line_feed(line: &mut Vec<u8>)
    ensures { line.new.items ≡ strip_last 10 line.old.items }
{
    let length = line.len();
    if length > 0 && line[length - 1] == LINE_FEED {
        line.truncate(length - 1);
    }
}

// The fault of a failed read: out of memory for the line, or a failure of the input.
fn read_fault(error: &Error) -> ReplayFault
    ensures { (number : ℕ) → result ≢ ReplayFault.BadCommand number }
{
    match error.kind() {
        ErrorKind::OutOfMemory => ReplayFault::OutOfMemory,
        _ => ReplayFault::InputOutput,
    }
}

/// Reads the next line into `line`, without its line feed. The answer is false at the end of the input. Where a read
/// fails, or memory is refused for the line, what was read of it is of no use.
#[tactic(auto, using(crate::proofs::LineLemmas::none_taken, crate::proofs::LineLemmas::of_one_line))]
pub fn next_line<R: BufRead>(reader: &mut R, line: &mut Vec<u8>) -> Result<bool, ReplayFault>
    ensures taken { IfOk result (λ found.
        TakesLine (R.remaining reader.old) (R.remaining reader.new) found line.new.items) }
    ensures of_one_line { TakesOfOneLine (R.remaining reader.old) (R.remaining reader.new) }
    ensures fault { IfErr result (λ fault. (number : ℕ) → fault ≢ ReplayFault.BadCommand number) }
{
    line.clear();
    match reader.read_until(LINE_FEED, line) {
        Err(error) => Err(read_fault(&error)),
        Ok(0) => Ok(false),
        Ok(_) => {
            strip_line_feed(line);
            Ok(true)
        }
    }
}
