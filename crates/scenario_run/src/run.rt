//! A run over a whole input.
use crate::answer::{Answer, Reply};
use crate::caller::Caller;
use crate::fault::{Failure, ScenarioFault};
use crate::lines::next_line;
use crate::print::{Envelopes, Printed};
use crate::scenario::{Scenario, TAG};
use sentry_base::protocol::Refusal;
use sentry_engine::Engine;
use std::alloc::Global;
use std::io::{BufRead, Write};

/// What a line that begins with this says is skipped.
const COMMENT: u8 = b'#';

/// Does a line, and does it once more where memory is refused, since nothing has changed then. A refusal for another
/// cause is an answer.
fn answer<'a, E: Caller>(
    scenario: &mut Scenario<E>,
    number: u64,
    line: &'a str,
) -> Result<Answer<'a>, ScenarioFault> {
    let performed = match scenario.perform(number, line) {
        Err(Failure::Refused(Refusal::OutOfMemory)) => scenario.perform(number, line),
        performed => performed,
    };
    match performed {
        Ok(answer) => Ok(answer),
        Err(Failure::BadCommand | Failure::OtherReply) => Err(ScenarioFault::BadCommand(number)),
        Err(Failure::Refused(Refusal::OutOfMemory)) => Err(ScenarioFault::OutOfMemory),
        Err(Failure::Refused(refusal)) => {
            Ok(Answer::new(scenario.alloc, Reply::Refused(refusal)))
        }
    }
}

/// Does one line, and makes what is printed of it. Where memory is refused for that, it is made once more, and the line
/// isn't done again.
fn play<E: Caller>(
    scenario: &mut Scenario<E>,
    number: u64,
    line: &[u8],
    printed: &mut Printed,
) -> Result<(), ScenarioFault> {
    let Ok(line) = str::from_utf8(line) else {
        return Err(ScenarioFault::BadCommand(number));
    };
    let answer = answer(scenario, number, line)?;
    match printed.make(&scenario.originals, &answer) {
        Ok(()) => Ok(()),
        Err(_) => Ok(printed.make(&scenario.originals, &answer)?),
    }
}

fn is_skipped(line: &[u8]) -> bool {
    match line.first() {
        Some(first) => *first == COMMENT,
        None => true,
    }
}

/// Reads commands, a line each, does each on a new engine, and writes what it answers and each envelope. Each line is read, done and printed before the next one is read; the room taken is that of the engine and of the
/// longest line. Where memory is refused, the same step is done once more: reading on, doing the command, or making its
/// text. Past 2^64-1 lines the run ends as where the input fails.
pub fn run_scenario<R: BufRead, W: Write>(
    alloc: Global,
    envelopes: Envelopes,
    reader: &mut R,
    writer: &mut W,
) -> Result<(), ScenarioFault> {
    run_scenario_by(alloc, Engine::new(alloc, TAG), envelopes, reader, writer)
}

/// The same by what makes the calls in place of an engine, and holds nothing yet. The tag of its keys is `TAG`.
pub fn run_scenario_by<E: Caller, R: BufRead, W: Write>(
    alloc: Global,
    caller: E,
    envelopes: Envelopes,
    reader: &mut R,
    writer: &mut W,
) -> Result<(), ScenarioFault> {
    let mut scenario = Scenario::new(alloc, caller);
    let mut line = Vec::new(alloc);
    let mut printed = Printed::new(alloc, envelopes);
    for index in 0..u64::MAX {
        if !next_line(reader, &mut line)? {
            return Ok(());
        }
        if is_skipped(line.as_slice()) {
            continue;
        }
        play(&mut scenario, index + 1, line.as_slice(), &mut printed)?;
        if printed.write(writer).is_err() {
            return Err(ScenarioFault::InputOutput);
        }
    }
    Err(ScenarioFault::InputOutput)
}
