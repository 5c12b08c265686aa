//! Reads commands from standard input, a line each, does each, and prints what it answers and every envelope in full.
//!
//! `scenario` does them on an engine. `scenario lock` does them over the lock: each command is a call of a `Client`, a
//! `Hub`, a `Transaction` or a `Span`, and the envelopes that are printed are those that the transports were handed.
//! `scenario either` does that too, but makes the calls on transactions and spans by `TransactionOrSpan`. `scenario lent`
//! sets their data and tags by closures that are lent the data. With `--envelopes` before that word, or alone, the bytes
//! of each envelope are printed too.
#![tactic(auto)]

mod caller;
mod clients;
mod guards;
mod hubs;
mod locked;
mod spans;
mod threads;
mod transport;
mod words;

use caller::LockedCaller;
use locked::SpanCalls;
use scenario_run::callbacks::{Callbacks, Handler};
use scenario_run::{Envelopes, ScenarioFault, TAG, run_scenario, run_scenario_by};
use sentry_lock::{Locked, SharedCore, Waiting};
use std::alloc::{AllocError, Global};
use std::env;
use std::io::{BufReader, ErrorKind};
use std::process::ExitCode;
use std::rt::Stdin;
use std::sync::{Arc, Wait};
use transport::{Mailbox, Post};

const USAGE: &str = "the arguments are `--envelopes` or not, and `lock`, `either`, `lent`, or none";

/// The word that asks for the bytes of envelopes.
const BYTES: &str = "--envelopes";

/// The lock of the core.
type ScenarioLock<R> = Locked<Handler, Callbacks, Post<R>, Waiting<R>>;

/// On what the commands are done.
#[derive(Clone, Copy)]
enum Mode {
    Engine,
    Lock(SpanCalls),
}

/// What the arguments ask for.
#[derive(Clone, Copy)]
struct Asked {
    envelopes: Envelopes,
    mode: Mode,
}

impl Asked {
    fn of_mode(envelopes: Envelopes, word: &str) -> Option<Asked> {
        let calls = match word {
            "lock" => SpanCalls::Own,
            "either" => SpanCalls::Either,
            "lent" => SpanCalls::Lent,
            _other => return None,
        };
        Some(Asked {
            envelopes,
            mode: Mode::Lock(calls),
        })
    }

    fn on_engine(envelopes: Envelopes) -> Asked {
        Asked {
            envelopes,
            mode: Mode::Engine,
        }
    }

    // The words after the program's name; `None` if they are others.
    fn read(first: Option<String>, second: Option<String>) -> Option<Asked> {
        let Some(first) = first else {
            return Some(Asked::on_engine(Envelopes::Lines));
        };
        if first.as_str() == BYTES {
            return match second {
                None => Some(Asked::on_engine(Envelopes::LinesAndBytes)),
                Some(word) => Asked::of_mode(Envelopes::LinesAndBytes, word.as_str()),
            };
        }
        match second {
            None => Asked::of_mode(Envelopes::Lines, first.as_str()),
            Some(_) => None,
        }
    }
}

/// What the arguments ask for; `None` if they are others. `OutOfMemory`.
fn read_arguments(rt: &HostRuntime) -> Result<Option<Asked>, ScenarioFault> {
    let mut words = match env::args(rt) {
        Ok(words) => words,
        Err(error) => match error.kind() {
            ErrorKind::OutOfMemory => return Err(ScenarioFault::OutOfMemory),
            _ => return Ok(None),
        },
    };
    let first = words.nth(1);
    let second = words.next();
    if words.next().is_some() {
        return Ok(None);
    }
    Ok(Asked::read(first, second))
}

// An engine that holds nothing, under its lock.
fn new_locked<R: Wait + Copy + Drop>(
    wait: R,
    alloc: Global,
    span_calls: SpanCalls,
) -> Result<LockedCaller<ScenarioLock<R>, R>, AllocError> {
    let mailbox = Arc::new(alloc, Mailbox::new(wait, alloc))?;
    let core = SharedCore::new(Waiting(wait), alloc, TAG)?;
    Ok(LockedCaller::new(alloc, core, mailbox, span_calls))
}

// Where memory is refused for the buffer, it is asked for once more.
fn open_input(rt: &HostRuntime) -> Result<BufReader<Stdin>, ScenarioFault> {
    let reader = match BufReader::new(rt.alloc(), rt.stdin()) {
        Ok(reader) => Ok(reader),
        Err(_) => BufReader::new(rt.alloc(), rt.stdin()),
    };
    match reader {
        Ok(reader) => Ok(reader),
        Err(_) => Err(ScenarioFault::OutOfMemory),
    }
}

// The same.
fn make_locked<R: Wait + Copy + Drop>(
    wait: R,
    alloc: Global,
    span_calls: SpanCalls,
) -> Result<LockedCaller<ScenarioLock<R>, R>, ScenarioFault> {
    match new_locked(wait, alloc, span_calls) {
        Ok(locked) => Ok(locked),
        Err(_) => Ok(new_locked(wait, alloc, span_calls)?),
    }
}

fn play_on_engine(rt: &HostRuntime, envelopes: Envelopes) -> Result<(), ScenarioFault> {
    let mut reader = open_input(rt)?;
    run_scenario(rt.alloc(), envelopes, &mut reader, &mut rt.stdout())
}

fn play_over_lock<R: Wait + Copy + Drop>(
    rt: &HostRuntime,
    wait: R,
    envelopes: Envelopes,
    span_calls: SpanCalls,
) -> Result<(), ScenarioFault> {
    let alloc: Global = rt.alloc();
    let mut reader = open_input(rt)?;
    let locked = make_locked(wait, alloc, span_calls)?;
    run_scenario_by(alloc, locked, envelopes, &mut reader, &mut rt.stdout())
}

fn main(rt: HostRuntime) -> ExitCode {
    // The same of the arguments.
    let asked = match read_arguments(&rt) {
        Ok(asked) => Ok(asked),
        Err(_) => read_arguments(&rt),
    };
    let played = match asked {
        Ok(Some(Asked { envelopes, mode })) => match mode {
            Mode::Engine => play_on_engine(&rt, envelopes),
            Mode::Lock(span_calls) => play_over_lock(&rt, rt, envelopes, span_calls),
        },
        Ok(None) => {
            let _ = eprintln!(rt; "scenario: {USAGE}");
            return ExitCode::from(2);
        }
        Err(fault) => Err(fault),
    };
    match played {
        Ok(()) => ExitCode::SUCCESS,
        Err(fault) => {
            let _ = eprintln!(rt; "scenario: {fault}");
            ExitCode::from(fault.status())
        }
    }
}
