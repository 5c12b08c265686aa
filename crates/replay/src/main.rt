//! Reads commands from standard input, a line each, does each on an engine, and prints the envelopes.
#![tactic(auto)]

use replay_run::{ReplayFault, run_replay};
use std::io::BufReader;
use std::process::ExitCode;

fn replay(rt: &HostRuntime) -> Result<(), ReplayFault> {
    let Ok(mut reader) = BufReader::new(rt.alloc(), rt.stdin()) else {
        return Err(ReplayFault::OutOfMemory);
    };
    run_replay(rt.alloc(), &mut reader, &mut rt.stdout())
}

fn main(rt: HostRuntime) -> ExitCode {
    match replay(&rt) {
        Ok(()) => ExitCode::SUCCESS,
        Err(fault) => {
            let _ = eprintln!(rt; "replay: {fault}");
            ExitCode::from(fault.status())
        }
    }
}
