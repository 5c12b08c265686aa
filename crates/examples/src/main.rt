//! Programs over the library, a module each. `examples NAME` runs one, and `examples` all of them. `examples spool FOLDER`
//! puts what `examples spool` prints into a folder. Other arguments have the status 2.
#![tactic(auto)]

mod clocks;
mod engine_start;
mod environment;
mod job_service;
mod list_of_calls;
mod log_bridge;
mod middleware;
mod order_service;
mod orders;
mod printing;
mod rate_limits;
mod refused_ticks;
mod release_health;
mod setup;
mod spool;
mod steadfast_work;
mod stock_bridge;
mod tally;
mod threads;
mod ticking_worker;
mod web_shop;

use anyhow::Result;
use sentry_core::client_report::LossWords;
use sentry_core::envelope::{FileFolder, SpoolTransport, WriterTransport};
use sentry_core::{BoxedGate, BoxedTransport, Waiting};
use spool::Morning;
use std::process::ExitCode;
use std::sync::Wait;
use std::thread::Threads;
use std::time::Clock;
use std::{env, io};

#[derive(Clone, Copy)]
enum Example {
    EngineStart,
    ListOfCalls,
    Environment,
    WebShop,
    LogBridge,
    Middleware,
    ReleaseHealth,
    TickingWorker,
    RateLimits,
    RefusedTicks,
    JobService,
    Spool,
    SteadfastWork,
    OrderService,
    StockBridge,
}

const EXAMPLES: [(&str, Example); 15] = [
    ("engine_start", Example::EngineStart),
    ("list_of_calls", Example::ListOfCalls),
    ("environment", Example::Environment),
    ("web_shop", Example::WebShop),
    ("log_bridge", Example::LogBridge),
    ("middleware", Example::Middleware),
    ("release_health", Example::ReleaseHealth),
    ("ticking_worker", Example::TickingWorker),
    ("rate_limits", Example::RateLimits),
    ("refused_ticks", Example::RefusedTicks),
    ("job_service", Example::JobService),
    ("spool", Example::Spool),
    ("steadfast_work", Example::SteadfastWork),
    ("order_service", Example::OrderService),
    ("stock_bridge", Example::StockBridge),
];

fn is_known(word: &str) -> bool {
    for (name, _) in EXAMPLES {
        if name == word {
            return true;
        }
    }
    false
}

// Whether there is no word, or the first names an example, and a second is a folder for the one that takes it.
fn are_meant(asked: &Option<String>, folder: &Option<String>) -> bool {
    match asked {
        None => true,
        Some(word) => match folder {
            None => is_known(word.as_str()),
            Some(_) => word.as_str() == "spool",
        },
    }
}

fn print_usage(rt: &impl Eprint) -> io::Result<()> {
    eprintln!(rt; "examples: the arguments are none, `spool FOLDER`, or one of")?;
    for (name, _) in EXAMPLES {
        eprintln!(rt; "  {name}")?;
    }
    Ok(())
}

// Whether the example is to run: the one that is asked for, or each.
fn is_asked(asked: &Option<String>, name: &str) -> bool {
    match asked {
        None => true,
        Some(word) => word.as_str() == name,
    }
}

// Runs an example that makes its transport itself.
fn run<R: Threads + Wait + Clock + Print + Copy + Drop + Send + Sync + 'static>(
    rt: R,
    host: HostRuntime,
    wait: BoxedGate,
    example: Example,
) -> Result<()> {
    let alloc = host.alloc();
    match example {
        Example::EngineStart => engine_start::run(&rt, alloc),
        Example::ListOfCalls => list_of_calls::run(&rt, alloc),
        Example::Environment => environment::run(host),
        Example::WebShop => web_shop::run(&rt, alloc),
        Example::LogBridge => log_bridge::run(host, wait),
        Example::Middleware => middleware::run(host, wait),
        Example::ReleaseHealth => release_health::run(host, wait),
        Example::TickingWorker => ticking_worker::run(rt, alloc, wait),
        Example::RateLimits => rate_limits::run(rt, host),
        Example::RefusedTicks => refused_ticks::run(rt, host, wait),
        Example::JobService => job_service::run(rt, alloc),
        Example::SteadfastWork => steadfast_work::run(host, wait),
        Example::OrderService => order_service::run(rt, host, wait),
        Example::StockBridge => stock_bridge::run(host, wait),
        Example::Spool => Ok(()),
    }
}

// What waits can be put into a box here alone: for the lock of a core, and where a transport has a lock of its own.
fn main(rt: HostRuntime) -> Result<ExitCode> {
    let alloc = rt.alloc();
    let mut words = env::args(&rt)?;
    let asked = words.nth(1);
    let folder = words.next();
    if words.next().is_some() || !are_meant(&asked, &folder) {
        print_usage(&rt)?;
        return Ok(ExitCode::from(2));
    }
    for (name, example) in EXAMPLES {
        if !is_asked(&asked, name) {
            continue;
        }
        if asked.is_none() {
            println!(rt; "== {name}")?;
        }
        let wait: BoxedGate = Box::new(alloc, Waiting(rt))?;
        match example {
            Example::Spool => {
                let (recorder, drainer) = LossWords::new(alloc, spool::LABEL)?;
                let recorder = Some(recorder);
                match &folder {
                    None => {
                        let writer = WriterTransport::new(rt, alloc, recorder, rt.stdout());
                        let transport: BoxedTransport = Box::new(alloc, writer)?;
                        spool::run(alloc, wait, transport, drainer)?;
                    }
                    Some(path) => {
                        let folder = FileFolder::new(rt, alloc, path.as_str())?;
                        let (limits, clock) = (spool::LIMITS, Morning::new());
                        let files = SpoolTransport::new(
                            rt, alloc, recorder, folder, limits, clock,
                        )?;
                        let transport: BoxedTransport = Box::new(alloc, files)?;
                        spool::run(alloc, wait, transport, drainer)?;
                    }
                }
            }
            other => run(rt, rt, wait, other)?,
        }
    }
    Ok(ExitCode::SUCCESS)
}
