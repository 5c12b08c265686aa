//! Prints the options that variables of the environment set.
use anyhow::Result;
use sentry_core::{ClientOptions, EventSamplingStrategy, FromEnv, Text, TracesSamplingStrategy};
use std::alloc::{AllocError, Global};

/// Runs the example.
pub fn run(host: HostRuntime) -> Result<()> {
    let printed = printed_options(host.alloc(), &ClientOptions::from_env(&host)?)?;
    print!(host; "{printed}")?;
    Ok(())
}

fn text_of(text: &Option<Text>) -> &str {
    match text {
        None => "none",
        Some(text) => text.as_str(),
    }
}

// The rates are in millionths.
fn events_rate(strategy: &EventSamplingStrategy) -> u32 {
    match strategy {
        EventSamplingStrategy::FixedRate(rate) => rate.millionths(),
    }
}

// None if there is no fixed one.
fn traces_rate(strategy: &TracesSamplingStrategy) -> Option<u32> {
    match strategy {
        TracesSamplingStrategy::FixedRate(rate) => Some(rate.millionths()),
        TracesSamplingStrategy::Function | TracesSamplingStrategy::Disabled => None,
    }
}

// Each option that a variable can set, on a line.
fn printed_options(alloc: Global, options: &ClientOptions) -> Result<String, AllocError> {
    let plain = &options.plain;
    let dsn = match &plain.dsn {
        None => "none",
        Some(dsn) => dsn.text(),
    };
    let mut out = String::new(alloc);
    writeln!(out, "dsn {dsn}")?;
    writeln!(out, "release {}", text_of(&plain.release))?;
    writeln!(out, "environment {}", text_of(&plain.environment))?;
    let events = events_rate(&plain.event_sampling_strategy);
    writeln!(out, "events {events}")?;
    match traces_rate(&options.traces_sampling_strategy) {
        None => out.push_str("traces none\n")?,
        Some(rate) => writeln!(out, "traces {rate}")?,
    }
    Ok(out)
}
