//! Calls as values, made in turn on a new engine. `tests/work` refuses the requests for memory of `examples
//! list_of_calls` in turn: then no call is made, or each of them, and one is refused.
use crate::setup::options;
use anyhow::Result;
use sentry_core::engine::{Answer, Call, ClientCall, Engine, HubCall, Reply};
use sentry_core::protocol::{Event, Label, SpanId, TraceId};
use sentry_core::{Boxed, BoxedIntegration, Integration, PlainOptions, Scope};
use std::alloc::{AllocError, Global};
use std::io;
use std::sync::Arc;
use std::sync::atomic::{AtomicU64, Ordering};

/// Counts the clients that are added with it.
#[derive(Drop)]
struct Counter(Arc<AtomicU64>);

impl Integration for Counter {
    ghost use Rattle.std.specs.Prelude.{Some, codes};

    ghost meaning = { λ _. record {
      name = codes "counter";
      setup = λ options. options;
      process_event = λ _ event. Some event;
    } };

    fn name(&self) -> &str {
        "counter"
    }

    fn setup(&self, _options: &mut PlainOptions) -> Result<(), AllocError> {
        self.0.fetch_add(1, Ordering::SeqCst);
        Ok(())
    }

    fn process_event(
        &self,
        event: Event,
        _options: &PlainOptions,
    ) -> Result<Option<Event>, AllocError> {
        Ok(Some(event))
    }
}

/// Runs the example.
pub fn run(rt: &impl Print, alloc: Global) -> Result<()> {
    let added = Arc::new(alloc, AtomicU64::new(0))?;
    let one: BoxedIntegration = Box::new(alloc, Counter(added.clone()?))?;
    let other: BoxedIntegration = Box::new(alloc, Counter(added.clone()?))?;
    let first = add_client(alloc, one, 0)?;
    let second = add_client(alloc, other, 1)?;
    let calls = vec![in alloc; first, second, new_hub(alloc)?]?;
    println!(rt; "the calls are made in turn")?;
    match Engine::run(alloc, 0, calls) {
        Ok((_engine, answers)) => print_answers(rt, answers.as_slice())?,
        Err(refusal) => println!(rt; "none is made: {refusal}")?,
    }
    println!(rt; "counted: {}", added.load(Ordering::SeqCst))?;
    Ok(())
}

// A call that adds a client with an integration.
fn add_client(alloc: Global, integration: BoxedIntegration, label: u64) -> Result<Call> {
    let options = options(alloc)?.add_integration(integration)?;
    Ok(Call::Client(ClientCall::AddClient {
        options: Boxed::new(alloc, options)?,
        transport: true,
        label: Label {
            tag: 0,
            number: label,
        },
        now: 0,
    }))
}

// A call that adds a hub without a client.
fn new_hub(alloc: Global) -> Result<Call> {
    let scope = Scope::new(alloc, TraceId([1; 16]), SpanId([2; 8]));
    Ok(Call::Hub(HubCall::NewHub {
        client: None,
        scope: Boxed::new(alloc, scope)?,
    }))
}

fn print_answers(rt: &impl Print, answers: &[Answer]) -> io::Result<()> {
    for answer in answers {
        match answer {
            Ok(out) => print_reply(rt, &out.reply)?,
            Err(refusal) => println!(rt; "{refusal}")?,
        }
    }
    Ok(())
}

fn print_reply(rt: &impl Print, reply: &Reply) -> io::Result<()> {
    match reply {
        Reply::Client(key) => println!(rt; "client {}", key.number),
        Reply::Hub(key) => println!(rt; "hub {}", key.number),
        _ => println!(rt; "another reply"),
    }
}
