//! An engine alone: a client with a `before_send` and an integration, a hub with a tag, a message, and the envelope of
//! that message.
use crate::printing::print_sent;
use crate::setup::fresh;
use anyhow::Result;
use sentry_core::engine::Engine;
use sentry_core::protocol::{Event, Label};
use sentry_core::{
    BoxedEventCallback, BoxedIntegration, ClientOptions, EventCallback, Integration, Level,
    PlainOptions, Scope, ScopeEdit, Text,
};
use std::alloc::{AllocError, Global};

/// Runs the example.
pub fn run(rt: &impl Print, alloc: Global) -> Result<()> {
    let fresh = fresh(1_700_000_000_000_000_000, 7);

    let before_send: BoxedEventCallback = Box::new(alloc, HideServer)?;
    let deployment = Deployment(Text::new(alloc, "production")?);
    let deployment: BoxedIntegration = Box::new(alloc, deployment)?;
    let options = ClientOptions::from_dsn(alloc, "https://public@sentry.invalid/1")?
        .release("shop@1.0.0")?
        .server_name("till-3")?
        .before_send(before_send)?
        .add_integration(deployment)?;

    let mut engine = Engine::new(alloc, 0);
    let label = Label { tag: 0, number: 0 };
    let client = engine.add_client(options, true, label, fresh.now)?.reply;
    let scope = Scope::new(alloc, fresh.trace_id, fresh.span_id);
    let hub = engine.new_hub(Some(client), scope)?.reply;

    let tag = ScopeEdit::SetTag(Text::new(alloc, "os")?, Text::new(alloc, "linux")?);
    engine.configure(hub, vec![in alloc; tag]?, fresh.now)?;
    let out = engine.capture_message(hub, "the till is slow", Level::Warning, fresh)?;

    print_sent(rt, &out)?;
    Ok(())
}

/// A `before_send` that keeps the server's name private.
#[derive(Drop)]
struct HideServer;

impl EventCallback for HideServer {
    ghost use Rattle.std.specs.Prelude.{Some, None};

    ghost gives = { λ _ event. Some (record event { server_name = None }) };

    fn call(&self, mut event: Event) -> Result<Option<Event>, AllocError> {
        event.server_name = None;
        Ok(Some(event))
    }
}

/// An integration that says of each event where the program runs.
#[derive(Drop)]
struct Deployment(Text);

impl Integration for Deployment {
    ghost use Rattle.std.specs.Prelude.{Some, codes};

    ghost meaning = { λ s. record {
      name = codes "deployment";
      setup = λ options. options;
      process_event = λ _ event. Some (record event { environment = Some s.0 });
    } };

    fn name(&self) -> &str {
        "deployment"
    }

    fn setup(&self, _options: &mut PlainOptions) -> Result<(), AllocError> {
        Ok(())
    }

    fn process_event(
        &self,
        mut event: Event,
        _options: &PlainOptions,
    ) -> Result<Option<Event>, AllocError> {
        event.environment = Some(self.0.clone()?);
        Ok(Some(event))
    }
}
