//! Envelopes that wait: of events under a scope with ten tags and twenty breadcrumbs, captured by an engine alone.
use crate::hub::options;
use crate::lock::{fresh, message};
use sentry_core::engine::{Engine, Sent};
use sentry_core::protocol::{Breadcrumb, Label, Refusal, SpanId, TraceId};
use sentry_core::{Scope, Text};
use sentry_plain::Few;
use std::alloc::{AllocError, Global};

fn breadcrumb(alloc: Global, number: u64) -> Result<Breadcrumb, AllocError> {
    let mut breadcrumb = Breadcrumb::new(alloc, number)?;
    breadcrumb.category = Some(Text::new(alloc, "http")?);
    let message = format!(in alloc; "GET /lamps/{number}")?;
    breadcrumb.message = Some(Text::new(alloc, message.as_str())?);
    Ok(breadcrumb)
}

fn breadcrumbs(alloc: Global) -> Result<Few<Breadcrumb>, AllocError> {
    let mut all = Vec::new(alloc);
    for number in 0..20u64 {
        all.push(breadcrumb(alloc, number)?)?;
    }
    Ok(Few::from_vec(all))
}

fn scope(alloc: Global) -> Result<Scope, AllocError> {
    let mut scope = Scope::new(alloc, TraceId([1; 16]), SpanId([2; 8]));
    for number in 0..10u64 {
        let key = format!(in alloc; "key{number}")?;
        scope.set_tag(key.as_str(), "value")?;
    }
    scope.add_breadcrumbs(breadcrumbs(alloc)?, 100)?;
    Ok(scope)
}

// Puts what a call handed out behind what waits.
fn put(waiting: &mut Vec<Sent>, sent: Sent) -> Result<(), AllocError> {
    match waiting.push(sent) {
        Ok(()) => Ok(()),
        Err(error) => Err(AllocError::from(error)),
    }
}

/// Captures so many events, and answers how many envelopes wait at the end, all at once.
pub fn keep(alloc: Global, turns: u64) -> Result<u64, Refusal> {
    let label = Label { tag: 0, number: 0 };
    let mut engine = Engine::new(alloc, 0);
    let client = engine.add_client(options(alloc)?, true, label, 0)?.reply;
    let scope = scope(alloc)?;
    let mut waiting: Vec<Sent> = Vec::new(alloc);
    for number in 0..turns {
        let event = message(alloc, number)?;
        let out = engine.client_capture_event(client, event, Some(&scope), fresh(number))?;
        put(&mut waiting, out.sent)?;
    }
    Ok(waiting.len() as u64)
}
