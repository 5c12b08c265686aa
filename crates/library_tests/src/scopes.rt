//! Scopes and stacks that a caller holds itself.
use crate::engines::scope;
use scenario_run::callbacks::Handler;
use sentry_base::callbacks::EventCallback;
use sentry_base::protocol::Transaction;
use sentry_core::protocol::{
    Breadcrumb, ClientKey, Context, Event, SessionKey, Uuid, Value, ValueMap,
};
use sentry_core::{Level, SpanTable};
use sentry_plain::Text;
use sentry_scope::{Scope, ScopeEdit, Stack, Trail};
use std::alloc::{AllocError, Global};
use std::test::Fail;

/// Gives a scope a level, a transaction's name, a fingerprint, an extra value and a context.
fn set_all<P: Drop>(alloc: Global, scope: &mut Scope<P>) -> Result<(), AllocError> {
    let mut spans = SpanTable::new(alloc);
    scope.set_transaction(&mut spans, Some("sell"))?;
    scope.set_fingerprint(Some(&["till", "drawer"]))?;
    scope.set_extra("lamps", Value::Int(2))?;
    scope.set_context("shop", Context::Other(ValueMap::new(alloc)))?;
    let mut edits = Vec::new(alloc);
    edits.push(ScopeEdit::SetLevel(Some(Level::Error)))?;
    scope.edit_all(edits)
}

/// What such a scope makes of an event on which nothing is set.
fn filled<P: EventCallback + Drop>(alloc: Global) -> Result<Option<Event>, AllocError> {
    let mut scope: Scope<P> = scope(alloc);
    set_all(alloc, &mut scope)?;
    let event = Event::new(alloc, Uuid::nil(), 5)?;
    let spans = SpanTable::new(alloc);
    scope.apply_to_event(&spans, event)
}

/// What such a scope makes of a transaction on which nothing is set.
fn filled_transaction<P: Drop>(alloc: Global) -> Result<Transaction, AllocError> {
    let mut scope: Scope<P> = scope(alloc);
    set_all(alloc, &mut scope)?;
    let name = Text::new(alloc, "sell")?;
    let mut transaction = Transaction::new(alloc, Uuid::nil(), name, 5)?;
    scope.apply_to_transaction(&mut transaction)?;
    Ok(transaction)
}

/// Whether an event has all that was set.
fn has_all(event: &Event) -> bool {
    let is_named = match &event.transaction {
        Some(name) => name.as_str() == "sell",
        None => false,
    };
    is_named
        & (event.level == Level::Error)
        & (event.fingerprint.len() == 2)
        & event.extra.get("lamps").is_some()
        & event.contexts.get("shop").is_some()
        & event.contexts.get("trace").is_some()
}

#[test]
fn a_scope_fills_in_what_is_set(rt: HostRuntime) -> Result<(), Fail> {
    let is_whole = match filled::<Handler>(rt.alloc())? {
        Some(event) => has_all(&event),
        None => false,
    };
    assert!(rt; is_whole);
    let transaction = filled_transaction::<Handler>(rt.alloc())?;
    assert!(rt; transaction.extra.get("lamps").is_some());
    assert!(rt; transaction.contexts.get("shop").is_some());
    Ok(())
}

/// The client of the top of a stack of one layer to which this client is written, and whether the stack names the
/// client and this session.
fn written_top<P: Drop>(
    alloc: Global,
    client: ClientKey,
    session: SessionKey,
) -> (Option<ClientKey>, [bool; 2]) {
    let scope: Scope<P> = scope(alloc);
    let mut stack = Stack::from_client_and_scope(alloc, None, scope);
    stack.top_mut().client = Some(client);
    let names = [stack.names_client(client), stack.names_session(session)];
    (stack.top().client, names)
}

#[test]
fn the_top_of_a_stack_is_written(rt: HostRuntime) -> Result<(), Fail> {
    let client = ClientKey { tag: 0, number: 7 };
    let session = SessionKey { tag: 0, number: 7 };
    let found = written_top::<Handler>(rt.alloc(), client, session);
    assert!(rt; found == (Some(client), [true, false]));
    let trail: Trail<Breadcrumb> = Trail::new(rt.alloc());
    assert!(rt; trail.is_empty());
    Ok(())
}
