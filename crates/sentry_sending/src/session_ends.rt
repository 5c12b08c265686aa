//! When a session ends, and what becomes of it.
ghost use Rattle.std.specs.Prelude.{◌≡◌, IfOk, OnOk, OnErr, Some, None, true, is_some};
ghost use Rattle.sentry_sessions.specs.QueueSteps.{fills_queue};
ghost use Rattle.sentry_sessions.specs.SessionQueues.{enqueued, envelopes_on};
ghost use Rattle.sentry_sessions.specs.SessionSteps.{close};
ghost use Rattle.sentry_sessions.specs.Sessions.{update_of};
ghost use Rattle.sentry_sessions.specs.declared.session.record.Session.{Session};
ghost use Rattle.sentry_plain.specs.Tables.{value_at, replace_at};
ghost use Rattle.sentry_hub_table.specs.declared.hub.HubState.{HubState};
ghost use Rattle.sentry_hub_table.specs.Hubs.{with_session};
ghost use Rattle.sentry_state.specs.Books.{pending_report};
ghost use Rattle.sentry_state.specs.Changes.{with_client_entry, with_client_history};
ghost use Rattle.sentry_state.specs.Worlds.{World, ClientHistory, Stands, stored_client};
ghost use Rattle.sentry_state.specs.declared.state.ClientState.{ClientState};
ghost use Rattle.sentry_sending.specs.Sending.{Sends, after_sending, for_client};
ghost use Rattle.sentry_sending.specs.Sending.{queue_update, end_session, end_unnamed_session, release_session};

use crate::sending::{mark_sent, send_taken};
use sentry_base::protocol::{ClientKey, Label, SessionKey, SessionStatus};
use sentry_options::Callbacks;
use sentry_plain::Items;
use sentry_state::{Sent, State};
use std::alloc::AllocError;

// Sends all that waits at a client that is held, and the last update of a session that is held, once it is closed. If
// out of memory, nothing has changed.
#[inline(never)]
fn send_all<P: Drop, C: Callbacks>(
    state: &mut State<P, C>,
    key: ClientKey,
    label: Label,
    number: u64,
    status: Option<SessionStatus>,
    now: u64,
) -> Result<Sent, AllocError>
    requires client { is_some (value_at state.old.clients key.number) ≡ true }
    requires session { is_some (value_at state.old.sessions number) ≡ true }
    requires sends { (client : ClientState C) (session : Session) → value_at state.old.clients key.number ≡ Some client →
        value_at state.old.sessions number ≡ Some session →
        fills_queue (update_of (close status now session)) client.queues.sessions ≡ true }
    ensures in_world { IfOk result (λ sent. (world : World P C) (client : ClientHistory C) (session : Session) →
        Stands state.old world → value_at state.old.clients key.number ≡ Some (stored_client client) →
        value_at state.old.sessions number ≡ Some session →
        (sent ≡ for_client key (pending_report world label) (envelopes_on client.options.plain.session_mode
        (update_of (close status now session)) client.queues.sessions))
        × Stands state.new (after_sending label sent (with_client_history world key
        (with_client_entry (enqueued (update_of (close status now session))) client)))) }
    ensures hubs { OnOk result (state.new.hubs ≡ state.old.hubs) }
    ensures next { OnOk result (state.new.next ≡ state.old.next) }
    ensures err { OnErr result (state.new ≡ state.old) }
{
    let Some(session) = state.sessions.get(number) else {
        unreachable!()
    };
    let update = session.update_at_end(status, now)?;
    let report = state.pending_report(label)?;
    let room = Vec::with_capacity(state.alloc, 2)?;
    let taken = state.take_sessions(key.number, update)?;
    let sent = send_taken(room, key, report, taken);
    mark_sent(state, label, &sent);
    Ok(sent)
}

// Queues the last update of a session that is held at a client, once it is closed. If out of memory, nothing has changed.
#[tactic(auto, unfolding(crate::specs::Sending::queue_update))]
fn queue_closed<P: Drop, C: Callbacks>(
    state: &mut State<P, C>,
    key: ClientKey,
    number: u64,
    status: Option<SessionStatus>,
    now: u64,
) -> Result<Sent, AllocError>
    ensures in_world { IfOk result (λ sent. (session : Session) → value_at state.old.sessions number ≡ Some session →
        Sends state.old state.new sent (queue_update key (update_of (close status now session)))) }
    ensures hubs { OnOk result (state.new.hubs ≡ state.old.hubs) }
    ensures next { OnOk result (state.new.next ≡ state.old.next) }
    ensures err { OnErr result (state.new ≡ state.old) }
{
    let Some(session) = state.sessions.get(number) else {
        return Ok(Items::new(state.alloc));
    };
    let Some(client) = state.client_at(key) else {
        return Ok(Items::new(state.alloc));
    };
    if client.closed {
        return Ok(Items::new(state.alloc));
    }
    let sends = client.occupied & client.queues.sessions.fills_queue_at_end(session);
    if !sends {
        state.enqueue_closed(key.number, number, status, now)?;
        return Ok(Items::new(state.alloc));
    }
    let label = client.label;
    let sent = send_all(state, key, label, number, status, now)?;
    Ok(sent)
}

/// Closes a session and forgets it. If out of memory, nothing has changed.
#[tactic(auto, unfolding(crate::specs::Sending::end_session))]
pub fn end_session<P: Drop, C: Callbacks>(
    state: &mut State<P, C>,
    key: SessionKey,
    status: Option<SessionStatus>,
    now: u64,
) -> Result<Sent, AllocError>
    ensures in_world { IfOk result (λ sent. Sends state.old state.new sent (end_session key status now)) }
    ensures hubs { OnOk result (state.new.hubs ≡ state.old.hubs) }
    ensures next { OnOk result (state.new.next ≡ state.old.next) }
    ensures err { OnErr result (state.new ≡ state.old) }
{
    let Some(session) = state.named_session(Some(key)) else {
        return Ok(Items::new(state.alloc));
    };
    let client = session.start.client;
    if !session.is_dirty_at_end() {
        state.remove_session(key.number);
        return Ok(Items::new(state.alloc));
    }
    let sent = queue_closed(state, client, key.number, status, now)?;
    state.remove_session(key.number);
    Ok(sent)
}

// Ends the session that a layer named, where no layer names it any more. If out of memory, nothing has changed.
#[tactic(auto, unfolding(crate::specs::Sending::end_unnamed_session))]
fn end_unnamed_session<P: Drop, C: Callbacks>(
    state: &mut State<P, C>,
    name: Option<SessionKey>,
    now: u64,
) -> Result<Sent, AllocError>
    ensures in_world { IfOk result (λ sent. Sends state.old state.new sent (end_unnamed_session name now)) }
    ensures hubs { OnOk result (state.new.hubs ≡ state.old.hubs) }
    ensures next { OnOk result (state.new.next ≡ state.old.next) }
    ensures err { OnErr result (state.new ≡ state.old) }
{
    let Some(key) = name else {
        return Ok(Items::new(state.alloc));
    };
    if state.hubs.is_session_named(key) {
        return Ok(Items::new(state.alloc));
    }
    let sent = end_session(state, key, None, now)?;
    state.hubs.forget_session(key.number);
    Ok(sent)
}

/// The top layer of a hub that is held gives up the session that it names. If out of memory, nothing has changed.
#[inline(never)]
pub fn release_session<P: Drop, C: Callbacks>(
    state: &mut State<P, C>,
    number: u64,
    now: u64,
) -> Result<Sent, AllocError>
    requires { is_some (value_at state.old.hubs number) ≡ true }
    ensures in_world { IfOk result (λ sent. (world : World P C) (hub : HubState P) → Stands state.old world →
        value_at state.old.hubs number ≡ Some hub →
        (sent ≡ (release_session number hub now world).sent)
        × Stands state.new (release_session number hub now world).after) }
    ensures hubs { OnOk result ((hub : HubState P) → value_at state.old.hubs number ≡ Some hub →
        state.new.hubs ≡ replace_at state.old.hubs number (with_session hub None)) }
    ensures held { OnOk result (is_some (value_at state.new.hubs number) ≡ true) }
    ensures next { OnOk result (state.new.next ≡ state.old.next) }
    ensures err { OnErr result (state.new ≡ state.old) }
{
    let Some(hub) = state.hubs.get(number) else {
        unreachable!()
    };
    let name = hub.stack.top.session;
    state.hubs.set_session(number, None);
    match end_unnamed_session(state, name, now) {
        Ok(sent) => Ok(sent),
        Err(error) => {
            state.set_session_name(number, name);
            Err(error)
        }
    }
}
