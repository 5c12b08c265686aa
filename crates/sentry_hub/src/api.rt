//! Functions on the current hub of a thread. Most act only if that hub is active: its client is enabled. Moments, ids
//! and draws are the thread's, and are asked for only then, but by sessions and transactions at once.
//!
//! Most hold the lock of the core once, in which they look whether the hub is active and make the call. Meanwhile the clock
//! and the generator of the thread are asked: neither may make a call on the core, which would wait for itself. Closures
//! run without the lock, and so do the methods of an error, and what makes breadcrumbs.
ghost use Rattle.std.specs.Prelude.{◌≡◌, ◌⊎◌, IfErr, IfOk, IfSome};
ghost use Rattle.std.specs.Iterator.{IsFiniteIterable};
ghost use Rattle.std.specs.Option.{IsSome};
ghost use Rattle.sentry_calls.specs.Hubs as hubs;
ghost use Rattle.sentry_lock.specs.Answers.{LockAnswersWithoutMemory, LockRefusesWithoutMemory};
ghost use Rattle.sentry_hub.specs.Requests.{message_event, with_request};
ghost use Rattle.sentry_hub.specs.Works.{Answers};

use crate::breadcrumbs::IntoBreadcrumbsAt;
use crate::errors::IntoErrorLinks;
use crate::hub::{Hub, WithScopeError, refuse_scope};
use crate::performance::Transaction;
use crate::scoped::run_there;
use rand_core::Rng;
use sentry_base::callbacks::{BreadcrumbCallback, EventCallback, LogCallback, MetricCallback};
use sentry_base::clock::Clock;
use sentry_base::protocol::{
    Event, Fresh, Level, Refusal, Request, SessionStatus, SpanId, TraceId, TransactionOrSpanKey,
    Uuid,
};
use sentry_engine::ScopeGuard;
use sentry_lock::{CoreLock, ScopeEdits};
use sentry_options::{Callbacks, ClientCallbacks, Integration, TracesSampler};
use sentry_plain::{Boxed, Text};
use sentry_scope::Scope;
use sentry_texts::utils::event_from_error;
use sentry_thread_hub::{ThreadHub, fresh_of};
use sentry_trace::performance::TransactionContext;
use std::alloc::{AllocError, Global};
use std::fmt::Display;

// What `with_scope` works on: the guard of the layer that was pushed onto the current hub with a copy of its scope,
// unless the hub isn't active, and the hub once more, which is current while the callback runs.
struct Entered<L: CoreLock> {
    layer: Option<(ScopeGuard, Boxed<Scope<L::Processor>>)>,
    same: Hub<L>,
}

fn enter<L: CoreLock>(hub: &Hub<L>) -> Result<Entered<L>, Refusal>
    ensures { IfOk result (λ entered. entered.same ≡ hub.now) }
{
    let same = hub.clone()?;
    let layer = hub.push_active()?;
    Ok(Entered { layer, same })
}

// A hub with one layer that has no client, on the core of another one.
fn hub_without_client<L: CoreLock>(
    other: &Hub<L>,
    trace_id: TraceId,
    span_id: SpanId,
) -> Result<Hub<L>, Refusal> {
    let scope = Scope::new(other.core().allocator(), trace_id, span_id);
    Hub::without_client(other.core(), scope)
}

// Starts a transaction on a hub without a client, which is then given back. If that is refused, the hub stays, which has
// nothing to send.
fn start_without_client<L: CoreLock>(
    other: &Hub<L>,
    context: TransactionContext,
    fresh: Fresh,
) -> Result<Transaction<L>, Refusal> {
    let now = fresh.now;
    let hub = hub_without_client(other, fresh.trace_id, fresh.span_id)?;
    let started = hub.start_transaction(context, fresh);
    drop(hub.release_at(now));
    started
}

// The same with a start in nanoseconds since the epoch.
fn start_without_client_at<L: CoreLock>(
    other: &Hub<L>,
    context: TransactionContext,
    start: u64,
    fresh: Fresh,
) -> Result<Transaction<L>, Refusal> {
    let now = fresh.now;
    let hub = hub_without_client(other, fresh.trace_id, fresh.span_id)?;
    let started = hub.start_transaction_with_timestamp(context, start, fresh);
    drop(hub.release_at(now));
    started
}

// The event with the request that a thread serves, if it tells of none.
fn with_request(mut event: Event, request: &Option<Request>) -> Result<Event, AllocError>
    ensures { IfOk result (λ made. made ≡ with_request request.now event) }
{
    if event.request.is_none() {
        event.request = request.clone()?;
    }
    Ok(event)
}

// The event of a message with the request that a thread serves.
fn message_event(
    alloc: Global,
    message: &str,
    level: Level,
    request: &Option<Request>,
    id: Uuid,
    now: u64,
) -> Result<Event, AllocError>
    ensures { IfOk result (λ made. made ≡ with_request request.now (message_event message.now level id now)) }
{
    let mut event = Event::new(alloc, id, now)?;
    event.level = level;
    event.message = Some(Text::new(alloc, message)?);
    with_request(event, request)
}

/// Captures an event. Its id is the answer; the nil id if it was not sent. If it tells of no request, it tells of the one
/// that the thread serves.
///
/// `Stale`: the hub isn't held. `OutOfMemory`.
pub fn capture_event<L: CoreLock, K: Clock, G: Rng>(
    thread: &mut ThreadHub<Hub<L>, K, G>,
    event: Event,
) -> Result<Uuid, Refusal>
    ensures main { thread.new.main ≡ thread.old.main }
    ensures current { thread.new.current ≡ thread.old.current }
{
    let event = with_request(event, &thread.request)?;
    let hub = &thread.current;
    let Some(active) = hub.lock_active()? else {
        return Ok(Uuid::nil());
    };
    let fresh = fresh_of(&mut thread.clock, &mut thread.generator);
    active.capture_event(event, fresh)
}

/// Captures a message. Its id is the answer; the nil id if it was not sent. It tells of the request that the thread serves.
///
/// `Stale`: the hub isn't held. `OutOfMemory`.
pub fn capture_message<L: CoreLock, K: Clock, G: Rng>(
    thread: &mut ThreadHub<Hub<L>, K, G>,
    message: &str,
    level: Level,
) -> Result<Uuid, Refusal>
    ensures main { thread.new.main ≡ thread.old.main }
    ensures current { thread.new.current ≡ thread.old.current }
{
    let hub = &thread.current;
    let Some(active) = hub.lock_active()? else {
        return Ok(Uuid::nil());
    };
    let fresh = fresh_of(&mut thread.clock, &mut thread.generator);
    if thread.request.is_none() {
        return active.capture_message(message, level, fresh);
    }
    let alloc = hub.allocator();
    let event = message_event(
        alloc,
        message,
        level,
        &thread.request,
        fresh.uuid,
        fresh.now,
    )?;
    active.capture_event(event, fresh)
}

/// Captures an error, an error and its causes, or the links of one, outermost first. Its id is the answer; the nil id if
/// it was not sent. It tells of the request that the thread serves.
///
/// `Stale`: the hub isn't held. `OutOfMemory`.
pub fn capture_error<L: CoreLock, K: Clock, G: Rng, E: IntoErrorLinks>(
    thread: &mut ThreadHub<Hub<L>, K, G>,
    error: E,
) -> Result<Uuid, Refusal>
    ensures main { thread.new.main ≡ thread.old.main }
    ensures current { thread.new.current ≡ thread.old.current }
{
    let hub = &thread.current;
    if !hub.is_active()? {
        return Ok(Uuid::nil());
    }
    let links = error.into_error_links(hub.core().allocator())?;
    let Some(active) = hub.lock_active()? else {
        return Ok(Uuid::nil());
    };
    let fresh = fresh_of(&mut thread.clock, &mut thread.generator);
    if thread.request.is_none() {
        return active.capture_error(links.as_slice(), fresh);
    }
    let event = event_from_error(hub.allocator(), links.as_slice(), fresh.uuid, fresh.now)?;
    active.capture_event(with_request(event, &thread.request)?, fresh)
}

/// The context of a transaction of this name and operation, whose ids are drawn.
///
/// An allocation may fail.
pub fn transaction_context<L: CoreLock, K: Clock, G: Rng>(
    thread: &mut ThreadHub<Hub<L>, K, G>,
    name: &str,
    op: &str,
) -> Result<TransactionContext, Refusal>
    ensures main { thread.new.main ≡ thread.old.main }
    ensures current { thread.new.current ≡ thread.old.current }
{
    let Fresh {
        trace_id,
        span_id,
        ..
    } = thread.fresh();
    let alloc = thread.current.core().allocator();
    Ok(TransactionContext::new(alloc, name, op, trace_id, span_id)?)
}

/// The same, which continues the trace that a list of headers says, if it says one.
///
/// An allocation may fail.
pub fn continue_from_headers<
    'a,
    L: CoreLock,
    K: Clock,
    G: Rng,
    I: IntoIterator<Item = (&'a str, &'a str)>,
>(
    thread: &mut ThreadHub<Hub<L>, K, G>,
    name: &str,
    op: &str,
    headers: I,
) -> Result<TransactionContext, Refusal>
    requires { IsFiniteIterable I.into_iter_gives I.IntoIter.can_next I.IntoIter.remaining headers }
    ensures main { thread.new.main ≡ thread.old.main }
    ensures current { thread.new.current ≡ thread.old.current }
{
    let Fresh {
        trace_id,
        span_id,
        ..
    } = thread.fresh();
    let alloc = thread.current.core().allocator();
    Ok(TransactionContext::continue_from_headers(alloc, name, op, headers, trace_id, span_id)?)
}

/// Adds breadcrumbs to the trail: one, none or one, a list, or a category and a message, whose moment is that of the
/// thread's clock.
///
/// `Stale`: the hub isn't held. `OutOfMemory`.
pub fn add_breadcrumb<L: CoreLock, K: Clock, G, B: IntoBreadcrumbsAt>(
    thread: &mut ThreadHub<Hub<L>, K, G>,
    breadcrumb: B,
) -> Result<(), Refusal>
    ensures main { thread.new.main ≡ thread.old.main }
    ensures current { thread.new.current ≡ thread.old.current }
{
    let hub = &thread.current;
    if !B::ARE_MADE_AT && !hub.is_active()? {
        return Ok(());
    }
    let alloc = hub.core().allocator();
    let breadcrumbs = breadcrumb.into_breadcrumbs_at(alloc, &mut thread.clock)?;
    let Some(active) = hub.lock_active()? else {
        return Ok(());
    };
    active.add_breadcrumbs(breadcrumbs)
}

/// Makes the calls of setters that a closure makes on the scope of the top layer. The closure runs without the lock, and is
/// lent a copy of that scope. Its answer is the answer; the default of its type if it doesn't run.
///
/// `Stale`: the hub isn't held, or a span that is set isn't. `OutOfMemory`, also where the closure answers it: then no
/// setter is called.
pub fn configure_scope<
    L: CoreLock,
    K: Clock,
    G,
    A: Default + Drop,
    F: FnOnce(&mut ScopeEdits<L::Processor>) -> Result<A, AllocError> + Drop,
>(thread: &mut ThreadHub<Hub<L>, K, G>, configure: F) -> Result<A, Refusal>
    requires { F.IsAlwaysCallable configure }
    ensures main { thread.new.main ≡ thread.old.main }
    ensures current { thread.new.current ≡ thread.old.current }
{
    let hub = &thread.current;
    let Some(active) = hub.lock_active()? else {
        return Ok(A::default());
    };
    let scope = active.scope()?;
    hub.configure_copy(scope, thread.clock.now(), configure)
}

/// Sets a tag of the scope of the top layer to the text of a value. It replaces a tag with the same key.
///
/// `Stale`: the hub isn't held. `OutOfMemory`.
pub fn set_tag<L: CoreLock, K: Clock, G, V: Display + Drop>(
    thread: &mut ThreadHub<Hub<L>, K, G>,
    key: &str,
    value: V,
) -> Result<(), Refusal>
    ensures main { thread.new.main ≡ thread.old.main }
    ensures current { thread.new.current ≡ thread.old.current }
{
    let text = format!(in thread.current.allocator(); "{value}")?;
    configure_scope(thread, |scope| scope.set_tag(key, text.as_str()))
}

/// Makes no span active on the scope of the top layer.
///
/// `Stale`: the hub isn't held. `OutOfMemory`.
pub fn clear_span<L: CoreLock, K: Clock, G>(
    thread: &mut ThreadHub<Hub<L>, K, G>,
) -> Result<(), Refusal>
    ensures main { thread.new.main ≡ thread.old.main }
    ensures current { thread.new.current ≡ thread.old.current }
{
    configure_scope(thread, |scope| scope.set_span(None::<TransactionOrSpanKey>))
}

/// Runs the callback, which is lent the hubs of the thread, while a layer stands on top whose scope is a copy of the one
/// below with the calls of setters that `configure` makes. Both run without the lock. If the current hub isn't active, the
/// callback runs all the same, without a layer. Afterwards the current hub is the one of before.
///
/// The callback doesn't run where the layer can't be pushed or configured: the refusals of `Hub::push_scope` and of
/// `Hub::configure_scope`. Where the layer can't be removed, the refusal of `Hub::pop_scope` and the guard: `OutOfOrder`,
/// if the callback left a layer on it, `OutOfMemory`.
pub fn with_scope<
    L: CoreLock,
    K: Clock + Drop,
    G: Drop,
    A,
    B: Drop,
    F: FnOnce(&mut ScopeEdits<L::Processor>) -> Result<B, AllocError> + Drop,
    M: FnOnce(&mut ThreadHub<Hub<L>, K, G>) -> A + Drop,
>(thread: &mut ThreadHub<Hub<L>, K, G>, configure: F, callback: M) -> Result<A, WithScopeError<A>>
    requires configure { F.IsAlwaysCallable configure }
    requires callback { M.IsAlwaysCallable callback }
    ensures answer { IfOk result (λ answer. Answers M.FnOnce callback answer) }
    ensures refused { IfErr result (λ error. IfSome error.answer (λ answer.
        Answers M.FnOnce callback answer × IsSome error.guard)) }
    ensures current { thread.new.current ≡ thread.old.current }
{
    let entered = match enter(&thread.current) {
        Ok(entered) => entered,
        Err(refusal) => return Err(refuse_scope(refusal, None, None)),
    };
    let Entered { layer, same } = entered;
    let Some((guard, scope)) = layer else {
        let ran = run_there(thread, same, callback);
        return Ok(ran);
    };
    let now = thread.clock.now();
    let guard = thread
        .current
        .configure_layer(guard, scope, now, configure)?;
    let answer = run_there(thread, same, callback);
    let now = thread.clock.now();
    thread.current.leave_scope(guard, answer, now)
}

/// Lends the closure the first integration of this name that the client of the current hub has, and the hub. Without
/// such an integration the closure does not run, and the answer is the default of its type. It runs without the lock.
///
/// `Stale`: the hub isn't held, or its client isn't. `OutOfMemory`.
pub fn with_integration<L, E, I, B, W, M, S, K, G, A, F>(
    thread: &ThreadHub<Hub<L>, K, G>,
    name: &str,
    callback: F,
) -> Result<A, Refusal>
where
    L: CoreLock<Callbacks = ClientCallbacks<E, I, B, W, M, S>>,
    E: EventCallback + Drop,
    I: Integration + Drop,
    B: BreadcrumbCallback + Drop,
    W: LogCallback + Drop,
    M: MetricCallback + Drop,
    S: TracesSampler + Drop,
    A: Default,
    F: FnOnce(&I, &Hub<L>) -> A + Drop,
    requires { F.IsAlwaysCallable callback }
    ensures { IfOk result (λ answer. A.is_default answer
        ⊎ ((lent : _) × (hub : _) × F.post callback lent hub answer × (hub.now ≡ thread.now.current)
        × ((I.meaning lent.now).name ≡ name.now))) }
{
    let hub = &thread.current;
    if !hub.is_active()? {
        return Ok(A::default());
    }
    match hub.integration(name)? {
        None => Ok(A::default()),
        Some(integration) => Ok(callback(integration.get(), hub)),
    }
}

/// The id of the last event that was captured on the current hub, be it active or not: the nil id if that was not sent,
/// `None` if there was none.
///
/// `Stale`: the hub isn't held.
pub fn last_event_id<L: CoreLock, K, G>(
    thread: &ThreadHub<Hub<L>, K, G>,
) -> Result<Option<Uuid>, Refusal>
    ensures done { IfOk result (λ reply. LockAnswersWithoutMemory L.Processor L.Callbacks L.Transport
        reply (hubs.last_event_id thread.now.current)) }
    ensures refused { IfErr result (λ refusal. LockRefusesWithoutMemory L.Processor L.Callbacks L.Transport
        refusal (hubs.last_event_id thread.now.current)) }
{
    thread.current.last_event_id()
}

/// Starts a session.
///
/// `Stale`: the hub isn't held. `Full`: the numbers are used up. `OutOfMemory`.
pub fn start_session<L: CoreLock, K: Clock, G: Rng>(
    thread: &mut ThreadHub<Hub<L>, K, G>,
) -> Result<(), Refusal>
    ensures main { thread.new.main ≡ thread.old.main }
    ensures current { thread.new.current ≡ thread.old.current }
{
    let fresh = thread.fresh_uuid();
    thread.current.lock().start_active_session(fresh)
}

/// Ends the session, if there is one, as exited.
///
/// `Stale`: the hub isn't held. `OutOfMemory`.
pub fn end_session<L: CoreLock, K: Clock, G>(
    thread: &mut ThreadHub<Hub<L>, K, G>,
) -> Result<(), Refusal>
    ensures main { thread.new.main ≡ thread.old.main }
    ensures current { thread.new.current ≡ thread.old.current }
{
    end_session_with_status(thread, SessionStatus::Exited)
}

/// Ends the session, if there is one, with a status.
///
/// `Stale`: the hub isn't held. `OutOfMemory`.
pub fn end_session_with_status<L: CoreLock, K: Clock, G>(
    thread: &mut ThreadHub<Hub<L>, K, G>,
    status: SessionStatus,
) -> Result<(), Refusal>
    ensures main { thread.new.main ≡ thread.old.main }
    ensures current { thread.new.current ≡ thread.old.current }
{
    let now = thread.clock.now();
    thread.current.lock().end_active_session(status, now)
}

/// Starts a transaction under the client of the current hub, or without a client if the hub isn't active: then it is
/// finished from the start. A program that forgets to discard it leaves it in the core for as long as that lasts, also
/// once it is finished: `in_transaction` discards it.
///
/// `Stale`: the hub isn't held. `Full`: the numbers are used up. `OutOfMemory`.
pub fn start_transaction<L: CoreLock, K: Clock, G: Rng>(
    thread: &mut ThreadHub<Hub<L>, K, G>,
    context: TransactionContext,
) -> Result<Transaction<L>, Refusal>
    ensures main { thread.new.main ≡ thread.old.main }
    ensures current { thread.new.current ≡ thread.old.current }
{
    let fresh = thread.fresh();
    let hub = &thread.current;
    let share = hub.core().clone()?;
    match hub.lock_active()? {
        None => start_without_client(hub, context, fresh),
        Some(active) => {
            let key = active.start_transaction(context, fresh)?;
            Ok(Transaction::of_key(share, key))
        }
    }
}

/// The same as `start_transaction`, with a start in nanoseconds since the epoch.
///
/// `Stale`: the hub isn't held. `Full`: the numbers are used up. `OutOfMemory`.
pub fn start_transaction_with_timestamp<L: CoreLock, K: Clock, G: Rng>(
    thread: &mut ThreadHub<Hub<L>, K, G>,
    context: TransactionContext,
    start: u64,
) -> Result<Transaction<L>, Refusal>
    ensures main { thread.new.main ≡ thread.old.main }
    ensures current { thread.new.current ≡ thread.old.current }
{
    let fresh = thread.fresh();
    let hub = &thread.current;
    let share = hub.core().clone()?;
    match hub.lock_active()? {
        None => start_without_client_at(hub, context, start, fresh),
        Some(active) => {
            let key = active.start_transaction_with_timestamp(context, start, fresh)?;
            Ok(Transaction::of_key(share, key))
        }
    }
}
