//! Work that is run in a scope, on a hub or under a span, which ends after it whatever it answers. The work always runs,
//! once, and its answer is the answer. What can't be begun round it is left out, and what is refused before or after it
//! is kept for `ThreadHub::take_refused`.
ghost use Rattle.std.specs.Prelude.{◌≡◌, ◌∷◌, [], Err, IfErr, IfOk, IfSome, OnOk, Ok};
ghost use Rattle.sentry_scope.specs.declared.scope.edit.ScopeEdit.TheVariants.{SetSpan};
ghost use Rattle.sentry_hub.specs.Works.{Answers, AnswersUnder};

use crate::api::start_transaction;
use crate::hub::Hub;
use crate::performance::{Handle, HandleKey, Span, Transaction, TransactionOrSpan};
use rand_core::Rng;
use sentry_base::clock::Clock;
use sentry_base::protocol::{
    HubKey, Refusal, SpanKey, SpanStatus, TransactionKey, TransactionOrSpanKey,
};
use sentry_engine::ScopeGuard;
use sentry_lock::{CoreLock, IntoSpanKey, ScopeEdits};
use sentry_scope::ScopeEdit;
use sentry_thread_hub::{HubSwitchGuard, ThreadHub, run_under};
use sentry_trace::performance::TransactionContext;
use std::alloc::{AllocError, Global};

// The first refusal.
fn first(one: Result<(), Refusal>, other: Result<(), Refusal>) -> Result<(), Refusal>
    ensures both { OnOk result ((one ≡ Ok tt) × (other ≡ Ok tt)) }
    ensures earlier { IfErr one (λ refusal. result ≡ Err refusal) }
{
    match one {
        Ok(()) => other,
        Err(refusal) => Err(refusal),
    }
}

// A value more of the current hub. Where no share of the core is left there is none.
fn keep_current<L: CoreLock, K, G>(thread: &mut ThreadHub<Hub<L>, K, G>) -> Option<Hub<L>>
    ensures hub { IfSome result (λ hub. hub ≡ thread.old.current) }
    ensures current { thread.new.current ≡ thread.old.current }
{
    match Hub::current(thread) {
        Ok(hub) => Some(hub),
        Err(_) => {
            thread.note(Err(Refusal::OutOfMemory));
            None
        }
    }
}

// Runs the work where no value more of the current hub can be had. If it leaves another hub of the core current, the
// value of that one becomes one of this hub.
fn run_here<L: CoreLock, K, G, A, F: FnOnce(&mut ThreadHub<Hub<L>, K, G>) -> A + Drop>(
    thread: &mut ThreadHub<Hub<L>, K, G>,
    work: F,
) -> A
    requires { F.IsAlwaysCallable work }
    ensures answer { Answers F.FnOnce work result }
    ensures current { thread.new.current ≡ thread.old.current }
{
    let key = thread.current.key();
    let answer = work(thread);
    thread.current.set_key(key);
    answer
}

// Runs the work on a hub. Afterwards the one of before is current again.
pub(crate) fn run_there<
    L: CoreLock,
    K: Drop,
    G: Drop,
    A,
    F: FnOnce(&mut ThreadHub<Hub<L>, K, G>) -> A + Drop,
>(thread: &mut ThreadHub<Hub<L>, K, G>, hub: Hub<L>, work: F) -> A
    requires { F.IsAlwaysCallable work }
    ensures answer { Answers F.FnOnce work result }
    ensures current { thread.new.current ≡ thread.old.current }
{
    run_under(thread, hub, work)
}

// Runs the work on a hub, or without one on the current hub, which is current again afterwards.
fn run_on<L: CoreLock, K: Drop, G: Drop, A, F: FnOnce(&mut ThreadHub<Hub<L>, K, G>) -> A + Drop>(
    thread: &mut ThreadHub<Hub<L>, K, G>,
    hub: Option<Hub<L>>,
    work: F,
) -> A
    requires { F.IsAlwaysCallable work }
    ensures answer { Answers F.FnOnce work result }
    ensures current { thread.new.current ≡ thread.old.current }
{
    match hub {
        Some(hub) => run_there(thread, hub, work),
        None => run_here(thread, work),
    }
}

// Pushes a layer onto the current hub, if that is active, and configures its scope: its guard, and what was refused. A
// layer that was not configured is removed, or else its guard is the answer.
fn push_configured<
    L: CoreLock,
    K: Clock,
    G,
    B: Drop,
    F: FnOnce(&mut ScopeEdits<L::Processor>) -> Result<B, AllocError> + Drop,
>(thread: &mut ThreadHub<Hub<L>, K, G>, configure: F) -> (Option<ScopeGuard>, Result<(), Refusal>)
    requires { F.IsAlwaysCallable configure }
    ensures { thread.new.current ≡ thread.old.current }
{
    let now = thread.clock.now();
    match thread.current.push_active() {
        Err(refusal) => (None, Err(refusal)),
        Ok(None) => (None, Ok(())),
        Ok(Some((guard, scope))) => {
            match thread
                .current
                .configure_layer::<(), _, _>(guard, scope, now, configure)
            {
                Ok(guard) => (Some(guard), Ok(())),
                Err(error) => error.into_guard(),
            }
        }
    }
}

// Removes a layer, if there is one. Where that is refused, the layer stays.
fn pop_layer<L: CoreLock, K: Clock, G>(
    thread: &mut ThreadHub<Hub<L>, K, G>,
    guard: Option<ScopeGuard>,
) -> Result<(), Refusal>
    ensures { thread.new.current ≡ thread.old.current }
{
    match guard {
        None => Ok(()),
        Some(guard) => {
            let now = thread.clock.now();
            thread.current.pop_or_give_up(guard, now)
        }
    }
}

/// Runs the work, which is lent the hubs of the thread, while a layer stands on top whose scope is a copy of the one below
/// with the calls of setters that `configure` makes. Both run without the lock. The work always runs, and its answer is the
/// answer: without a layer, if the current hub isn't active, or if the layer can't be pushed or configured. Afterwards the
/// current hub is the one of before.
///
/// `ThreadHub::take_refused` tells what was refused: the refusals of `Hub::push_scope` and `Hub::configure_scope` before
/// the work, and of `Hub::pop_scope` after it. A layer that can't be removed stays, as one on which the work has left
/// another.
pub fn in_scope<
    L: CoreLock,
    K: Clock + Drop,
    G: Drop,
    A,
    B: Drop,
    F: FnOnce(&mut ScopeEdits<L::Processor>) -> Result<B, AllocError> + Drop,
    M: FnOnce(&mut ThreadHub<Hub<L>, K, G>) -> A + Drop,
>(thread: &mut ThreadHub<Hub<L>, K, G>, configure: F, work: M) -> A
    requires configure { F.IsAlwaysCallable configure }
    requires work { M.IsAlwaysCallable work }
    ensures answer { Answers M.FnOnce work result }
    ensures current { thread.new.current ≡ thread.old.current }
{
    let (guard, begun) = push_configured(thread, configure);
    thread.note(begun);
    let hub = keep_current(thread);
    let answer = run_on(thread, hub, work);
    let ended = pop_layer(thread, guard);
    thread.note(ended);
    answer
}

// A hub that is made from the top of the current one, and a value of it more.
fn make_hub<L: CoreLock, K, G>(
    thread: &ThreadHub<Hub<L>, K, G>,
) -> Result<(Hub<L>, Hub<L>), Refusal> {
    let hub = thread.current.clone()?;
    let made = Hub::new_from_top(&thread.current)?;
    let key = made.key();
    Ok((made, hub.with_key(key)))
}

// Gives a hub back, in a second try where no memory was left.
fn give_back<L: CoreLock, K: Clock, G>(
    thread: &mut ThreadHub<Hub<L>, K, G>,
    hub: &Hub<L>,
) -> Result<(), Refusal>
    ensures { thread.new.current ≡ thread.old.current }
{
    match hub.release(thread) {
        Err(Refusal::OutOfMemory) => hub.release(thread),
        released => released,
    }
}

/// Runs the work while a new hub is the current one, which is made from the top of the current hub and is given back after
/// it. The work always runs, and its answer is the answer: on the current hub, if none can be made.
///
/// `ThreadHub::take_refused` tells what was refused: `Stale`, if the current hub isn't held or the new one no longer is,
/// `Full`, if the numbers are used up, `ScopesOpen`, if the work leaves layers on the new hub, which stays then,
/// `OutOfMemory`.
pub fn in_new_hub<
    L: CoreLock,
    K: Clock + Drop,
    G: Drop,
    A,
    F: FnOnce(&mut ThreadHub<Hub<L>, K, G>) -> A + Drop,
>(thread: &mut ThreadHub<Hub<L>, K, G>, work: F) -> A
    requires { F.IsAlwaysCallable work }
    ensures answer { Answers F.FnOnce work result }
    ensures current { thread.new.current ≡ thread.old.current }
{
    match make_hub(thread) {
        Ok((hub, same)) => {
            let answer = run_there(thread, same, work);
            let released = give_back(thread, &hub);
            thread.note(released);
            answer
        }
        Err(refusal) => {
            thread.note(Err(refusal));
            let hub = keep_current(thread);
            run_on(thread, hub, work)
        }
    }
}

// The call of the setter of a span.
fn list_span<P: Drop>(
    alloc: Global,
    span: Option<TransactionOrSpanKey>,
) -> Result<Vec<ScopeEdit<P>>, AllocError>
    ensures { IfOk result (λ edits. edits.items ≡ SetSpan span ∷ []) }
{
    let mut edits = Vec::new(alloc);
    edits.push(ScopeEdit::SetSpan(span))?;
    Ok(edits)
}

// Sets the active span of a hub.
fn set_active<L: CoreLock>(
    hub: &Hub<L>,
    span: Option<TransactionOrSpanKey>,
    now: u64,
) -> Result<(), Refusal> {
    let edits = list_span(hub.core().allocator(), span)?;
    hub.configure(edits, now)
}

// The same, and answers the one of before.
fn activate<L: CoreLock>(
    hub: &Hub<L>,
    span: Option<TransactionOrSpanKey>,
    now: u64,
) -> Result<Option<TransactionOrSpanKey>, Refusal> {
    let before = hub.scope()?.get_span();
    set_active(hub, span, now)?;
    Ok(before)
}

// Makes the span of before the active one again, or none where that is no longer held.
fn restore_once<L: CoreLock>(
    hub: &Hub<L>,
    before: Option<TransactionOrSpanKey>,
    now: u64,
) -> Result<(), Refusal> {
    match set_active(hub, before, now) {
        Err(Refusal::Stale) => set_active(hub, None, now),
        restored => restored,
    }
}

// The same, once more where no memory was left.
fn restore<L: CoreLock>(
    hub: &Hub<L>,
    before: Option<TransactionOrSpanKey>,
    now: u64,
) -> Result<(), Refusal> {
    match restore_once(hub, before, now) {
        Err(Refusal::OutOfMemory) => restore_once(hub, before, now),
        restored => restored,
    }
}

// What is active on the hub while the work runs, and what was before.
#[derive(Drop)]
struct Active<L, N> {
    hub: Hub<L>,
    span: Handle<L, N>,
    before: Option<TransactionOrSpanKey>,
}

// Makes what was started the active one. Where that is refused, it is forgotten.
fn enter<L: CoreLock, N: HandleKey>(
    hub: Hub<L>,
    span: Handle<L, N>,
    now: u64,
) -> Result<Active<L, N>, Refusal> {
    match activate(&hub, (&span).into_span_key(), now) {
        Ok(before) => Ok(Active { hub, span, before }),
        Err(refusal) => {
            drop(span.discard());
            Err(refusal)
        }
    }
}

// Starts a transaction and makes it the active one.
fn enter_transaction<L: CoreLock, K: Clock, G: Rng>(
    thread: &mut ThreadHub<Hub<L>, K, G>,
    context: TransactionContext,
) -> Result<Active<L, TransactionKey>, Refusal>
    ensures current { thread.new.current ≡ thread.old.current }
{
    let hub = Hub::current(thread)?;
    let transaction = start_transaction(thread, context)?;
    enter(hub, transaction, thread.clock.now())
}

// Starts a child and makes it the active one.
fn enter_span<L: CoreLock, K: Clock, G: Rng>(
    thread: &mut ThreadHub<Hub<L>, K, G>,
    parent: Option<TransactionOrSpanKey>,
    op: &str,
    description: &str,
) -> Result<Active<L, SpanKey>, Refusal>
    ensures current { thread.new.current ≡ thread.old.current }
{
    let hub = Hub::current(thread)?;
    let Some(parent) = parent else {
        return Err(Refusal::Stale);
    };
    let parent = TransactionOrSpan::new(hub.core(), parent)?;
    let span = parent.start_child(op, description, thread.fresh_span())?;
    enter(hub, span, thread.clock.now())
}

// What work that failed was under has the status `InternalError`, unless the work has set one.
fn note_failed<L: CoreLock, N: HandleKey>(
    span: &Handle<L, N>,
    has_failed: bool,
) -> Result<(), Refusal> {
    if !has_failed || span.get_status()?.is_some() {
        return Ok(());
    }
    span.set_status(SpanStatus::InternalError)
}

// Finishes and forgets what the work was under, once more where no memory was left. What can't be finished is forgotten all
// the same, and what spans still name is forgotten with them.
fn end_or_discard<L: CoreLock, N: HandleKey>(
    span: &Handle<L, N>,
    hub: HubKey,
    moment: u64,
) -> Result<(), Refusal> {
    let ended = match span.end_on(hub, moment) {
        Err(Refusal::OutOfMemory) => span.end_on(hub, moment),
        ended => ended,
    };
    if ended.is_err() && span.discard_with_spans().is_err() {
        drop(span.discard_with_spans());
    }
    ended
}

// What was active before the work is active again, and what the work was under ends.
fn leave<L: CoreLock, N: HandleKey, K: Clock, G>(
    thread: &mut ThreadHub<Hub<L>, K, G>,
    span: &Handle<L, N>,
    before: Option<TransactionOrSpanKey>,
    has_failed: bool,
) -> Result<(), Refusal>
    ensures { thread.new.current ≡ thread.old.current }
{
    let moment = thread.clock.now();
    let hub = &thread.current;
    let noted = note_failed(span, has_failed);
    let restored = restore(hub, before, moment);
    let ended = end_or_discard(span, hub.key(), moment);
    first(first(noted, restored), ended)
}

// Runs the work under what is active, which ends after it.
fn run_active<
    L: CoreLock,
    N: HandleKey,
    K: Clock + Drop,
    G: Drop,
    A,
    E,
    F: FnOnce(&mut ThreadHub<Hub<L>, K, G>, &Handle<L, N>) -> Result<A, E> + Drop,
>(thread: &mut ThreadHub<Hub<L>, K, G>, active: Active<L, N>, work: F) -> Result<A, E>
    requires { F.IsAlwaysCallable work }
    ensures answer { AnswersUnder F.FnOnce work result }
    ensures current { thread.new.current ≡ thread.old.current }
{
    let Active { hub, span, before } = active;
    let mut guard = HubSwitchGuard::new(thread, hub);
    let answer = work(guard.thread_hub(), &span);
    drop(guard);
    let ended = leave(thread, &span, before, answer.is_err());
    thread.note(ended);
    answer
}

// Runs the work under nothing, where no value more of the current hub can be had.
fn run_nothing_here<
    L: CoreLock,
    N: HandleKey,
    K,
    G,
    A,
    F: FnOnce(&mut ThreadHub<Hub<L>, K, G>, &Handle<L, N>) -> A + Drop,
>(thread: &mut ThreadHub<Hub<L>, K, G>, nothing: &Handle<L, N>, work: F) -> A
    requires { F.IsAlwaysCallable work }
    ensures answer { AnswersUnder F.FnOnce work result }
    ensures current { thread.new.current ≡ thread.old.current }
{
    let key = thread.current.key();
    let answer = work(thread, nothing);
    thread.current.set_key(key);
    answer
}

// The same on a value more of the current hub.
fn run_nothing_on<
    L: CoreLock,
    N: HandleKey,
    K: Drop,
    G: Drop,
    A,
    F: FnOnce(&mut ThreadHub<Hub<L>, K, G>, &Handle<L, N>) -> A + Drop,
>(thread: &mut ThreadHub<Hub<L>, K, G>, hub: Hub<L>, nothing: &Handle<L, N>, work: F) -> A
    requires { F.IsAlwaysCallable work }
    ensures answer { AnswersUnder F.FnOnce work result }
    ensures current { thread.new.current ≡ thread.old.current }
{
    let mut guard = HubSwitchGuard::new(thread, hub);
    let answer = work(guard.thread_hub(), nothing);
    drop(guard);
    answer
}

// Runs the work under nothing, after a refusal.
fn run_refused<
    L: CoreLock,
    N: HandleKey,
    K: Drop,
    G: Drop,
    A,
    F: FnOnce(&mut ThreadHub<Hub<L>, K, G>, &Handle<L, N>) -> A + Drop,
>(thread: &mut ThreadHub<Hub<L>, K, G>, refusal: Refusal, work: F) -> A
    requires { F.IsAlwaysCallable work }
    ensures answer { AnswersUnder F.FnOnce work result }
    ensures current { thread.new.current ≡ thread.old.current }
{
    thread.note(Err(refusal));
    let nothing = Handle::of_nothing(thread.current.allocator());
    match keep_current(thread) {
        Some(hub) => run_nothing_on(thread, hub, &nothing, work),
        None => run_nothing_here(thread, &nothing, work),
    }
}

/// Runs the work under a transaction, which is active on the current hub until it is finished and forgotten after the
/// work. If the work answers an error, and has set no status, the transaction is finished with the status
/// `InternalError`. Afterwards what was active before is active again, if it is still held.
///
/// The work always runs, and its answer is the answer. Where the transaction can't be started and made the active one,
/// the work is lent one that names nothing. What can't be finished, for want of memory, is forgotten unsent, and no report
/// counts it. Spans of it that the work still holds are forgotten with it. `ThreadHub::take_refused` tells what was refused:
/// `StillNamed`, if the work leaves a layer that names the transaction, which stays then, or holds a span of it, `Stale`, if
/// the hub isn't held, `Full`, if the numbers are used up, `OutOfMemory`.
pub fn in_transaction<
    L: CoreLock,
    K: Clock + Drop,
    G: Rng + Drop,
    A,
    E,
    F: FnOnce(&mut ThreadHub<Hub<L>, K, G>, &Transaction<L>) -> Result<A, E> + Drop,
>(thread: &mut ThreadHub<Hub<L>, K, G>, context: TransactionContext, work: F) -> Result<A, E>
    requires { F.IsAlwaysCallable work }
    ensures answer { AnswersUnder F.FnOnce work result }
    ensures current { thread.new.current ≡ thread.old.current }
{
    match enter_transaction(thread, context) {
        Ok(active) => run_active(thread, active, work),
        Err(refusal) => run_refused(thread, refusal, work),
    }
}

/// The same of a context that may have been refused: then the work is lent a transaction that names nothing.
pub fn in_transaction_if<
    L: CoreLock,
    K: Clock + Drop,
    G: Rng + Drop,
    A,
    E,
    F: FnOnce(&mut ThreadHub<Hub<L>, K, G>, &Transaction<L>) -> Result<A, E> + Drop,
>(
    thread: &mut ThreadHub<Hub<L>, K, G>,
    context: Result<TransactionContext, Refusal>,
    work: F,
) -> Result<A, E>
    requires { F.IsAlwaysCallable work }
    ensures answer { AnswersUnder F.FnOnce work result }
    ensures current { thread.new.current ≡ thread.old.current }
{
    match context {
        Ok(context) => in_transaction(thread, context, work),
        Err(refusal) => run_refused(thread, refusal, work),
    }
}

/// Runs the work under a child of a transaction or span, as `in_transaction` does under a transaction.
///
/// `ThreadHub::take_refused` tells what was refused: `Stale`, if there is no parent, or it or the hub isn't held,
/// `StillNamed`, if the work leaves a layer that names the span, `Full`, if the numbers are used up, `OutOfMemory`.
pub fn in_span<
    L: CoreLock,
    K: Clock + Drop,
    G: Rng + Drop,
    S: IntoSpanKey,
    A,
    E,
    F: FnOnce(&mut ThreadHub<Hub<L>, K, G>, &Span<L>) -> Result<A, E> + Drop,
>(
    thread: &mut ThreadHub<Hub<L>, K, G>,
    parent: S,
    op: &str,
    description: &str,
    work: F,
) -> Result<A, E>
    requires { F.IsAlwaysCallable work }
    ensures answer { AnswersUnder F.FnOnce work result }
    ensures current { thread.new.current ≡ thread.old.current }
{
    let parent = parent.into_span_key();
    match enter_span(thread, parent, op, description) {
        Ok(active) => run_active(thread, active, work),
        Err(refusal) => run_refused(thread, refusal, work),
    }
}
