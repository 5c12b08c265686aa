//! Calls on a hub that are made by methods of their own: no value of a call or of a reply is made for them.
ghost use Rattle.std.specs.Prelude.{◌≡◌, false, IfErr, IfOk, MatchOption, Ok};
ghost use Rattle.std.specs.Sync.Mutex.{mutex_guard_value};
ghost use Rattle.sentry_calls.specs.Active.{if_active};
ghost use Rattle.sentry_calls.specs.Hubs as hubs;
ghost use Rattle.sentry_calls.specs.Layers as layers;
ghost use Rattle.sentry_calls.specs.Sessions as sessions;
ghost use Rattle.sentry_calls.specs.Telemetry as telemetry;
ghost use Rattle.sentry_events.specs.Captures as captures;
ghost use Rattle.sentry_spans.specs.Spans as spans;
ghost use Rattle.sentry_state.specs.Breadcrumbs.{add_breadcrumbs};
ghost use Rattle.sentry_lock.specs.Answers.{Answers, AnswersWithoutMemory, DrainsAndAnswers, LockAnswersWithoutMemory, Refuses, RefusesWithoutMemory};

use crate::core_lock::{CoreGuard, CoreLock};
use crate::handed::reply_of;
use crate::shared_core::SharedCore;
use crate::under_lock::UnderLock;
use sentry_base::callbacks::EventCallback;
use sentry_base::protocol::{
    Breadcrumb, ClientKey, ErrorLink, Event, Fresh, HubKey, Level, Log, MetricDraft, Refusal,
    SessionStatus, TransactionKey, Uuid,
};
use sentry_engine::ScopeGuard;
use sentry_options::Callbacks;
use sentry_plain::{Boxed, Few};
use sentry_scope::{Scope, ScopeEdit};
use sentry_trace::performance::TransactionContext;
use sentry_transport::Transport;

/// A hub while its core is locked, for one call. Each call ends the lock, and hands out its envelopes after that.
///
/// As long as the value is held every other call on the core waits.
#[derive(Drop)]
pub struct LockedHub<'a, P, C, T> {
    guard: CoreGuard<'a, UnderLock<P, C, T>>,
    hub: HubKey,
}

impl<P: EventCallback + Drop, C: Callbacks, T: Transport + Drop> LockedHub<'_, P, C, T> {
    /// Captures an event. Its id is the answer; the nil id if it was not sent.
    ///
    /// `Stale`: the hub isn't held. `OutOfMemory`.
    pub fn capture_event(self, event: Event, fresh: Fresh) -> Result<Uuid, Refusal>
        ensures { IfOk result (λ reply. DrainsAndAnswers (mutex_guard_value self.entry.guard.under)
            reply (captures.capture_event P.gives C.meanings self.entry.hub event fresh)) }
    {
        let LockedHub { mut guard, hub } = self;
        let handed = guard.under.core.capture_event(hub, event, fresh)?;
        drop(guard);
        Ok(handed.deliver())
    }

    /// Captures a message, as `capture_event` does.
    ///
    /// `Stale`: the hub isn't held. `OutOfMemory`.
    pub fn capture_message(self, message: &str, level: Level, fresh: Fresh) -> Result<Uuid, Refusal>
        ensures { IfOk result (λ reply. DrainsAndAnswers (mutex_guard_value self.entry.guard.under)
            reply (hubs.capture_message P.gives C.meanings self.entry.hub message.now level fresh)) }
    {
        let LockedHub { mut guard, hub } = self;
        let handed = guard
            .under
            .core
            .capture_message(hub, message, level, fresh)?;
        drop(guard);
        Ok(handed.deliver())
    }

    /// Captures an error by its links, outermost first, as `capture_event` does.
    ///
    /// `Stale`: the hub isn't held. `OutOfMemory`.
    pub fn capture_error(self, links: &[ErrorLink], fresh: Fresh) -> Result<Uuid, Refusal>
        ensures { IfOk result (λ reply. DrainsAndAnswers (mutex_guard_value self.entry.guard.under)
            reply (hubs.capture_error P.gives C.meanings self.entry.hub links.now fresh)) }
    {
        let LockedHub { mut guard, hub } = self;
        let handed = guard.under.core.capture_error(hub, links, fresh)?;
        drop(guard);
        Ok(handed.deliver())
    }

    /// Captures a log.
    ///
    /// `Stale`: the hub isn't held. `OutOfMemory`.
    pub fn capture_log(self, log: Log) -> Result<(), Refusal>
        ensures { IfOk result (λ reply. DrainsAndAnswers (mutex_guard_value self.entry.guard.under)
            reply (telemetry.capture_log C.meanings self.entry.hub log)) }
    {
        let LockedHub { mut guard, hub } = self;
        let handed = guard.under.core.capture_log(hub, log)?;
        drop(guard);
        Ok(handed.deliver())
    }

    /// Captures a metric. `now` is its moment in nanoseconds since the epoch.
    ///
    /// `Stale`: the hub isn't held. `OutOfMemory`.
    pub fn capture_metric(self, draft: MetricDraft, now: u64) -> Result<(), Refusal>
        ensures { IfOk result (λ reply. DrainsAndAnswers (mutex_guard_value self.entry.guard.under)
            reply (telemetry.capture_metric C.meanings self.entry.hub draft now)) }
    {
        let LockedHub { mut guard, hub } = self;
        let handed = guard.under.core.capture_metric(hub, draft, now)?;
        drop(guard);
        Ok(handed.deliver())
    }

    /// Makes calls of setters on the top scope, all of them or none. `now` is the moment in nanoseconds since the epoch.
    ///
    /// `Stale`: the hub isn't held, or a span that is set isn't. `OutOfMemory`.
    pub fn configure(self, edits: Vec<ScopeEdit<P>>, now: u64) -> Result<(), Refusal>
        ensures { IfOk result (λ reply. DrainsAndAnswers (mutex_guard_value self.entry.guard.under)
            reply (hubs.configure self.entry.hub edits.items now)) }
    {
        let LockedHub { mut guard, hub } = self;
        let core = &mut guard.under.core;
        let let_go = core.processors_cleared(hub, &edits);
        let handed = core.configure(hub, edits, now)?;
        drop(guard);
        drop(let_go);
        Ok(handed.deliver())
    }

    /// Starts a session under the client of the top layer.
    ///
    /// `Stale`: the hub isn't held. `Full`: the numbers are used up. `OutOfMemory`.
    pub fn start_session(self, fresh: Fresh) -> Result<(), Refusal>
        ensures { IfOk result (λ reply. DrainsAndAnswers (mutex_guard_value self.entry.guard.under)
            reply (sessions.start_session self.entry.hub fresh)) }
    {
        let LockedHub { mut guard, hub } = self;
        let handed = guard.under.core.start_session(hub, fresh)?;
        drop(guard);
        Ok(handed.deliver())
    }

    /// Ends the session of the top layer with a status, if it has one. `now` is the moment in nanoseconds since the epoch.
    ///
    /// `Stale`: the hub isn't held. `OutOfMemory`.
    pub fn end_session_with_status(self, status: SessionStatus, now: u64) -> Result<(), Refusal>
        ensures { IfOk result (λ reply. DrainsAndAnswers (mutex_guard_value self.entry.guard.under)
            reply (sessions.end_session_with_status self.entry.hub status now)) }
    {
        let LockedHub { mut guard, hub } = self;
        let handed = guard.under.core.end_session_with_status(hub, status, now)?;
        drop(guard);
        Ok(handed.deliver())
    }

    /// Starts a session under the client of the top layer, if that is enabled.
    ///
    /// `Stale`: the hub isn't held. `Full`: the numbers are used up. `OutOfMemory`.
    pub fn start_active_session(self, fresh: Fresh) -> Result<(), Refusal>
        ensures { IfOk result (λ reply. DrainsAndAnswers (mutex_guard_value self.entry.guard.under)
            reply (if_active self.entry.hub (sessions.start_session self.entry.hub fresh))) }
    {
        let LockedHub { mut guard, hub } = self;
        let handed = guard.under.core.start_active_session(hub, fresh)?;
        drop(guard);
        Ok(handed.deliver())
    }

    /// Ends the session of the top layer with a status, if it has one and its client is enabled. `now` is the moment in
    /// nanoseconds since the epoch.
    ///
    /// `Stale`: the hub isn't held. `OutOfMemory`.
    pub fn end_active_session(self, status: SessionStatus, now: u64) -> Result<(), Refusal>
        ensures { IfOk result (λ reply. DrainsAndAnswers (mutex_guard_value self.entry.guard.under)
            reply (if_active self.entry.hub (sessions.end_session_with_status self.entry.hub status now))) }
    {
        let LockedHub { mut guard, hub } = self;
        let handed = guard.under.core.end_active_session(hub, status, now)?;
        drop(guard);
        Ok(handed.deliver())
    }

    /// Gives the hub back. `now` is the moment in nanoseconds since the epoch.
    ///
    /// `Stale`: the hub isn't held. `ScopesOpen`: layers stand on its first one. `OutOfMemory`.
    pub fn release_hub(self, now: u64) -> Result<(), Refusal>
        ensures { IfOk result (λ reply. DrainsAndAnswers (mutex_guard_value self.entry.guard.under)
            reply (layers.release_hub self.entry.hub now)) }
    {
        let LockedHub { mut guard, hub } = self;
        let core = &mut guard.under.core;
        let let_go = core.processors_of(hub);
        let handed = core.release_hub(hub, now)?;
        drop(guard);
        drop(let_go);
        Ok(handed.deliver())
    }

    /// Adds breadcrumbs, oldest first, to the trail of the top layer.
    ///
    /// `Stale`: the hub isn't held. `OutOfMemory`.
    pub fn add_breadcrumbs(self, breadcrumbs: Few<Breadcrumb>) -> Result<(), Refusal>
        ensures done { IfOk result (λ reply. Answers (mutex_guard_value self.entry.guard.under)
            reply (add_breadcrumbs C.meanings self.entry.hub breadcrumbs)) }
        ensures refused { IfErr result (λ refusal. Refuses (mutex_guard_value self.entry.guard.under)
            refusal (add_breadcrumbs C.meanings self.entry.hub breadcrumbs)) }
    {
        let LockedHub { mut guard, hub } = self;
        guard.under.core.add_breadcrumbs(hub, breadcrumbs)
    }

    /// Adds a hub with a copy of the top layer, and answers its key.
    ///
    /// `Stale`: the hub isn't held. `Full`: the numbers are used up. `OutOfMemory`.
    pub fn new_hub_from_top(self) -> Result<HubKey, Refusal>
        ensures done { IfOk result (λ reply. Answers (mutex_guard_value self.entry.guard.under)
            reply (layers.new_hub_from_top self.entry.hub)) }
        ensures refused { IfErr result (λ refusal. Refuses (mutex_guard_value self.entry.guard.under)
            refusal (layers.new_hub_from_top self.entry.hub)) }
    {
        let LockedHub { mut guard, hub } = self;
        guard.under.core.new_hub_from_top(hub)
    }

    /// Sets or clears the client of the top layer. It takes no memory.
    ///
    /// `Stale`: the hub isn't held, or the client isn't.
    pub fn bind_client(self, client: Option<ClientKey>) -> Result<(), Refusal>
        ensures done { IfOk result (λ reply. AnswersWithoutMemory (mutex_guard_value self.entry.guard.under)
            reply (layers.bind_client self.entry.hub client)) }
        ensures refused { IfErr result (λ refusal. RefusesWithoutMemory (mutex_guard_value self.entry.guard.under)
            refusal (layers.bind_client self.entry.hub client)) }
    {
        let LockedHub { mut guard, hub } = self;
        guard.under.core.bind_client(hub, client)
    }

    /// Starts a transaction under the client of the top layer, and answers its key.
    ///
    /// `Stale`: the hub isn't held. `Full`: the numbers are used up. `OutOfMemory`.
    pub fn start_transaction(
        self,
        context: TransactionContext,
        fresh: Fresh,
    ) -> Result<TransactionKey, Refusal>
        ensures done { IfOk result (λ reply. Answers (mutex_guard_value self.entry.guard.under)
            reply (spans.start_transaction C.meanings self.entry.hub context fresh)) }
        ensures refused { IfErr result (λ refusal. Refuses (mutex_guard_value self.entry.guard.under)
            refusal (spans.start_transaction C.meanings self.entry.hub context fresh)) }
    {
        let LockedHub { mut guard, hub } = self;
        guard.under.core.start_transaction(hub, context, fresh)
    }

    /// The same, with a start in nanoseconds since the epoch.
    ///
    /// `Stale`: the hub isn't held. `Full`: the numbers are used up. `OutOfMemory`.
    pub fn start_transaction_with_timestamp(
        self,
        context: TransactionContext,
        start: u64,
        fresh: Fresh,
    ) -> Result<TransactionKey, Refusal>
        ensures done { IfOk result (λ reply. Answers (mutex_guard_value self.entry.guard.under)
            reply (spans.start_transaction_with_timestamp C.meanings self.entry.hub context start fresh)) }
        ensures refused { IfErr result (λ refusal. Refuses (mutex_guard_value self.entry.guard.under)
            refusal (spans.start_transaction_with_timestamp C.meanings self.entry.hub context start fresh)) }
    {
        let LockedHub { mut guard, hub } = self;
        guard
            .under
            .core
            .start_transaction_with_timestamp(hub, context, start, fresh)
    }

    /// Pushes a copy of the top layer. Answers the guard that stands for it, and a copy of its scope.
    ///
    /// `Stale`: the hub isn't held. `OutOfMemory`.
    pub fn push_scope(self) -> Result<(ScopeGuard, Boxed<Scope<P>>), Refusal>
        ensures guard { IfOk result (λ pushed. Answers (mutex_guard_value self.entry.guard.under)
            pushed.0 (layers.push_scope self.entry.hub)) }
        ensures copy { IfOk result (λ pushed. Answers (mutex_guard_value self.entry.guard.under)
            pushed.1 (hubs.scope self.entry.hub)) }
        ensures refused { IfErr result (λ refusal. Refuses (mutex_guard_value self.entry.guard.under)
            refusal (layers.push_scope self.entry.hub)) }
    {
        let LockedHub { mut guard, hub } = self;
        let core = &mut guard.under.core;
        match core.engine().scope(hub) {
            Ok(out) => match core.push_scope(hub) {
                Ok(pushed) => Ok((pushed, out.reply)),
                Err(refusal) => Err(refusal),
            },
            Err(refusal) => Err(refusal),
        }
    }

    /// Whether the client of the top layer is enabled. It takes no memory.
    ///
    /// `Stale`: the hub isn't held.
    pub fn is_active(self) -> Result<bool, Refusal>
        ensures done { IfOk result (λ reply. AnswersWithoutMemory (mutex_guard_value self.entry.guard.under)
            reply (hubs.is_active self.entry.hub)) }
        ensures refused { IfErr result (λ refusal. RefusesWithoutMemory (mutex_guard_value self.entry.guard.under)
            refusal (hubs.is_active self.entry.hub)) }
    {
        let LockedHub { mut guard, hub } = self;
        let core = &mut guard.under.core;
        reply_of(core.engine().is_active(hub))
    }

    /// The client of the top layer, if it has one. It takes no memory.
    ///
    /// `Stale`: the hub isn't held.
    pub fn client(self) -> Result<Option<ClientKey>, Refusal>
        ensures done { IfOk result (λ reply. AnswersWithoutMemory (mutex_guard_value self.entry.guard.under)
            reply (hubs.client self.entry.hub)) }
        ensures refused { IfErr result (λ refusal. RefusesWithoutMemory (mutex_guard_value self.entry.guard.under)
            refusal (hubs.client self.entry.hub)) }
    {
        let LockedHub { mut guard, hub } = self;
        let core = &mut guard.under.core;
        reply_of(core.engine().client(hub))
    }

    /// The id of the last event that was captured on the hub. It takes no memory.
    ///
    /// `Stale`: the hub isn't held.
    pub fn last_event_id(self) -> Result<Option<Uuid>, Refusal>
        ensures done { IfOk result (λ reply. AnswersWithoutMemory (mutex_guard_value self.entry.guard.under)
            reply (hubs.last_event_id self.entry.hub)) }
        ensures refused { IfErr result (λ refusal. RefusesWithoutMemory (mutex_guard_value self.entry.guard.under)
            refusal (hubs.last_event_id self.entry.hub)) }
    {
        let LockedHub { mut guard, hub } = self;
        let core = &mut guard.under.core;
        reply_of(core.engine().last_event_id(hub))
    }

    /// A copy of the top scope.
    ///
    /// `Stale`: the hub isn't held. `OutOfMemory`.
    pub fn scope(self) -> Result<Boxed<Scope<P>>, Refusal>
        ensures done { IfOk result (λ reply. Answers (mutex_guard_value self.entry.guard.under)
            reply (hubs.scope self.entry.hub)) }
        ensures refused { IfErr result (λ refusal. Refuses (mutex_guard_value self.entry.guard.under)
            refusal (hubs.scope self.entry.hub)) }
    {
        let LockedHub { mut guard, hub } = self;
        let core = &mut guard.under.core;
        reply_of(core.engine().scope(hub))
    }
}

impl<L: CoreLock> SharedCore<L> {
    /// Takes the lock for one call on a hub, which need not be held.
    pub fn lock_hub(&self, hub: HubKey) -> LockedHub<'_, L::Processor, L::Callbacks, L::Transport>
        ensures { result.hub ≡ hub }
    {
        let guard = self.lock();
        LockedHub { guard, hub }
    }

    /// The same if the client of the hub's top layer is enabled; `None` if it isn't. It takes no memory.
    ///
    /// `Stale`: the hub isn't held.
    pub fn lock_active(
        &self,
        hub: HubKey,
    ) -> Result<Option<LockedHub<'_, L::Processor, L::Callbacks, L::Transport>>, Refusal>
        ensures { IfOk result (λ found. MatchOption found
            (LockAnswersWithoutMemory L.Processor L.Callbacks L.Transport false (hubs.is_active hub))
            (λ locked. locked.hub ≡ hub)) }
    {
        let mut guard = self.lock();
        let core = &mut guard.under.core;
        let out = core.engine().is_active(hub)?;
        if !out.reply {
            return Ok(None);
        }
        Ok(Some(LockedHub { guard, hub }))
    }
}
