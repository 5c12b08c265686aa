//! The calls on a hub, its client, its trail and its sessions.
ghost use Rattle.std.specs.Prelude.{◌≡◌, ◌⊎◌, IfErr, IfOk, None, OnOk, option_copied};
ghost use Rattle.sentry_calls.specs.Hubs as hubs;
ghost use Rattle.sentry_calls.specs.Layers as layers;
ghost use Rattle.sentry_calls.specs.Sessions as sessions;
ghost use Rattle.sentry_state.specs.Breadcrumbs.{add_breadcrumbs};
ghost use Rattle.sentry_lock.specs.Answers.{LockAnswers, LockAnswersWithoutMemory, LockDrainsAndAnswers, LockRefuses, LockRefusesWithoutMemory};
ghost use Rattle.sentry_hub.specs.Trails.{Adds, AddsMade, AddsNot, AddsNotMade};

use crate::breadcrumbs::{At, IntoBreadcrumbsAt};
use crate::hub::{Hub, key_of};
use sentry_base::protocol::{Breadcrumb, Fresh, Refusal, SessionStatus, Uuid};
use sentry_lock::{Client, CoreLock};
use sentry_plain::Few;
use sentry_scope::Scope;
use std::alloc::AllocError;

impl<L: CoreLock> Hub<L> {
    /// The client of the top layer, if it has one.
    ///
    /// `Stale`: the hub isn't held. `OutOfMemory`.
    pub fn client(&self) -> Result<Option<Client<L>>, Refusal>
        ensures done { IfOk result (λ found. LockAnswersWithoutMemory L.Processor L.Callbacks L.Transport
            found (hubs.client self.now)) }
        ensures refused { IfErr result (λ refusal. (refusal ≡ Refusal.OutOfMemory)
            ⊎ LockRefusesWithoutMemory L.Processor L.Callbacks L.Transport refusal (hubs.client self.now)) }
    {
        match self.lock().client() {
            Ok(Some(key)) => Ok(Some(self.core.client(key)?)),
            Ok(None) => Ok(None),
            Err(refusal) => Err(refusal),
        }
    }

    /// Sets or clears the client of the top layer. It takes no memory.
    ///
    /// `Stale`: the hub isn't held, or the client isn't.
    pub fn bind_client(&self, client: Option<&Client<L>>) -> Result<(), Refusal>
        ensures done { IfOk result (λ reply. LockAnswersWithoutMemory L.Processor L.Callbacks L.Transport
            reply (layers.bind_client self.now (option_copied client.entry))) }
        ensures refused { IfErr result (λ refusal. LockRefusesWithoutMemory L.Processor L.Callbacks L.Transport
            refusal (layers.bind_client self.now (option_copied client.entry))) }
    {
        self.lock().bind_client(key_of(client))
    }

    /// Whether the client of the top layer is enabled: it has a DSN and a transport. It takes no memory.
    ///
    /// `Stale`: the hub isn't held.
    pub fn is_active(&self) -> Result<bool, Refusal>
        ensures done { IfOk result (λ reply. LockAnswersWithoutMemory L.Processor L.Callbacks L.Transport
            reply (hubs.is_active self.now)) }
        ensures refused { IfErr result (λ refusal. LockRefusesWithoutMemory L.Processor L.Callbacks L.Transport
            refusal (hubs.is_active self.now)) }
    {
        self.lock().is_active()
    }

    /// The id of the last event that was captured on the hub: the nil id if it was not sent, `None` if there was none. It
    /// takes no memory.
    ///
    /// `Stale`: the hub isn't held.
    pub fn last_event_id(&self) -> Result<Option<Uuid>, Refusal>
        ensures done { IfOk result (λ reply. LockAnswersWithoutMemory L.Processor L.Callbacks L.Transport
            reply (hubs.last_event_id self.now)) }
        ensures refused { IfErr result (λ refusal. LockRefusesWithoutMemory L.Processor L.Callbacks L.Transport
            refusal (hubs.last_event_id self.now)) }
    {
        self.lock().last_event_id()
    }

    /// A copy of the scope of the top layer.
    ///
    /// `Stale`: the hub isn't held. `OutOfMemory`.
    pub fn scope(&self) -> Result<Scope<L::Processor>, Refusal>
        ensures done { IfOk result (λ copy. LockAnswers L.Processor L.Callbacks L.Transport
            copy (hubs.scope self.now)) }
        ensures refused { IfErr result (λ refusal. LockRefuses L.Processor L.Callbacks L.Transport
            refusal (hubs.scope self.now)) }
    {
        match self.lock().scope() {
            Ok(scope) => Ok(scope.into_inner()),
            Err(refusal) => Err(refusal),
        }
    }

    /// Adds breadcrumbs, oldest first, to the trail of the top layer, each of them after the client's
    /// `before_breadcrumb`. Without a client there is none.
    ///
    /// `Stale`: the hub isn't held. `OutOfMemory`.
    pub fn add_breadcrumbs(&self, breadcrumbs: Vec<Breadcrumb>) -> Result<(), Refusal>
        ensures done { IfOk result (λ reply. LockAnswers L.Processor L.Callbacks L.Transport
            reply (add_breadcrumbs L.Callbacks.meanings self.now breadcrumbs.items)) }
        ensures refused { IfErr result (λ refusal. LockRefuses L.Processor L.Callbacks L.Transport
            refusal (add_breadcrumbs L.Callbacks.meanings self.now breadcrumbs.items)) }
    {
        self.lock().add_breadcrumbs(Few::from_vec(breadcrumbs))
    }

    /// The same of a breadcrumb, of none or one, of a list, or of a category and a message. `now` is the moment of the last
    /// in nanoseconds since the epoch.
    ///
    /// `Stale`: the hub isn't held. `OutOfMemory`.
    pub fn add_breadcrumb<B: IntoBreadcrumbsAt>(
        &self,
        breadcrumb: B,
        now: u64,
    ) -> Result<(), Refusal>
        ensures done { OnOk result (Adds L.Processor L.Transport B.breadcrumbs_at L.Callbacks.meanings self.now breadcrumb) }
        ensures refused { IfErr result (λ refusal.
            AddsNot L.Processor L.Transport B.breadcrumbs_at L.Callbacks.meanings self.now breadcrumb refusal) }
    {
        let breadcrumbs = breadcrumb.into_breadcrumbs_at(self.core.allocator(), &mut At(now))?;
        match self.lock().add_breadcrumbs(breadcrumbs) {
            Ok(()) => Ok(()),
            Err(refusal) => Err(refusal),
        }
    }

    /// The same of what a closure makes, which is called only if the top layer has a client. It runs without the lock.
    ///
    /// `Stale`: the hub isn't held. `OutOfMemory`, also where the closure answers it.
    pub fn add_breadcrumb_with<B: IntoBreadcrumbsAt, F: FnOnce() -> Result<B, AllocError> + Drop>(
        &self,
        now: u64,
        make: F,
    ) -> Result<(), Refusal>
        requires { F.IsAlwaysCallable make }
        ensures done { OnOk result (LockAnswersWithoutMemory L.Processor L.Callbacks L.Transport None (hubs.client self.now)
            ⊎ AddsMade L.Processor L.Transport B.breadcrumbs_at L.Callbacks.meanings (F.post make) self.now) }
        ensures refused { IfErr result (λ refusal.
            LockRefusesWithoutMemory L.Processor L.Callbacks L.Transport refusal (hubs.client self.now)
            ⊎ AddsNotMade L.Processor L.Transport B.breadcrumbs_at L.Callbacks.meanings (F.post make) self.now refusal) }
    {
        match self.lock().client() {
            Ok(None) => Ok(()),
            Ok(Some(_)) => {
                let breadcrumb = make()?;
                self.add_breadcrumb(breadcrumb, now)
            }
            Err(refusal) => Err(refusal),
        }
    }

    /// Starts a session under the client of the top layer. The earlier one of the layer goes on where another layer
    /// names it, and ends otherwise. Nothing happens without a client, or without a release in its options.
    ///
    /// `Stale`: the hub isn't held. `Full`: the numbers are used up. `OutOfMemory`.
    pub fn start_session(&self, fresh: Fresh) -> Result<(), Refusal>
        ensures { IfOk result (λ reply. LockDrainsAndAnswers L.Processor L.Callbacks L.Transport
            reply (sessions.start_session self.now fresh)) }
    {
        self.lock().start_session(fresh)
    }

    /// Ends the session of the top layer as exited, if it has one. `now` is the moment in nanoseconds since the epoch.
    ///
    /// `Stale`: the hub isn't held. `OutOfMemory`.
    pub fn end_session(&self, now: u64) -> Result<(), Refusal>
        ensures { IfOk result (λ reply. LockDrainsAndAnswers L.Processor L.Callbacks L.Transport
            reply (sessions.end_session_with_status self.now SessionStatus.Exited now)) }
    {
        self.end_session_with_status(SessionStatus::Exited, now)
    }

    /// Ends the session of the top layer with a status, if it has one. `now` is the moment in nanoseconds since the
    /// epoch.
    ///
    /// `Stale`: the hub isn't held. `OutOfMemory`.
    pub fn end_session_with_status(&self, status: SessionStatus, now: u64) -> Result<(), Refusal>
        ensures { IfOk result (λ reply. LockDrainsAndAnswers L.Processor L.Callbacks L.Transport
            reply (sessions.end_session_with_status self.now status now)) }
    {
        self.lock().end_session_with_status(status, now)
    }
}
