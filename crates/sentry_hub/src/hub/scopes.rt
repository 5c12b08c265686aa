//! The layers of a hub, and the scope of the top one.
ghost use Rattle.std.specs.Prelude.{◌≡◌, Err, IfErr, IfOk, IfSome, MatchOption, None, Some};
ghost use Rattle.std.specs.Option.{IsSomeAnd};
ghost use Rattle.sentry_calls.specs.Hubs as hubs;
ghost use Rattle.sentry_calls.specs.Layers as layers;
ghost use Rattle.sentry_lock.specs.Answers.{LockAnswers, LockDrainsAndAnswers, LockRefuses};
ghost use Rattle.sentry_hub.specs.Configures.{Configures, ConfiguresTop};

use crate::hub::Hub;
use sentry_base::protocol::Refusal;
use sentry_engine::ScopeGuard;
use sentry_lock::{CoreLock, ScopeEdits};
use sentry_plain::Boxed;
use sentry_scope::{Scope, ScopeEdit};
use std::alloc::AllocError;
use std::error::Error;
use std::fmt;
use std::fmt::{Debug, Display};

/// Why `with_scope` was refused, and what it had by then.
pub struct WithScopeError<A> {
    pub refusal: Refusal,
    /// What the callback answered, if it ran.
    pub answer: Option<A>,
    /// The guard of the layer, if that was pushed and could not be removed.
    pub guard: Option<ScopeGuard>,
}

/// The refusal alone: a layer that could not be removed stays.
impl<A: Drop> From<WithScopeError<A>> for Refusal {
    ghost use Rattle.std.specs.Prelude.{◌≡◌};

    ghost from_gives = { λ error refusal. refusal ≡ error.refusal };

    fn from(error: WithScopeError<A>) -> Refusal {
        let (refusal, _) = error.into_refusal();
        refusal
    }
}

impl<A: Drop> WithScopeError<A> {
    // The guard of the layer, if that could not be removed, and the refusal.
    pub(crate) fn into_guard(self) -> (Option<ScopeGuard>, Result<(), Refusal>)
        ensures { result ≡ (self.guard, Err self.refusal) }
    {
        let WithScopeError {
            refusal,
            answer: _,
            guard,
        } = self;
        (guard, Err(refusal))
    }

    /// The refusal, and what the callback answered: a layer that could not be removed stays.
    pub fn into_refusal(self) -> (Refusal, Option<A>)
        ensures { result ≡ (self.refusal, self.answer) }
    {
        let WithScopeError {
            refusal,
            answer,
            guard,
        } = self;
        if let Some(guard) = guard {
            let (_hub, _depth) = guard.into_parts();
        }
        (refusal, answer)
    }
}

impl<A: Drop> Drop for WithScopeError<A> {
    fn drop(self) {
        let WithScopeError {
            refusal: _,
            answer: _,
            guard,
        } = self;
        if let Some(guard) = guard {
            let (_hub, _depth) = guard.into_parts();
        }
    }
}

impl<A> Debug for WithScopeError<A> {
    fn fmt<W: fmt::Write>(&self, f: &mut fmt::Formatter<W>) -> fmt::Result {
        Debug::fmt(&self.refusal, f)
    }
}

impl<A> Display for WithScopeError<A> {
    fn fmt<W: fmt::Write>(&self, f: &mut fmt::Formatter<W>) -> fmt::Result {
        Display::fmt(&self.refusal, f)
    }
}

impl<A: Drop> Error for WithScopeError<A> {}

/// Why a layer was not removed, and the guard that stands for it. A guard that is let go with it leaves its layer.
pub struct PopScopeError {
    pub refusal: Refusal,
    pub guard: ScopeGuard,
}

impl Drop for PopScopeError {
    fn drop(self) {
        let PopScopeError { refusal: _, guard } = self;
        let (_hub, _depth) = guard.into_parts();
    }
}

impl PopScopeError {
    /// The refusal and the guard.
    pub fn into_parts(self) -> (Refusal, ScopeGuard)
        ensures { result ≡ (self.refusal, self.guard) }
    {
        let PopScopeError { refusal, guard } = self;
        (refusal, guard)
    }
}

/// The refusal alone: the layer stays.
impl From<PopScopeError> for Refusal {
    ghost use Rattle.std.specs.Prelude.{◌≡◌};

    ghost from_gives = { λ error refusal. refusal ≡ error.refusal };

    fn from(error: PopScopeError) -> Refusal {
        error.refusal
    }
}

impl Debug for PopScopeError {
    fn fmt<W: fmt::Write>(&self, f: &mut fmt::Formatter<W>) -> fmt::Result {
        Debug::fmt(&self.refusal, f)
    }
}

impl Display for PopScopeError {
    fn fmt<W: fmt::Write>(&self, f: &mut fmt::Formatter<W>) -> fmt::Result {
        Display::fmt(&self.refusal, f)
    }
}

impl Error for PopScopeError {}

impl<L: CoreLock> Hub<L> {
    /// Pushes a copy of the top layer. The guard stands for the new layer. A program that forgets to pop the layer leaves
    /// it on the hub, which then can't be released: `with_scope` and `in_scope` pop it.
    ///
    /// `Stale`: the hub isn't held. `OutOfMemory`.
    pub fn push_scope(&self) -> Result<ScopeGuard, Refusal>
        ensures done { IfOk result (λ guard. LockAnswers L.Processor L.Callbacks L.Transport
            guard (layers.push_scope self.now)) }
        ensures refused { IfErr result (λ refusal. LockRefuses L.Processor L.Callbacks L.Transport
            refusal (layers.push_scope self.now)) }
    {
        self.core.push_scope(self.key)
    }

    /// Removes the layer that a guard stands for. `now` is the moment in nanoseconds since the epoch. Each refusal hands
    /// the guard back.
    ///
    /// `Stale`: the guard's hub isn't held. `OutOfOrder`: the guard's layer isn't the top one, or is the only one.
    /// `OutOfMemory`.
    pub fn pop_scope(&self, guard: ScopeGuard, now: u64) -> Result<(), PopScopeError>
        ensures done { IfOk result (λ reply. LockDrainsAndAnswers L.Processor L.Callbacks L.Transport
            reply (layers.pop_scope guard.0 guard.1 now)) }
        ensures back { IfErr result (λ error. error.guard ≡ guard) }
    {
        match self.core.pop_scope(guard, now) {
            Ok(()) => Ok(()),
            Err((refusal, guard)) => Err(PopScopeError { refusal, guard }),
        }
    }

    /// The same, for a program that can't hold the guard any longer, in a second try where no memory was left. Where that
    /// is refused too, the layer stays on the hub.
    ///
    /// `Stale`, `OutOfOrder`, `OutOfMemory`: as of `pop_scope`.
    pub fn pop_or_give_up(&self, guard: ScopeGuard, now: u64) -> Result<(), Refusal>
        ensures { IfOk result (λ reply. LockDrainsAndAnswers L.Processor L.Callbacks L.Transport
            reply (layers.pop_scope guard.0 guard.1 now)) }
    {
        match self.core.pop_scope(guard, now) {
            Ok(()) => Ok(()),
            Err((Refusal::OutOfMemory, guard)) => {
                let popped = self.pop_scope(guard, now);
                Ok(popped?)
            }
            Err((refusal, guard)) => {
                let (_hub, _depth) = guard.into_parts();
                Err(refusal)
            }
        }
    }

    /// Makes calls of setters on the scope of the top layer, all of them or none. `now` is the moment in nanoseconds
    /// since the epoch.
    ///
    /// `Stale`: the hub isn't held, or a span that is set isn't. `OutOfMemory`.
    pub fn configure(&self, edits: Vec<ScopeEdit<L::Processor>>, now: u64) -> Result<(), Refusal>
        ensures { IfOk result (λ reply. LockDrainsAndAnswers L.Processor L.Callbacks L.Transport
            reply (hubs.configure self.now edits.items now)) }
    {
        self.lock().configure(edits, now)
    }

    /// Makes the calls of setters that a closure makes. The closure runs without the lock, and is lent a copy of the
    /// scope of the top layer, which stays as it was. `now` is the moment in nanoseconds since the epoch. The answer is
    /// the closure's.
    ///
    /// `Stale`: the hub isn't held, or a span that is set isn't. `OutOfMemory`, also where the closure answers it: then
    /// no setter is called.
    pub fn configure_scope<
        A: Drop,
        F: FnOnce(&mut ScopeEdits<L::Processor>) -> Result<A, AllocError> + Drop,
    >(&self, now: u64, configure: F) -> Result<A, Refusal>
        requires { F.IsAlwaysCallable configure }
        ensures { IfOk result (λ answer. ConfiguresTop L.Callbacks L.Transport F.FnOnce configure self.now now answer) }
    {
        let scope = self.lock().scope()?;
        let answer = self.configure_copy(scope, now, configure)?;
        Ok(answer)
    }

    // Makes the calls of setters that a closure makes, which is lent this copy of the scope.
    pub(crate) fn configure_copy<
        A: Drop,
        F: FnOnce(&mut ScopeEdits<L::Processor>) -> Result<A, AllocError> + Drop,
    >(&self, scope: Boxed<Scope<L::Processor>>, now: u64, configure: F) -> Result<A, Refusal>
        requires { F.IsAlwaysCallable configure }
        ensures { IfOk result (λ answer. Configures L.Callbacks L.Transport F.FnOnce configure self.now now scope answer) }
    {
        let mut edits = ScopeEdits::new(self.core.allocator(), scope.into_inner());
        let answer = configure(&mut edits)?;
        self.configure(edits.into_edits().into_vec(), now)?;
        Ok(answer)
    }

    // Pushes a layer if the hub is active, and answers its guard and a copy of its scope.
    pub(crate) fn push_active(
        &self,
    ) -> Result<Option<(ScopeGuard, Boxed<Scope<L::Processor>>)>, Refusal> {
        let Some(active) = self.lock_active()? else {
            return Ok(None);
        };
        Ok(Some(active.push_scope()?))
    }

    // Pushes a layer and configures its scope. Where that is refused, the layer is removed again.
    pub(crate) fn enter_scope<
        A,
        B: Drop,
        F: FnOnce(&mut ScopeEdits<L::Processor>) -> Result<B, AllocError> + Drop,
    >(&self, now: u64, configure: F) -> Result<ScopeGuard, WithScopeError<A>>
        requires { F.IsAlwaysCallable configure }
        ensures guard { IfOk result (λ guard. LockAnswers L.Processor L.Callbacks L.Transport
            guard (layers.push_scope self.now)) }
        ensures answer { IfErr result (λ error. error.answer ≡ None) }
    {
        match self.lock().push_scope() {
            Ok((guard, scope)) => self.configure_layer(guard, scope, now, configure),
            Err(refusal) => Err(refuse_scope(refusal, None, None)),
        }
    }

    // Configures the scope of a layer that was pushed, of which this is a copy. Where that is refused, the layer is removed
    // again.
    pub(crate) fn configure_layer<
        A,
        B: Drop,
        F: FnOnce(&mut ScopeEdits<L::Processor>) -> Result<B, AllocError> + Drop,
    >(
        &self,
        guard: ScopeGuard,
        scope: Boxed<Scope<L::Processor>>,
        now: u64,
        configure: F,
    ) -> Result<ScopeGuard, WithScopeError<A>>
        requires { F.IsAlwaysCallable configure }
        ensures guard { IfOk result (λ same. same ≡ guard) }
        ensures answer { IfErr result (λ error. error.answer ≡ None) }
        ensures back { IfErr result (λ error. MatchOption error.guard (LockDrainsAndAnswers
            L.Processor L.Callbacks L.Transport tt (layers.pop_scope guard.0 guard.1 now)) (λ back. back ≡ guard)) }
    {
        match self.configure_copy(scope, now, configure) {
            Ok(_) => Ok(guard),
            Err(refusal) => Err(self.leave_refused(guard, refusal, now)),
        }
    }

    // Removes a layer whose scope was not configured.
    fn leave_refused<A>(&self, guard: ScopeGuard, refusal: Refusal, now: u64) -> WithScopeError<A>
        ensures refusal { (result.refusal ≡ refusal) × (result.answer ≡ None) }
        ensures back { MatchOption result.guard (LockDrainsAndAnswers
            L.Processor L.Callbacks L.Transport tt (layers.pop_scope guard.0 guard.1 now)) (λ back. back ≡ guard) }
    {
        match self.core.pop_scope(guard, now) {
            Ok(()) => refuse_scope(refusal, None, None),
            Err((_, guard)) => refuse_scope(refusal, None, Some(guard)),
        }
    }

    // Removes the layer once the callback has answered.
    pub(crate) fn leave_scope<A>(
        &self,
        guard: ScopeGuard,
        answer: A,
        now: u64,
    ) -> Result<A, WithScopeError<A>>
        ensures answer { IfOk result (λ same. same ≡ answer) }
        ensures refused { IfErr result (λ error. (error.answer ≡ Some answer) × (error.guard ≡ Some guard)) }
    {
        match self.core.pop_scope(guard, now) {
            Ok(()) => Ok(answer),
            Err((refusal, guard)) => Err(refuse_scope(refusal, Some(answer), Some(guard))),
        }
    }

    /// Runs the callback while a layer stands on top whose scope is a copy of the one below with the calls of setters
    /// that `configure` makes, as in `configure_scope`. Both run without the lock. `now` is the moment in nanoseconds
    /// since the epoch. The answer is the callback's.
    ///
    /// The callback doesn't run where the layer can't be pushed or configured: the refusals of `push_scope` and of
    /// `configure_scope`. Where the layer can't be removed, the refusal of `pop_scope` and the guard: `OutOfOrder`, if
    /// the callback left a layer on it, `OutOfMemory`.
    pub fn with_scope<
        A,
        B: Drop,
        F: FnOnce(&mut ScopeEdits<L::Processor>) -> Result<B, AllocError> + Drop,
        M: FnOnce() -> A + Drop,
    >(&self, now: u64, configure: F, callback: M) -> Result<A, WithScopeError<A>>
        requires configure { F.IsAlwaysCallable configure }
        requires callback { M.IsAlwaysCallable callback }
        ensures answer { IfOk result (M.post callback) }
        ensures refused { IfErr result (λ error. IfSome error.answer (λ answer. M.post callback answer
            × IsSomeAnd error.guard (λ guard. LockAnswers L.Processor L.Callbacks L.Transport
            guard (layers.push_scope self.now)))) }
    {
        let guard = self.enter_scope(now, configure)?;
        let answer = callback();
        self.leave_scope(guard, answer, now)
    }
}

// Why `with_scope` is refused.
pub(crate) fn refuse_scope<A>(
    refusal: Refusal,
    answer: Option<A>,
    guard: Option<ScopeGuard>,
) -> WithScopeError<A>
    ensures { result ≡ record { refusal = refusal; answer = answer; guard = guard } }
{
    WithScopeError {
        refusal,
        answer,
        guard,
    }
}
