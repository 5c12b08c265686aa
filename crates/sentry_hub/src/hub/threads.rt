//! Hubs of a thread.
ghost use Rattle.std.specs.Prelude.{◌≡◌, ◌⊎◌, ℕ, false, IfOk, MatchOption, OnErr};
ghost use Rattle.sentry_calls.specs.Hubs as hubs;
ghost use Rattle.sentry_calls.specs.Layers as layers;
ghost use Rattle.sentry_lock.specs.Answers.{LockAnswersWithoutMemory, LockDrainsAndAnswers};
ghost use Rattle.sentry_thread_hub.specs.Lends.{AnswersLent};

use crate::hub::Hub;
use sentry_base::clock::Clock;
use sentry_base::protocol::Refusal;
use sentry_lock::CoreLock;
use sentry_thread_hub::{ThreadHub, run_with};
use std::alloc::AllocError;

impl<L: CoreLock> Hub<L> {
    /// The current hub of the thread.
    ///
    /// An allocation may fail.
    pub fn current<K, G>(thread: &ThreadHub<Hub<L>, K, G>) -> Result<Hub<L>, AllocError>
        ensures { IfOk result (λ hub. hub ≡ thread.now.current) }
    {
        let hub = thread.current.clone()?;
        Ok(hub)
    }

    /// The main hub of the thread.
    ///
    /// An allocation may fail.
    pub fn main<K, G>(thread: &ThreadHub<Hub<L>, K, G>) -> Result<Hub<L>, AllocError>
        ensures { IfOk result (λ hub. hub ≡ thread.now.main) }
    {
        let hub = thread.main.clone()?;
        Ok(hub)
    }

    /// Gives the hub back, at the moment of the thread's clock. A session that no layer of another hub names ends.
    ///
    /// `Stale`: the hub isn't held. `ScopesOpen`: layers stand on its first one. `OutOfMemory`.
    pub fn release<K: Clock, G>(&self, thread: &mut ThreadHub<Hub<L>, K, G>) -> Result<(), Refusal>
        ensures done { IfOk result (λ reply. (now : ℕ) × LockDrainsAndAnswers L.Processor L.Callbacks L.Transport
            reply (layers.release_hub self.now now)) }
        ensures main { thread.new.main ≡ thread.old.main }
        ensures current { thread.new.current ≡ thread.old.current }
    {
        let now = thread.clock.now();
        self.release_at(now)
    }

    // The same, with the moment.
    pub(crate) fn release_at(&self, now: u64) -> Result<(), Refusal>
        ensures { IfOk result (λ reply. LockDrainsAndAnswers L.Processor L.Callbacks L.Transport
            reply (layers.release_hub self.now now)) }
    {
        self.lock().release_hub(now)
    }

    /// Runs the closure, which is lent the current hub and the hubs of the thread.
    ///
    /// An allocation may fail: then it does not run.
    pub fn with<K, G, A, F: FnOnce(&Hub<L>, &mut ThreadHub<Hub<L>, K, G>) -> A + Drop>(
        thread: &mut ThreadHub<Hub<L>, K, G>,
        callback: F,
    ) -> Result<A, AllocError>
        requires { F.IsAlwaysCallable callback }
        ensures answer { IfOk result (λ answer. AnswersLent F.FnOnce callback thread.old.current thread.old answer thread.new) }
        ensures refused { OnErr result (thread.new ≡ thread.old) }
    {
        let current = Hub::current(thread)?;
        let answer = callback(&current, thread);
        Ok(answer)
    }

    /// The same if the current hub is active: its client is enabled. Otherwise the closure does not run, and the answer
    /// is the default of its type.
    ///
    /// `Stale`: the hub isn't held. `OutOfMemory`.
    pub fn with_active<
        K,
        G,
        A: Default,
        F: FnOnce(&Hub<L>, &mut ThreadHub<Hub<L>, K, G>) -> A + Drop,
    >(thread: &mut ThreadHub<Hub<L>, K, G>, callback: F) -> Result<A, Refusal>
        requires { F.IsAlwaysCallable callback }
        ensures answer { IfOk result (λ answer. AnswersLent F.FnOnce callback thread.old.current thread.old answer thread.new
            ⊎ (A.is_default answer × (thread.new ≡ thread.old)
            × LockAnswersWithoutMemory L.Processor L.Callbacks L.Transport false (hubs.is_active thread.old.current))) }
        ensures refused { OnErr result (thread.new ≡ thread.old) }
    {
        match Hub::active(thread)? {
            None => Ok(A::default()),
            Some(hub) => {
                let answer = callback(&hub, thread);
                Ok(answer)
            }
        }
    }

    // The current hub of the thread, if it is active.
    pub(crate) fn active<K, G>(thread: &ThreadHub<Hub<L>, K, G>) -> Result<Option<Hub<L>>, Refusal>
        ensures { IfOk result (λ found. MatchOption found
            (LockAnswersWithoutMemory L.Processor L.Callbacks L.Transport false (hubs.is_active thread.now.current))
            (λ hub. hub ≡ thread.now.current)) }
    {
        let hub = Hub::current(thread)?;
        if !hub.is_active()? {
            return Ok(None);
        }
        Ok(Some(hub))
    }

    /// Runs the closure while a hub is the current one of the thread: it is lent the hub, and the hubs of the thread.
    /// Afterwards the earlier one is current again.
    ///
    /// An allocation may fail: then it does not run.
    pub fn run<K: Drop, G: Drop, A, F: FnOnce(&Hub<L>, &mut ThreadHub<Hub<L>, K, G>) -> A + Drop>(
        hub: Hub<L>,
        thread: &mut ThreadHub<Hub<L>, K, G>,
        callback: F,
    ) -> Result<A, AllocError>
        requires { F.IsAlwaysCallable callback }
        ensures answer { IfOk result (λ answer. (left : _)
            × AnswersLent F.FnOnce callback hub (record thread.old { current = hub }) answer left
            × (thread.new ≡ record left { current = thread.old.current })) }
        ensures refused { OnErr result (thread.new ≡ thread.old) }
        ensures current { thread.new.current ≡ thread.old.current }
    {
        let same = hub.clone()?;
        let answer = run_with(thread, hub, &same, callback);
        Ok(answer)
    }
}
